//! The tick counter counts the ticks that were drawn, and the receipts with the calls that run are a report.
ghost use Rattle.run_laws.specs.Ticks.{TicksCount, TicksOnce};
ghost use Rattle.run_laws.specs.Reports.{RunsReport};

use normal_traits::Normalized;

/// The word at the place of the tick counter is the number of events: of begins and returns. The premise
/// is that nothing else writes that word.
pub fn ticks_count<C: Normalized>()
    ensures { TicksCount C.form }
{}

/// Under that premise each tick below the counter is that of one begin or return, and no other tick is.
pub fn ticks_once<C: Normalized>()
    ensures { TicksOnce C.form }
{}

/// Under that premise, in any order of the seats, the receipts with the calls that run are a report over
/// the command files.
pub fn runs_report<C: Normalized>()
    ensures { RunsReport C.form }
{}
