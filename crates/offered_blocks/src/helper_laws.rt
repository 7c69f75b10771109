//! Helpers: what they may do to the list of an offered block, and what they find there.
ghost use Rattle.offered_blocks.specs.HelperLaws.{HelpersKeep, RunsHelp, LateWinsNothing, ShownTook, StopsAgree, NoBitsLeft};

use normal_traits::Normalized;

/// What a helper does to the list of one block, however late, is an allowed step of the client, and what holds of all
/// blocks holds after it.
pub fn helpers_keep<C: Normalized>()
    ensures { HelpersKeep C.form }
{}

/// A step of a run on the list of an offered block is such a step, with the won exchange and the change of the entry that
/// it installs, and the run knows afterwards what it must.
pub fn runs_help<C: Normalized>()
    ensures { RunsHelp C.form }
{}

/// A listed exchange wins for the executed list alone, and for an entry that is pending and did not take effect.
pub fn late_wins_nothing<C: Normalized>()
    ensures { LateWinsNothing C.form }
{}

/// An entry that its target shows with its bit took effect, and its list is executed.
pub fn shown_took<C: Normalized>()
    ensures { ShownTook C.form }
{}

/// A list stops at one place.
pub fn stops_agree<C: Normalized>()
    ensures { StopsAgree C.form }
{}

/// Where the executed list has stopped no bit is left at any place where lists may have entries.
pub fn no_bits_left<C: Normalized>()
    ensures { NoBitsLeft C.form }
{}
