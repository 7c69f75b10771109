//! What every run of command files comes to, with helpers and without.
ghost use Rattle.run_reports.specs.Headline.{FilesMeetHeadline};

use normal_traits::Normalized;

/// In any order of the seats the report over the command files is whole and linearizable, a call is told that
/// no block was left only where none was, and each exchange of a list took effect at most once; whether or not calls
/// are published and helped.
pub fn files_meet_headline<C: Normalized>()
    ensures { FilesMeetHeadline C.form }
{}
