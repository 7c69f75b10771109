//! What every run of moves that can follow each other comes to, with helpers and without.
ghost use Rattle.any_moves.specs.Headline.{AnyMovesMeetHeadline};

use normal_traits::Normalized;

/// Whatever moves follow each other, the report over the commands that they began is whole and linearizable and leaves
/// none of these commands out, a call is told that no block was left only where none was, each exchange of a list took
/// effect at most once, and no call is overtaken more often than the bound says; whether or not calls are published
/// and helped.
pub fn any_moves_meet_headline<C: Normalized>()
    ensures { AnyMovesMeetHeadline C.form }
{}
