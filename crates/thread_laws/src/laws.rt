//! The laws, of any client.
ghost use Rattle.thread_laws.specs.Headline.{ThreadsMeetHeadline};

use normal_traits::Normalized;

/// The lines and counters of a run with threads are those of the run of its command files in some order of the
/// seats, with all that holds of every such run: the same as of a replay.
pub fn threads_meet_headline<C: Normalized>()
    ensures { ThreadsMeetHeadline C.form }
{}
