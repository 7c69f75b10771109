//! Writes the verdict of a check, or why there is none, and answers the status.
ghost use Rattle.std.specs.Prelude.{◌≡◌};
ghost use Rattle.whole_files.specs.Outside.{WritesMessage};
ghost use Rattle.checking.specs.Checking.{Ends, Tells, verdict_status};
ghost use Rattle.checking.specs.Stops.{status_of, message_of};

use crate::stops::Stop;
use report_check::{Verdict, verdict_line};
use whole_files::{Sink, write_all};

/// The status of a verdict that was written.
fn verdict_status(verdict: Verdict) -> u8
    ensures { result ≡ verdict_status verdict }
{
    match verdict {
        Verdict::Legal => 0,
        Verdict::NotLegal(_) => 8,
    }
}

/// Writes a verdict, and answers the status.
fn tell_verdict<K: Sink>(out: &mut K, verdict: Verdict) -> u8
    ensures { Tells (K.written out.old) (K.written out.new) (K.faults out.old) (K.faults out.new) result verdict }
{
    match write_all(out, verdict_line(verdict).as_str().as_bytes()) {
        Ok(()) => verdict_status(verdict),
        Err(_) => 5,
    }
}

/// Writes the message that says why there is no verdict, and answers the status, which stays where the message can't be
/// written.
fn tell_stop<K: Sink>(out: &mut K, stop: Stop) -> u8
    ensures status { result ≡ status_of stop }
    ensures writes { WritesMessage (K.written out.old) (K.written out.new) (K.faults out.old) (K.faults out.new) (message_of stop) }
{
    let _ = write_all(out, stop.message().as_str().as_bytes());
    stop.status()
}

/// Ends a call that has a verdict to write, or a reason to stop.
pub(crate) fn finish<K: Sink>(out: &mut K, answer: Result<Verdict, Stop>) -> u8
    ensures { Ends (K.written out.old) (K.written out.new) (K.faults out.old) (K.faults out.new) result answer }
{
    match answer {
        Ok(verdict) => tell_verdict(out, verdict),
        Err(stop) => tell_stop(out, stop),
    }
}
