//! The head of a queue word, and what a helper makes of its record.
ghost use Rattle.std.specs.Prelude.{◌≡◌, ◌<◌, ◌≤◌, Some, None};
ghost use Rattle.help_queue.specs.Heads.{head_of, is_other, record_met};

use crate::Remove;
use word_fields::queues::head;
use word_fields::{RecordPhase, RecordWord};

/// The head of a queue word.
pub fn head_of(word: u64) -> Option<u32>
    ensures { result ≡ head_of word }
{
    head(word).map(u32::from)
}

/// Whether a record is of another call than the known one.
pub fn is_other(known: Option<u16>, number: u16) -> bool
    ensures { result ≡ is_other known number }
{
    match known {
        Some(known) => known != number,
        None => false,
    }
}

/// The removal of the call of a record that was loaded; none of one that is open.
pub fn removal_of(word: u64, seat: u32, seats: u32) -> Option<Remove>
    requires seat { seat < seats }
    requires few { seats ≤ 8 }
    ensures { result ≡ record_met (λ opened. None) (λ removal. Some removal) word seat seats }
{
    let record = RecordWord::unpack(word);
    match record.phase {
        RecordPhase::Idle | RecordPhase::Completed => Some(Remove::new(seat, record.number, seats)),
        RecordPhase::Generate | RecordPhase::Executing | RecordPhase::Wrapping => None,
    }
}
