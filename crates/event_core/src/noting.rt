//! The events of a step that are read off the memory: calls that it publishes, and the call that it completes.
ghost use Rattle.std.specs.Prelude.{◌≡◌, ◌+◌, ◌<◌, ◌≤◌, ◌++◌, ◌∷◌, [], length, nat_le, slice_index, vec_len, vec_capacity};
ghost use Rattle.std.specs.Option.{option_to_list};
ghost use Rattle.word_fields.specs.Seats.{AreSeats};
ghost use Rattle.fast_slow_engine.specs.Events.{published_by, record_word_of};
ghost use Rattle.event_core.specs.Noted.{completed_at, is_member, marked, published_at};

use crate::watching::Mark;
use help_queue::gather::is_open;
use lin_report::{Event, EventKind};
use node_arena::places::{QUEUE, RECORDS};
use node_arena::record_place;
use word_fields::queues::members;
use word_fields::{QueueWord, RecordWord};

/// The word at a place, 0 past the last one.
pub fn word_at(words: &[u64], place: u32) -> u64
    ensures { result ≡ slice_index words.now place }
{
    match words.get(place as usize) {
        Some(word) => *word,
        None => 0,
    }
}

/// Whether a place is beyond the records, where neither the tick counter nor the queue word nor a record stands.
#[inline(always)]
pub fn is_beyond(place: u32) -> bool
    ensures { result ≡ nat_le (RECORDS + 8) place }
{
    place >= RECORDS + 8
}

/// The completion that a step at this place is, if it left this word for that one.
fn completed_at(place: u32, before: u64, after: u64) -> Option<Event>
    ensures { result ≡ completed_at place before after }
{
    if place < RECORDS || is_beyond(place) {
        return None;
    }
    let record = RecordWord::unpack(before);
    if !is_open(record.phase) || is_open(RecordWord::unpack(after).phase) {
        return None;
    }
    Some(Event {
        kind: EventKind::Complete,
        seat: place - RECORDS,
        number: u32::from(record.number),
    })
}

/// Puts an event last, where there is one.
pub fn note(events: &mut Vec<Event>, event: Option<Event>)
    requires { vec_len events.old + length (option_to_list event) ≤ vec_capacity events.old }
    ensures items { events.new.items ≡ events.old.items ++ option_to_list event }
    ensures len { vec_len events.new ≡ vec_len events.old + length (option_to_list event) }
    ensures capacity { vec_capacity events.new ≡ vec_capacity events.old }
{
    if let Some(event) = event {
        events.push_reserved(event);
    }
}

/// The publication of a seat that a queue word has, by its record, if it was no member before.
fn publication_of(seat: u32, before: &[bool; 8], words: &[u64]) -> Option<Event>
    requires { seat < 8 }
    ensures { option_to_list result ≡ published_by (is_member before.now) (record_word_of words.now) (seat ∷ []) }
{
    if before[seat as usize] {
        return None;
    }
    let record = RecordWord::unpack(word_at(words, record_place(seat)));
    Some(Event {
        kind: EventKind::Publish,
        seat,
        number: u32::from(record.number),
    })
}

/// Puts the publications of those seats last that were no members before.
fn note_seats(events: &mut Vec<Event>, before: &[bool; 8], words: &[u64], seats: &[u8])
    requires seats { AreSeats seats.now }
    requires room { vec_len events.old + length (published_by (is_member before.now) (record_word_of words.now) seats.now) ≤ vec_capacity events.old }
    ensures items { events.new.items ≡ events.old.items ++ published_by (is_member before.now) (record_word_of words.now) seats.now }
    ensures len { vec_len events.new ≡ vec_len events.old + length (published_by (is_member before.now) (record_word_of words.now) seats.now) }
    ensures capacity { vec_capacity events.new ≡ vec_capacity events.old }
{
    for seat in seats {
        note(events, publication_of(u32::from(*seat), before, words));
    }
}

/// Puts the publications last that a step at this place is, if it found this word there and left these words.
fn note_published(events: &mut Vec<Event>, place: u32, before: u64, words: &[u64])
    requires room { vec_len events.old + length (published_at place before words.now) ≤ vec_capacity events.old }
    ensures items { events.new.items ≡ events.old.items ++ published_at place before words.now }
    ensures len { vec_len events.new ≡ vec_len events.old + length (published_at place before words.now) }
    ensures capacity { vec_capacity events.new ≡ vec_capacity events.old }
{
    if place != QUEUE {
        return;
    }
    let queue = word_at(words, QUEUE);
    if queue != before {
        note_seats(
            events,
            &members(before),
            words,
            &QueueWord::unpack(queue).seats,
        );
    }
}

/// Puts the events last that a step is which has this mark and left these words.
#[inline(never)]
pub fn note_mark(events: &mut Vec<Event>, mark: Mark, words: &[u64])
    requires room { vec_len events.old + length (marked mark words.now) ≤ vec_capacity events.old }
    ensures items { events.new.items ≡ events.old.items ++ marked mark words.now }
    ensures capacity { vec_capacity events.new ≡ vec_capacity events.old }
{
    let Mark { place, before } = mark;
    note(events, completed_at(place, before, word_at(words, place)));
    note_published(events, place, before, words);
}
