//! A gather over a queue word: which other seats are to be entered with an exchange of it.
ghost use Rattle.std.specs.Prelude.{◌≡◌, ℕ, ◌+◌, ◌-◌, ◌%◌, ◌^◌, ◌<◌, ◌≤◌, ◌++◌, ◌↔◌, true, false, drop, length, IsTrue, if◌then◌else◌, [], ◌∷◌};
ghost use Rattle.step_memory.specs.declared.steps.Request.{Request};
ghost use Rattle.word_fields.specs.Seats.{AreSeats, queue_seats};
ghost use Rattle.word_fields.specs.Queues.{queue_version, queue_word};
ghost use Rattle.node_arena.specs.MemoryMap.{record_place};
ghost use Rattle.help_queue.specs.Gathers.{Gathering, IsGathering, among_seats, holds, leads, is_open, first_out, gather_begun, gather_over, gather_fed, entered_word, removed_word};

use arrayvec::ArrayVec;
use node_arena::places::QUEUE;
use node_arena::record_place;
use std::marker::Model;
use step_memory::Request;
use word_fields::queues::{head, members};
use word_fields::{QueueWord, RecordPhase, RecordWord};

/// Whether a seat is among these.
pub fn is_among(seat: u32, seats: &[u8]) -> bool
    requires { seat < 8 }
    ensures { result ≡ among_seats seat seats.now }
{
    seats.contains(&(seat as u8))
}

/// Whether a queue word holds a seat.
pub fn holds(word: u64, seat: u32) -> bool
    requires { seat < 8 }
    ensures { result ≡ holds word seat }
{
    members(word)[seat as usize]
}

/// Whether a seat is the head of a queue word.
pub fn leads(word: u64, seat: u32) -> bool
    ensures { result ≡ leads word seat }
{
    match head(word) {
        Some(head) => u32::from(head) == seat,
        None => false,
    }
}

/// Whether the call of a record in this phase isn't completed.
pub fn is_open(phase: RecordPhase) -> bool
    ensures { result ≡ is_open phase }
{
    match phase {
        RecordPhase::Generate | RecordPhase::Executing | RecordPhase::Wrapping => true,
        RecordPhase::Idle | RecordPhase::Completed => false,
    }
}

/// The first seat from AT on, below SEATS, that a queue word doesn't hold, or SEATS where it holds them all.
#[tactic(auto, using(crate::proofs::SeatsGathered::walk))]
fn first_out(word: u64, at: u32, seats: u32) -> u32
    requires begun { at ≤ seats }
    requires few { seats ≤ 8 }
    ensures first { result ≡ first_out word at (seats - at) }
    ensures range { (at ≤ result) × (result ≤ seats) }
    ensures out { result < seats → holds word result ≡ false }
    ensures passed { (seat : ℕ) → at ≤ seat → seat < result → holds word seat ≡ true }
{
    let held = members(word);
    for seat in at..seats {
        if !held[seat as usize] {
            return seat;
        }
    }
    seats
}

/// The seats with others behind them.
fn joined(seats: ArrayVec<u8, 8>, behind: &[u8]) -> ArrayVec<u8, 8>
    requires { AreSeats (seats.items ++ behind.now) }
    ensures { result.items ≡ seats.items ++ behind.now }
{
    let mut all = seats;
    for seat in behind {
        all.push(*seat);
    }
    all
}

/// The seats behind the first.
fn without_head(seats: ArrayVec<u8, 8>) -> ArrayVec<u8, 8>
    ensures { result.items ≡ drop 1 seats.items }
{
    let mut kept = seats;
    if !kept.is_empty() {
        kept.remove(0);
    }
    kept
}

/// Puts a seat last where its record is open.
fn note(found: &mut ArrayVec<u8, 8>, seat: u32, opened: bool)
    requires seat { seat < 8 }
    requires room { length found.old.items < 8 }
    ensures { found.new.items ≡ (if opened then found.old.items ++ seat ∷ [] else found.old.items) }
{
    if opened {
        found.push(seat as u8);
    }
}

/// A gather: the queue word over which it goes, the seat whose record is loaded next, and the seats that
/// were found.
#[derive(Debug, Drop)]
pub struct Gather {
    among: u32,
    word: u64,
    next: u32,
    found: ArrayVec<u8, 8>,
}

impl Model for Gather {
    ghost Value = { Gathering };

    ghost view = { λ g. record { among = g.among; word = g.word; next = g.next; found = g.found.items } };

    ghost invariant = { λ g. IsGathering (record { among = g.among; word = g.word; next = g.next; found = g.found.items }) };
}

impl Gather {
    /// A gather over a queue word, among the seats below SEATS.
    pub fn new(seats: u32, word: u64) -> Gather
        requires { seats ≤ 8 }
        ensures { result ≡ gather_begun seats word }
    {
        Gather {
            among: seats,
            word,
            next: first_out(word, 0, seats),
            found: ArrayVec::new(),
        }
    }

    /// Whether all records are loaded.
    pub fn is_over(&self) -> bool
        ensures { result ≡ gather_over self.now }
    {
        self.next >= self.among
    }

    /// Whether the record of a seat is loaded next.
    pub fn is_at(&self, seat: u32) -> bool
        ensures { IsTrue result ↔ (self.now.next ≡ seat) }
    {
        self.next == seat
    }

    /// Whether a seat was found.
    pub fn has(&self, seat: u32) -> bool
        requires { seat < 8 }
        ensures { result ≡ among_seats seat self.now.found }
    {
        is_among(seat, &self.found)
    }

    /// The load of the next record.
    pub fn load(&self) -> Request
        requires { gather_over self.now ≡ false }
        ensures { result ≡ Request.Load (record_place self.now.next) }
    {
        Request::Load {
            at: record_place(self.next),
        }
    }

    /// Takes a record word: its seat is found where the record is open.
    pub fn take(&mut self, record_word: u64)
        requires { gather_over self.old ≡ false }
        ensures { self.new ≡ gather_fed self.old record_word }
    {
        let opened = is_open(RecordWord::unpack(record_word).phase);
        note(&mut self.found, self.next, opened);
        self.next = first_out(self.word, self.next + 1, self.among);
    }

    /// The queue word with these of its seats, the found ones behind them, and the version one higher.
    #[tactic(auto, using(crate::proofs::SeatsGathered::written))]
    fn with(&self, kept: ArrayVec<u8, 8>, version: u32) -> u64
        requires { AreSeats (kept.items ++ self.now.found) }
        ensures word { result ≡ queue_word (kept.items ++ self.now.found) ((version + 1) % 2 ^ 32) }
        ensures seats { queue_seats result ≡ kept.items ++ self.now.found }
        ensures version { queue_version result ≡ (version + 1) % 2 ^ 32 }
    {
        let word = QueueWord {
            seats: joined(kept, &self.found),
            version: version.wrapping_add(1),
        };
        word.pack()
    }

    /// The word that enters the found seats.
    #[tactic(auto, using(crate::proofs::SeatsGathered::are_behind))]
    pub fn entered(&self) -> u64
        ensures word { result ≡ entered_word self.now }
        ensures seats { queue_seats result ≡ queue_seats self.now.word ++ self.now.found }
        ensures version { queue_version result ≡ (queue_version self.now.word + 1) % 2 ^ 32 }
    {
        let queue = QueueWord::unpack(self.word);
        self.with(queue.seats, queue.version)
    }

    /// The word that removes the head, and enters the found seats.
    #[tactic(auto, using(crate::proofs::SeatsGathered::are_behind))]
    pub fn removed(&self) -> u64
        ensures word { result ≡ removed_word self.now }
        ensures seats { queue_seats result ≡ drop 1 (queue_seats self.now.word) ++ self.now.found }
        ensures version { queue_version result ≡ (queue_version self.now.word + 1) % 2 ^ 32 }
    {
        let queue = QueueWord::unpack(self.word);
        self.with(without_head(queue.seats), queue.version)
    }

    /// The exchange of the queue word to another.
    pub fn exchange(&self, to: u64) -> Request
        ensures { result ≡ Request.Exchange QUEUE self.now.word to }
    {
        Request::Exchange {
            at: QUEUE,
            from: self.word,
            to,
        }
    }
}
