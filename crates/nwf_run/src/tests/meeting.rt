//! Eight threads that wait for each other at a gate, and what is printed of their calls.
use super::rows::{AMPLE, files_of};
use super::runs::ran;
use lin_report::Receipt;
use normal_traits::Normalized;
use shared_memory::SeatPort;
use std::alloc::{AllocError, Global};
use std::sync::atomic::{AtomicU64, Ordering};
use std::test::Fail;
use thread_runs::Gate;
use whole_files::SinkInMemory;

/// The calls of eight seats with two calls each, as bits, and the ticks of each call, with 1 added.
#[derive(Drop)]
struct Meeting {
    begun: AtomicU64,
    ended: AtomicU64,
    gave_up: AtomicU64,
    begins: Vec<AtomicU64>,
    ends: Vec<AtomicU64>,
}

/// The first call of each seat.
const FIRST_CALLS: u64 = 0x5555;

/// All calls.
const CALLS: u64 = 0xFFFF;

/// The place of a call among all calls.
fn table_place(seat: u32, number: u32) -> u32 {
    seat.wrapping_mul(2).wrapping_add(number).wrapping_sub(1)
}

fn bit_of(seat: u32, number: u32) -> u64 {
    1u64.wrapping_shl(table_place(seat, number))
}

/// Words, all 0, one for each call.
fn no_ticks(alloc: Global) -> Result<Vec<AtomicU64>, AllocError> {
    let mut words = Vec::new(alloc);
    for _ in 0..16u32 {
        words.push(AtomicU64::new(0))?;
    }
    Ok(words)
}

impl Meeting {
    fn new(alloc: Global) -> Result<Meeting, AllocError> {
        Ok(Meeting {
            begun: AtomicU64::new(0),
            ended: AtomicU64::new(0),
            gave_up: AtomicU64::new(0),
            begins: no_ticks(alloc)?,
            ends: no_ticks(alloc)?,
        })
    }

    /// Waits until a word has all of these bits, so many turns at most.
    fn wait(&self, word: &AtomicU64, bits: u64) {
        for _ in 0..1_000_000_000u32 {
            if word.load(Ordering::SeqCst) & bits == bits {
                return;
            }
        }
        self.gave_up.fetch_add(1, Ordering::SeqCst);
    }
}

/// Stores a tick of the call at this place, with 1 added.
fn keep(words: &[AtomicU64], place: u32, tick: u64) {
    if let Some(word) = words.get(place as usize) {
        word.store(tick.wrapping_add(1), Ordering::SeqCst);
    }
}

/// The tick that was kept of the call at this place.
fn kept(words: &[AtomicU64], place: usize) -> u64 {
    match words.get(place) {
        Some(word) => word.load(Ordering::SeqCst).wrapping_sub(1),
        None => u64::MAX,
    }
}

/// No seat makes its first call before each one is about to, and seat 0 not its second one before that of seat 1
/// is answered.
impl Gate for Meeting {
    fn before(&self, seat: u32, number: u32) {
        self.begun.fetch_or(bit_of(seat, number), Ordering::SeqCst);
        if number == 1 {
            self.wait(&self.begun, FIRST_CALLS);
        } else if seat == 0 {
            self.wait(&self.ended, bit_of(1, 2));
        }
    }

    fn after<C: Normalized>(&self, receipt: &Receipt, _port: &SeatPort<C>) {
        let place = table_place(receipt.seat, receipt.number);
        keep(&self.begins, place, receipt.begin);
        keep(&self.ends, place, receipt.end);
        self.ended
            .fetch_or(bit_of(receipt.seat, receipt.number), Ordering::SeqCst);
    }
}

/// How many lines of a text begin and end so.
fn lines_like(text: &str, first: &str, last: &str) -> u32 {
    let mut count = 0u32;
    for line in text.split('\n') {
        if line.starts_with(first) && line.ends_with(last) {
            count = count.wrapping_add(1);
        }
    }
    count
}

#[test]
fn what_is_printed_is_what_the_threads_did(rt: HostRuntime) -> Result<(), Fail> {
    let alloc = rt.alloc();
    let gate = Meeting::new(alloc)?;
    let commands =
        "put 7/take/|put 7/take/|put 7/take/|put 7/take/|put 7/take/|put 7/take/|put 7/take/|put 7/take/";
    let mut files = files_of(alloc, "", commands, &[], AMPLE)?;
    let mut sink = SinkInMemory::with_room(alloc, AMPLE, Vec::new(alloc))?;
    let words = "run queue 65536 3 f0 f1 f2 f3 f4 f5 f6 f7";
    let got = ran(&rt, alloc, words, &mut files, &mut sink, &gate)?;
    assert_eq!(rt; got, 0);
    assert_eq!(rt; gate.begun.load(Ordering::SeqCst), CALLS);
    assert_eq!(rt; gate.ended.load(Ordering::SeqCst), CALLS);
    assert_eq!(rt; gate.gave_up.load(Ordering::SeqCst), 0);
    let Ok(text) = str::from_utf8(sink.bytes()) else {
        panic!(rt; "no text")
    };
    for place in 0..16usize {
        let (seat, number) = (place / 2, place % 2 + 1);
        let (begin, end) = (kept(&gate.begins, place), kept(&gate.ends, place));
        let first = format!(in alloc; "{seat} {number} ")?;
        let fast = format!(in alloc; " {begin} {end} fast")?;
        let slow = format!(in alloc; " {begin} {end} slow")?;
        let lines = (
            lines_like(text, first.as_str(), fast.as_str()),
            lines_like(text, first.as_str(), slow.as_str()),
        );
        assert!(rt; matches!(lines, (1, 0) | (0, 1)));
    }
    // How many calls lose three exchanges, and are published, is up to the schedule.
    let (fast, slow) = (lines_like(text, "", " fast"), lines_like(text, "", " slow"));
    assert_eq!(rt; fast.wrapping_add(slow), 16);
    let summary = format!(in alloc; "calls 16 fast {fast} slow {slow} exhausted 0 pending 0")?;
    assert_eq!(rt; lines_like(text, summary.as_str(), summary.as_str()), 1);
    assert_eq!(rt; lines_like(text, "", ""), 18);
    Ok(())
}
