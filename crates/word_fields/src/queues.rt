//! Queue words: the seats whose published calls are to be helped.
ghost use Rattle.std.specs.Prelude.{◌≡◌, ℕ, ◌-◌, ◌<◌, ◌^◌, ◌&&◌, nat_le, nat_lt, not, false, get_or, slice_index, take};
ghost use Rattle.std.specs.Option.{option_to_list};
ghost use Rattle.word_fields.specs.Seats.{AreMembers, AreSeats, places_of, queue_seats, seats_word};

use crate::field::Field;
use arrayvec::ArrayVec;

/// One place, where the word is shifted so that it is the lowest: 0 where it is empty, else one more
/// than a seat.
pub type QueuePlace = Field<0, 4>;
/// The version, which each change of the queue raises by one.
pub type QueueVersion = Field<32, 32>;

/// How many places there are, and how many seats.
const PLACES: u32 = 8;
/// How many bits a place has.
const PLACE_BITS: u32 = 4;

/// A queue word by its fields: the seats in order, the head first.
#[derive(Debug, Drop, PartialEq, Eq)]
pub struct QueueWord {
    pub seats: ArrayVec<u8, 8>,
    pub version: u32,
    pub ghost are_seats: { AreSeats seats.items },
    pub ghost version_in_range: { version < 2 ^ 32 },
}

/// What stands at a place.
fn place_at(word: u64, place: u32) -> u8
    requires { place < 8 }
    ensures { result ≡ slice_index (places_of word) place }
{
    QueuePlace::get(word >> (PLACE_BITS * place)) as u8
}

/// Whether what stands at a place names a seat that is no member yet.
fn is_another(members: &[bool; 8], named: u8) -> bool
    ensures { result ≡ nat_lt 0 named && nat_le named 8 && not (get_or members.now (named - 1) false) }
{
    named > 0 && u32::from(named) <= PLACES && !members[named as usize - 1]
}

/// The seats that a word's places name, up to the first that is empty, above 8, or a repeat; and for each seat
/// whether it is one of them.
fn read_seats(word: u64) -> (ArrayVec<u8, 8>, [bool; 8])
    ensures seats { result.0.items ≡ queue_seats word }
    ensures members { AreMembers result.1 (queue_seats word) }
{
    let mut seats = ArrayVec::new();
    let mut members = [false; 8];
    for place in 0..PLACES {
        let named = place_at(word, place);
        if !is_another(&members, named) {
            break;
        }
        members[named as usize - 1] = true;
        seats.push(named - 1);
    }
    (seats, members)
}

/// For each seat below 8 whether a queue word holds it.
pub fn members(word: u64) -> [bool; 8]
    ensures { AreMembers result (queue_seats word) }
{
    read_seats(word).1
}

/// The head of a queue word: the seat that its first place names, if it names one.
pub fn head(word: u64) -> Option<u8>
    ensures { option_to_list result ≡ take 1 (queue_seats word) }
{
    let named = place_at(word, 0);
    if is_another(&[false; 8], named) {
        return Some(named - 1);
    }
    None
}

/// The bits of seats in their places.
#[tactic(auto, using(crate::proofs::SeatsOfQueueWords::write_more), unfolding(crate::specs::Seats::seats_word))]
fn write_seats(seats: &[u8]) -> u64
    requires { AreSeats seats.now }
    ensures { result ≡ seats_word seats.now }
{
    let mut word = 0;
    for place in (0..seats.len()).rev() {
        word = (word << PLACE_BITS) + u64::from(seats[place]) + 1;
    }
    word
}

impl QueueWord {
    ghost use Rattle.word_fields.specs.declared.queues.QueueWord.{QueueWord};
    ghost use Rattle.word_fields.specs.Seats.{ReadsSeats};
    ghost use Rattle.word_fields.specs.Queues.{queue_of, packed_queue};

    /// The fields of a word.
    #[tactic(auto, using(crate::proofs::SeatsOfQueueWords::queue_seats_read, crate::specs::ProvedSeats::queue_seats_are), unfolding(crate::specs::Queues::queue_version))]
    pub fn unpack(word: u64) -> Self
        ensures fields { result ≡ queue_of word }
        ensures seats { ReadsSeats (places_of word) result.seats.items }
    {
        QueueWord {
            seats: read_seats(word).0,
            version: QueueVersion::get(word) as u32,
        }
    }

    /// The word with these fields.
    #[tactic(auto, using(crate::proofs::SeatsOfQueueWords::queue_word_put))]
    pub fn pack(&self) -> u64
        ensures word { result ≡ packed_queue self.now }
        ensures read_back { queue_of result ≡ self.now }
        ensures told_apart { (v : QueueWord) → packed_queue v ≡ result → v ≡ self.now }
    {
        QueueVersion::put(write_seats(&self.seats), u64::from(self.version))
    }
}
