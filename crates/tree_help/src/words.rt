//! Update words, and what a block notes of its call.
ghost use Rattle.std.specs.Prelude.{◌≡◌, ◌<◌, ◌^◌, ◌≤◌};
ghost use Rattle.word_fields.specs.Versioned.{changed_word, is_modified, versioned_value};
ghost use Rattle.tree_help.specs.Updates.{block_of, flag_place, note_at, place_in, state_of, updated};

use node_arena::block_place;
use node_arena::places::INFO_FIELD;
use word_fields::VersionedWord;

/// How many places there can be.
const PLACES: u64 = 1 << 32;

/// The value of a word.
#[tactic(auto, using(word_fields::proofs::ChangedWords::versioned_words))]
pub fn value_of(word: u64) -> u32
    ensures value { result ≡ versioned_value word }
    ensures small { result < 2 ^ 24 }
{
    VersionedWord::unpack(word).value
}

/// Whether the modified bit of a word is set.
pub fn is_modified(word: u64) -> bool
    ensures { result ≡ is_modified word }
{
    VersionedWord::unpack(word).modified
}

/// The state of an update word.
pub fn state_of(word: u64) -> u32
    ensures state { result ≡ state_of word }
    ensures small { result < 4 }
{
    value_of(word) % 4
}

/// The block that an update word names.
pub fn block_of(word: u64) -> u32
    ensures block { result ≡ block_of word }
    ensures small { result < 2 ^ 22 }
{
    value_of(word) / 4
}

/// A word of a place that is exchanged, after another.
pub fn changed(word: u64, value: u32) -> u64
    requires { value < 2 ^ 24 }
    ensures { result ≡ changed_word word value }
{
    VersionedWord::unpack(word).changed(value).pack()
}

/// An update word after another, with this block and state.
pub fn updated(word: u64, block: u32, state: u32) -> u64
    requires block { block < 2 ^ 22 }
    requires state { state < 4 }
    ensures { result ≡ updated word block state }
{
    changed(word, 4 * block + state)
}

/// The place of a note of a block.
pub fn note_at(block: u32, note: u32) -> u32
    requires block { block < 2 ^ 22 }
    requires note { note ≤ 4 }
    ensures { result ≡ note_at block note }
{
    block_place(block, INFO_FIELD + note)
}

/// The place that a word has.
pub fn place_in(word: u64) -> u32
    ensures { result ≡ place_in word }
{
    (word % PLACES) as u32
}

/// The place of the update word of the internal node to which a place belongs.
pub fn flag_place(place: u32) -> u32
    ensures { result ≡ flag_place place }
{
    place / 32 * 32 + 21
}
