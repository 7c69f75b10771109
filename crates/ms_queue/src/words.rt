//! The words of the queue: what they name, and what is written in their place.
ghost use Rattle.std.specs.Prelude.{◌≡◌, ◌<◌, ◌^◌};
ghost use Rattle.word_fields.specs.Versioned.{versioned_value, is_modified};
ghost use Rattle.ms_queue_form.specs.Search.{next_place, moved_word};

use node_arena::node_place;
use node_arena::places::NODE_NEXT;
use word_fields::VersionedWord;

/// The reference that a word has.
#[inline(always)]
#[tactic(auto, using(word_fields::proofs::ChangedWords::versioned_words))]
pub fn node_of(word: u64) -> u32
    ensures value { result ≡ versioned_value word }
    ensures small { result < 2 ^ 24 }
{
    VersionedWord::unpack(word).value
}

/// Whether the modified bit of a word is set.
#[inline(always)]
pub fn is_modified(word: u64) -> bool
    ensures { result ≡ is_modified word }
{
    VersionedWord::unpack(word).modified
}

/// The place of the next word of the node that a word names.
#[inline(always)]
pub fn next_place(word: u64) -> u32
    ensures { result ≡ next_place word }
{
    node_place(node_of(word), NODE_NEXT)
}

/// The word with which the node that another word names takes the place of this one's.
#[inline(always)]
pub fn moved(word: u64, next: u64) -> u64
    ensures { result ≡ moved_word word next }
{
    VersionedWord::unpack(word).changed(node_of(next)).pack()
}
