//! The next words of nodes: the node to which one leads, and whether its own node is marked.
ghost use Rattle.std.specs.Prelude.{◌≡◌, ◌<◌, ◌^◌};
ghost use Rattle.word_fields.specs.Versioned.{is_modified, versioned_value};
ghost use Rattle.harris_list_form.specs.Search.{led, is_marked, next_place, key_place, leading, marking};
ghost use Rattle.harris_list_form.specs.Least.{key_in};

use node_arena::node_place;
use node_arena::places::{NODE_KEY, NODE_NEXT};
use word_fields::VersionedWord;

/// The value of a word.
#[inline(always)]
#[tactic(auto, using(word_fields::proofs::ChangedWords::versioned_words))]
fn value_of(word: u64) -> u32
    ensures value { result ≡ versioned_value word }
    ensures small { result < 2 ^ 24 }
{
    VersionedWord::unpack(word).value
}

/// The reference to which a next word leads; 0 is the end of the list.
#[inline(always)]
pub fn led(word: u64) -> u32
    ensures reference { result ≡ led word }
    ensures small { result < 2 ^ 23 }
{
    value_of(word) / 2
}

/// Whether the node that has this next word is marked.
#[inline(always)]
pub fn is_marked(word: u64) -> bool
    ensures { result ≡ is_marked word }
{
    value_of(word) % 2 == 1
}

/// Whether the modified bit of a word is set.
#[inline(always)]
pub fn is_modified(word: u64) -> bool
    ensures { result ≡ is_modified word }
{
    VersionedWord::unpack(word).modified
}

/// The place of a node's next word.
#[inline(always)]
pub fn next_place(reference: u32) -> u32
    requires { reference < 2 ^ 23 }
    ensures { result ≡ next_place reference }
{
    node_place(reference, NODE_NEXT)
}

/// The place of a node's key.
#[inline(always)]
pub fn key_place(reference: u32) -> u32
    requires { reference < 2 ^ 23 }
    ensures { result ≡ key_place reference }
{
    node_place(reference, NODE_KEY)
}

/// The key in the word of a node's key.
#[inline(always)]
pub fn key_in(word: u64) -> u32
    ensures { result ≡ key_in word }
{
    (word % 1_048_576) as u32
}

/// The next word that leads to a node, in the place of another.
#[inline(always)]
pub fn leading(word: u64, reference: u32) -> u64
    requires { reference < 2 ^ 23 }
    ensures { result ≡ leading word reference }
{
    VersionedWord::unpack(word).changed(2 * reference).pack()
}

/// The next word with which a node is marked.
#[inline(always)]
pub fn marking(word: u64) -> u64
    ensures { result ≡ marking word }
{
    VersionedWord::unpack(word)
        .changed(2 * led(word) + 1)
        .pack()
}
