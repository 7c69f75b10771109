//! The words with which a run opens.
ghost use Rattle.std.specs.Prelude.{◌≡◌, ℕ, ◌<◌, ◌≤◌, IfOk, slice_index, replicate, vec_len};
ghost use Rattle.node_arena.specs.MemoryMap.{words_of};
ghost use Rattle.node_arena.specs.Opening.{ClientsOpen, opening_word, opening_words};

use crate::places::{BLOCK_WORDS, FIRST_WORDS, HEAD, TAIL};
use lin_report::{Client, NoMemory};
use std::alloc::Global;
use word_fields::VersionedWord;

/// The reference to node 1 of block 0, the queue's dummy node.
const DUMMY: u32 = 1;

/// The key of the tree's left leaf at the beginning, the first that is no command's.
const LEFT_KEY: u64 = 1_048_576;

/// The key of the tree's root, and of its right leaf: behind all others.
const ROOT_KEY: u64 = 1_048_577;

/// The references to nodes 1 and 3 of block 0, the tree's leaves at the beginning.
const LEFT_LEAF: u64 = 1;

const RIGHT_LEAF: u64 = 3;

/// In the tree, block 0 has the root, which is node 2, and its leaves, nodes 1 and 3: the places of their keys
/// and of the root's children.
const LEFT_KEY_PLACE: usize = 44;

const ROOT_KEY_PLACE: usize = 49;

const ROOT_LEFT_PLACE: usize = 51;

const ROOT_RIGHT_PLACE: usize = 52;

const RIGHT_KEY_PLACE: usize = 54;

/// Words that are all 0: the first words and blocks 0 to CAP. A structure that opens with others sets them there.
pub fn zeros(alloc: Global, cap: u32) -> Result<Vec<u64>, NoMemory>
    requires { cap ≤ 65536 }
    ensures { IfOk result (λ words. words.items ≡ replicate (words_of cap) 0) }
{
    let length = (FIRST_WORDS + BLOCK_WORDS * (cap + 1)) as usize;
    vec![in alloc; 0; length].map_err(|_| NoMemory)
}

/// The words with which a client's run opens: the first words and blocks 0 to CAP.
#[tactic(auto, using(crate::proofs::ZerosOpen::opening))]
pub fn opening_words(alloc: Global, cap: u32, client: Client) -> Result<Vec<u64>, NoMemory>
    requires some_blocks { 1 ≤ cap }
    requires cap_in_range { cap ≤ 65536 }
    ensures words { IfOk result (λ words. words.items ≡ opening_words (opening_word client) cap) }
    ensures length { IfOk result (λ words. vec_len words ≡ words_of cap) }
    ensures each { IfOk result (λ words. (place : ℕ) → place < words_of cap →
        slice_index words.items place ≡ opening_word client place) }
{
    let mut words = zeros(alloc, cap)?;
    match client {
        Client::Queue => {
            let dummy = VersionedWord {
                value: DUMMY,
                modified: false,
                version: 0,
            };
            words[HEAD as usize] = dummy.pack();
            words[TAIL as usize] = dummy.pack();
        }
        Client::Tree => {
            words[LEFT_KEY_PLACE] = LEFT_KEY;
            words[ROOT_KEY_PLACE] = ROOT_KEY;
            words[ROOT_LEFT_PLACE] = LEFT_LEAF;
            words[ROOT_RIGHT_PLACE] = RIGHT_LEAF;
            words[RIGHT_KEY_PLACE] = ROOT_KEY;
        }
        Client::List | Client::Buckets => {}
    }
    Ok(words)
}

/// The opening words of each client of the program are such as a form has to bring them.
pub fn clients_open()
    ensures { ClientsOpen }
{}
