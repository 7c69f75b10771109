//! The memory map: 32 first words, with an op word, a record word and a value word for each seat among
//! them, and then blocks of 32 words.
ghost use Rattle.std.specs.Prelude.{◌≡◌, ℕ, ◌+◌, ◌*◌, ◌/◌, ◌%◌, ◌^◌, ◌<◌, ◌≤◌};
ghost use Rattle.node_arena.specs.MemoryMap.{block_place, reference_to, NamesNode, node_named, node_place, op_place, record_place, value_place, words_of};

/// The place of the tick counter.
pub const TICKS: u32 = 0;
/// The place of the queue word.
pub const QUEUE: u32 = 1;
/// The place of the claim counter.
pub const CLAIMS: u32 = 2;
/// The first of the four places that are left to a structure for its roots: words of its own beside the blocks.
pub const ROOTS: u32 = 20;
/// The place of the queue's head, a root.
pub const HEAD: u32 = 20;
/// The place of the queue's tail, a root.
pub const TAIL: u32 = 21;

/// The place of seat 0's op word. Those of the other seats follow.
pub const OPS: u32 = 4;
/// The place of seat 0's record word. Those of the other seats follow.
pub const RECORDS: u32 = 12;
/// The place of seat 0's value word. Those of the other seats follow.
pub const VALUES: u32 = 24;

/// How many words stand before the blocks.
pub const FIRST_WORDS: u32 = 32;
/// How many words a block has.
pub const BLOCK_WORDS: u32 = 32;

/// The field of a block that has the owner word.
pub const OWNER_FIELD: u32 = 0;
/// The field of a block that has the op word of its call.
pub const OP_FIELD: u32 = 1;
/// The field of a block that has the length of its list.
pub const LENGTH_FIELD: u32 = 2;
/// The first field of entry 0: its target, followed by its two words.
pub const ENTRY_FIELD: u32 = 3;
/// How many fields an entry has.
pub const ENTRY_FIELDS: u32 = 3;
/// The field of a block that has the state of entry 0, followed by that of entry 1.
pub const STATE_FIELD: u32 = 9;
/// The field of a block that has the value word of its call.
pub const VALUE_FIELD: u32 = 11;
/// The first field of node 1.
pub const NODE_FIELD: u32 = 12;
/// How many fields a node has.
pub const NODE_FIELDS: u32 = 5;
/// The first field of what the tree notes of a change.
pub const INFO_FIELD: u32 = 27;

/// The field of a node that has its key.
pub const NODE_KEY: u32 = 0;
/// The field of a node that has its value.
pub const NODE_VALUE: u32 = 1;
/// The field of a node that has its next word, or its left child's.
pub const NODE_NEXT: u32 = 2;
/// The field of a node that has its right child's word.
pub const NODE_RIGHT: u32 = 3;
/// The field of a node that has its update word.
pub const NODE_UPDATE: u32 = 4;

/// How many references a block has: 0 is none, then its three nodes.
pub const REFERENCES: u32 = 4;

/// The place of a block's field.
#[tactic(auto, unfolding(crate::specs::MemoryMap::block_place))]
pub fn block_place(block: u32, field: u32) -> u32
    requires block_in_range { block < 2 ^ 22 }
    requires field_in_range { field < 32 }
    ensures place { result ≡ block_place block field }
    ensures behind_first { 32 ≤ result }
    ensures inside { (cap : ℕ) → block ≤ cap → result < words_of cap }
    ensures apart { (other at : ℕ) → at < 32 → block_place other at ≡ result → (other ≡ block) × (at ≡ field) }
{
    FIRST_WORDS + BLOCK_WORDS * block + field
}

/// The place of a node's field. A reference that names no node of its block is read as node 1.
#[tactic(auto, unfolding(crate::specs::MemoryMap::block_place, crate::specs::MemoryMap::node_place, crate::specs::MemoryMap::node_named))]
pub fn node_place(reference: u32, field: u32) -> u32
    requires reference_in_range { reference < 2 ^ 24 }
    requires field_in_range { field < 5 }
    ensures place { result ≡ node_place reference field }
    ensures behind_first { 32 ≤ result }
    ensures inside { (cap : ℕ) → reference / 4 ≤ cap → result < words_of cap }
    ensures in_block { (block at : ℕ) → at < 32 → block_place block at ≡ result →
        (block ≡ reference / 4) × (12 ≤ at) × (at < 27) }
    ensures apart { (other at : ℕ) → at < 5 → NamesNode reference → NamesNode other →
        node_place other at ≡ result → (other ≡ reference) × (at ≡ field) }
{
    let node = match reference % REFERENCES {
        0 => 1,
        node => node,
    };
    block_place(
        reference / REFERENCES,
        NODE_FIELD + NODE_FIELDS * (node - 1) + field,
    )
}

/// The reference to a node of a block.
#[tactic(auto, unfolding(crate::specs::MemoryMap::node_named))]
pub fn reference_to(block: u32, node: u32) -> u32
    requires block_in_range { block < 2 ^ 22 }
    requires some_node { 1 ≤ node }
    requires node_in_range { node ≤ 3 }
    ensures reference { result ≡ reference_to block node }
    ensures block { result / 4 ≡ block }
    ensures node { node_named result ≡ node }
{
    REFERENCES * block + node
}

/// The place of a seat's op word.
pub fn op_place(seat: u32) -> u32
    requires { seat < 8 }
    ensures place { result ≡ op_place seat }
    ensures range { (4 ≤ result) × (result < 12) }
{
    OPS + seat
}

/// The place of a seat's record word.
pub fn record_place(seat: u32) -> u32
    requires { seat < 8 }
    ensures place { result ≡ record_place seat }
    ensures range { (12 ≤ result) × (result < 20) }
{
    RECORDS + seat
}

/// The place of a seat's value word.
pub fn value_place(seat: u32) -> u32
    requires { seat < 8 }
    ensures place { result ≡ value_place seat }
    ensures range { (24 ≤ result) × (result < 32) }
{
    VALUES + seat
}
