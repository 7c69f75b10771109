//! The stores of an offer: what its block tells of its call and, where others execute it, of its list.
ghost use Rattle.std.specs.Prelude.{◌≡◌, ◌+◌, ◌<◌, ◌≤◌, ◌^◌, ◌++◌, length, slice_get};
ghost use Rattle.fast_slow_engine.specs.OfferStores.{call_stores, entry_stores, note_stores};

use lin_report::Op;
use node_arena::block_place;
use node_arena::places::{
    ENTRY_FIELD, ENTRY_FIELDS, LENGTH_FIELD, OP_FIELD, OWNER_FIELD, VALUE_FIELD,
};
use normal_traits::{List, Stores};
use word_fields::owners::pack_owner;
use word_fields::{OpWord, ValueWord};

/// Begins with what a block tells of its call: owner, op word and value word.
pub fn store_call(stores: &mut Stores, block: u32, seat: u32, number: u16, op: Op)
    requires block { block < 2 ^ 17 }
    requires seat { seat < 8 }
    requires code { op.code < 16 }
    requires key { op.key < 1048576 }
    ensures { stores.new.items ≡ call_stores block seat number op }
{
    stores.clear();
    stores.push((block_place(block, OWNER_FIELD), pack_owner(seat, number)));
    let op_word = OpWord {
        code: op.code,
        number,
        key: op.key,
    };
    stores.push((block_place(block, OP_FIELD), op_word.pack()));
    let value_word = ValueWord {
        number,
        value: op.value,
    };
    stores.push((block_place(block, VALUE_FIELD), value_word.pack()));
}

/// The same with the length of the list.
pub fn store_notes(stores: &mut Stores, block: u32, seat: u32, number: u16, op: Op, length: u32)
    requires block { block < 2 ^ 17 }
    requires seat { seat < 8 }
    requires code { op.code < 16 }
    requires key { op.key < 1048576 }
    ensures { stores.new.items ≡ note_stores block seat number op length }
{
    store_call(stores, block, seat, number, op);
    stores.push((block_place(block, LENGTH_FIELD), u64::from(length)));
}

/// Puts the three words of entry j last, where there is one.
pub fn store_entry(stores: &mut Stores, block: u32, j: u32, list: &List)
    requires block { block < 2 ^ 17 }
    requires entry { j < 2 }
    requires room { length stores.old.items + 3 ≤ 30 }
    ensures { stores.new.items ≡ stores.old.items ++ entry_stores block j (slice_get list.now.items j) }
{
    let Some(entry) = list.get(j as usize) else {
        return;
    };
    let field = ENTRY_FIELD + ENTRY_FIELDS * j;
    stores.push((block_place(block, field), u64::from(entry.target)));
    stores.push((block_place(block, field + 1), entry.from));
    stores.push((block_place(block, field + 2), entry.to));
}
