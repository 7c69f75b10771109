//! Runs of the list: a node that is deleted is marked, and then one exchange leads past it.
ghost use Rattle.std.specs.Prelude.{◌≡◌, IfSome, length};
ghost use Rattle.lin_report.specs.CommandFiles.{IsCommandFile};
ghost use Rattle.lin_report.specs.Object.{object_of};
ghost use Rattle.lin_report.specs.declared.calls.Client.TheVariants.{List};

use crate::runs::drive_seats;
use event_core::Core;
use fast_slow_engine::Setup;
use harris_list::HarrisList;
use lin_report::{Client, Op, Reply};
use script_reader::read_script;
use std::alloc::Global;

/// The word with which the list begins.
const BEGINNING: usize = 46;

/// The words that lead on from the first nodes of blocks 1 and 2.
const AFTER_FIRST: usize = 78;

const AFTER_SECOND: usize = 110;

/// The references to the first nodes of blocks 1 and 2.
const FIRST_NODE: u64 = 5;

const SECOND_NODE: u64 = 9;

/// A word of the list that was exchanged so often and leads to a node, 0 for none.
fn leads(version: u64, node: u64) -> u64 {
    version << 25 | node << 1
}

/// Such a word that is marked: the node that it leads on from is deleted.
fn marked(version: u64, node: u64) -> u64 {
    leads(version, node) | 1
}

/// The commands of a list that a text says.
fn list_file(alloc: Global, text: &[u8]) -> Option<Vec<Op>>
    ensures commands { IfSome result (λ ops. IsCommandFile (object_of List) ops.items) }
{
    let Ok(commands) = read_script(alloc, text, Client::List) else {
        return None;
    };
    Some(commands)
}

/// The run of three seats: the first adds 1 and 2 and deletes 1, the second deletes 2, the third asks for 2.
fn three_seats(alloc: Global) -> Option<Core<HarrisList>>
    ensures seats { IfSome result (λ core. length core.files ≡ 3) }
{
    let first = list_file(alloc, b"add 1\nadd 2\ndel 1\n")?;
    let second = list_file(alloc, b"del 2\n")?;
    let third = list_file(alloc, b"has 2\n")?;
    let files = vec![in alloc; first, second, third].ok()?;
    let setup = Setup {
        seats: 3,
        cap: 8,
        limit: 3,
    };
    Core::new(alloc, setup, files).ok()
}

/// The word at a place, 0 where there is none.
fn word(core: &Core<HarrisList>, place: usize) -> u64 {
    core.words().get(place).copied().unwrap_or(0)
}

/// The seat and the reply of each call, in the order of their returns.
fn told(core: &Core<HarrisList>, place: usize) -> Option<(u32, Reply)> {
    let line = core.receipts().get(place)?;
    Some((line.seat, line.reply))
}

#[test]
fn keys_stand_in_order_and_a_deleted_one_is_marked_first(rt: HostRuntime) {
    let Some(mut core) = three_seats(rt.alloc()) else {
        panic!(rt; "no memory")
    };
    assert!(rt; drive_seats(rt.alloc(), &mut core, 3, b"0 end\n0 end\n"));
    assert_eq!(rt; word(&core, BEGINNING), leads(1, FIRST_NODE));
    assert_eq!(rt; word(&core, AFTER_FIRST), leads(1, SECOND_NODE));
    assert_eq!(rt; word(&core, AFTER_SECOND), 0);
    assert!(rt; drive_seats(rt.alloc(), &mut core, 3, b"0 exchange\n0 exchange\n"));
    assert_eq!(rt; word(&core, AFTER_FIRST), marked(2, SECOND_NODE));
    assert_eq!(rt; word(&core, BEGINNING), leads(1, FIRST_NODE));
    assert!(rt; drive_seats(rt.alloc(), &mut core, 3, b"0 end\n"));
    assert_eq!(rt; word(&core, BEGINNING), leads(2, SECOND_NODE));
    assert_eq!(rt; told(&core, 2), Some((0, Reply::Yes)));
}

#[test]
fn two_marked_nodes_are_passed_by_one_exchange(rt: HostRuntime) {
    let Some(mut core) = three_seats(rt.alloc()) else {
        panic!(rt; "no memory")
    };
    let both_marked = b"0 end\n0 end\n0 exchange\n1 exchange\n0 exchange\n1 exchange\n";
    assert!(rt; drive_seats(rt.alloc(), &mut core, 3, both_marked));
    assert_eq!(rt; word(&core, AFTER_FIRST), marked(2, SECOND_NODE));
    assert_eq!(rt; word(&core, AFTER_SECOND), marked(1, 0));
    assert_eq!(rt; word(&core, BEGINNING), leads(1, FIRST_NODE));
    assert!(rt; drive_seats(rt.alloc(), &mut core, 3, b"2 end\n"));
    assert_eq!(rt; word(&core, BEGINNING), leads(2, 0));
    assert_eq!(rt; told(&core, 2), Some((2, Reply::No)));
    assert!(rt; drive_seats(rt.alloc(), &mut core, 3, b"0 end\n1 end\n"));
    assert_eq!(rt; told(&core, 3), Some((0, Reply::Yes)));
    assert_eq!(rt; told(&core, 4), Some((1, Reply::Yes)));
}
