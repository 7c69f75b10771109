//! Runs of the stack: the last value in is the first out, on both paths and where a put loses its exchange.
ghost use Rattle.std.specs.Prelude.{◌≡◌, ◌≤◌, IfSome, length};

use crate::runs::drive_seats;
use event_core::Core;
use fast_slow_engine::Setup;
use lin_report::calls::{PUT, TAKE};
use lin_report::{Op, Path, Reply};
use std::alloc::Global;
use treiber_stack::TreiberStack;

const PUT_7: Op = Op {
    code: PUT,
    key: 0,
    value: 7,
};

const PUT_8: Op = Op {
    code: PUT,
    key: 0,
    value: 8,
};

const ONE_TAKE: Op = Op {
    code: TAKE,
    key: 0,
    value: 0,
};

/// The run of two seats, each of which puts a value and takes two, with this limit.
fn two_seats(alloc: Global, limit: u32) -> Option<Core<TreiberStack>>
    requires few { limit ≤ 255 }
    ensures seats { IfSome result (λ core. length core.files ≡ 2) }
{
    let first = vec![in alloc; PUT_7, ONE_TAKE, ONE_TAKE].ok()?;
    let second = vec![in alloc; PUT_8, ONE_TAKE, ONE_TAKE].ok()?;
    let files = vec![in alloc; first, second].ok()?;
    let setup = Setup {
        seats: 2,
        cap: 8,
        limit,
    };
    Core::new(alloc, setup, files).ok()
}

/// The seat and the reply of each call, in the order of their returns.
fn told(core: &Core<TreiberStack>, place: usize) -> Option<(u32, Reply, Path)> {
    let line = core.receipts().get(place)?;
    Some((line.seat, line.reply, line.path))
}

#[test]
fn the_last_value_in_is_the_first_out(rt: HostRuntime) {
    let Some(mut core) = two_seats(rt.alloc(), 3) else {
        panic!(rt; "no memory")
    };
    let schedule = b"0 end\n1 end\n0 end\n1 end\n1 end\n";
    assert!(rt; drive_seats(rt.alloc(), &mut core, 2, schedule));
    assert_eq!(rt; told(&core, 0), Some((0, Reply::Done, Path::Fast)));
    assert_eq!(rt; told(&core, 1), Some((1, Reply::Done, Path::Fast)));
    assert_eq!(rt; told(&core, 2), Some((0, Reply::Value(8), Path::Fast)));
    assert_eq!(rt; told(&core, 3), Some((1, Reply::Value(7), Path::Fast)));
    assert_eq!(rt; told(&core, 4), Some((1, Reply::Empty, Path::Fast)));
}

#[test]
fn published_calls_are_told_the_same(rt: HostRuntime) {
    let Some(mut core) = two_seats(rt.alloc(), 0) else {
        panic!(rt; "no memory")
    };
    let schedule = b"0 end\n1 end\n0 end\n1 end\n1 end\n";
    assert!(rt; drive_seats(rt.alloc(), &mut core, 2, schedule));
    assert_eq!(rt; told(&core, 1), Some((1, Reply::Done, Path::Slow)));
    assert_eq!(rt; told(&core, 2), Some((0, Reply::Value(8), Path::Slow)));
    assert_eq!(rt; told(&core, 3), Some((1, Reply::Value(7), Path::Slow)));
    assert_eq!(rt; told(&core, 4), Some((1, Reply::Empty, Path::Slow)));
}

#[test]
fn a_put_that_loses_its_exchange_goes_on_top(rt: HostRuntime) {
    let Some(mut core) = two_seats(rt.alloc(), 3) else {
        panic!(rt; "no memory")
    };
    let schedule = b"0 exchange\n1 end\n0 end\n1 end\n0 end\n";
    assert!(rt; drive_seats(rt.alloc(), &mut core, 2, schedule));
    assert_eq!(rt; told(&core, 0), Some((1, Reply::Done, Path::Fast)));
    assert_eq!(rt; told(&core, 1), Some((0, Reply::Done, Path::Fast)));
    assert_eq!(rt; told(&core, 2), Some((1, Reply::Value(7), Path::Fast)));
    assert_eq!(rt; told(&core, 3), Some((0, Reply::Value(8), Path::Fast)));
}
