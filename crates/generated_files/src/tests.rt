//! Draws and files of known seeds.
use crate::files::generate;
use crate::numbers::Numbers;
use lin_report::calls::{ADD, DEL, GET, HAS, PUT, REM, SET, TAKE};
use lin_report::{Client, Op};

/// A command with its numbers.
fn op(code: u8, key: u32, value: u32) -> Op {
    Op { code, key, value }
}

#[test]
fn the_first_draws_of_seed_0(rt: HostRuntime) {
    let mut numbers = Numbers::of_seed(0);
    assert_eq!(rt; numbers.draw(), 167_951_807);
    assert_eq!(rt; numbers.draw(), 218_396_424);
    assert_eq!(rt; numbers.draw(), 1_299_921_937);
}

#[test]
fn two_files_of_a_queue(rt: HostRuntime) {
    let Ok(files) = generate(rt.alloc(), Client::Queue, 0, 2, 1) else {
        panic!(rt; "no memory")
    };
    assert_eq!(rt; files.len(), 2);
    assert_eq!(rt; files[0].as_slice(), [op(TAKE, 0, 0)].as_slice());
    assert_eq!(rt; files[1].as_slice(), [op(PUT, 0, 697_965)].as_slice());
}

#[test]
fn two_files_of_a_tree_and_of_buckets(rt: HostRuntime) {
    let Ok(trees) = generate(rt.alloc(), Client::Tree, 0, 2, 3) else {
        panic!(rt; "no memory")
    };
    assert_eq!(rt;
        trees[0].as_slice(),
        [op(GET, 8, 0), op(REM, 45, 0), op(GET, 7, 0)].as_slice()
    );
    assert_eq!(rt;
        trees[1].as_slice(),
        [
            op(SET, 15, 960_210),
            op(SET, 61, 944_436),
            op(SET, 9, 203_282)
        ]
        .as_slice()
    );
    let Ok(buckets) = generate(rt.alloc(), Client::Buckets, 42, 2, 3) else {
        panic!(rt; "no memory")
    };
    assert_eq!(rt;
        buckets[0].as_slice(),
        [op(DEL, 18, 0), op(ADD, 22, 0), op(HAS, 22, 0)].as_slice()
    );
    assert_eq!(rt;
        buckets[1].as_slice(),
        [op(HAS, 8, 0), op(ADD, 50, 0), op(DEL, 2, 0)].as_slice()
    );
}

#[test]
fn one_file_of_a_list_and_of_a_tree(rt: HostRuntime) {
    let Ok(lists) = generate(rt.alloc(), Client::List, 42, 1, 3) else {
        panic!(rt; "no memory")
    };
    assert_eq!(rt;
        lists[0].as_slice(),
        [op(DEL, 18, 0), op(ADD, 22, 0), op(HAS, 22, 0)].as_slice()
    );
    let Ok(trees) = generate(rt.alloc(), Client::Tree, 42, 1, 3) else {
        panic!(rt; "no memory")
    };
    assert_eq!(rt;
        trees[0].as_slice(),
        [op(REM, 18, 0), op(SET, 22, 751_628), op(GET, 22, 0)].as_slice()
    );
}
