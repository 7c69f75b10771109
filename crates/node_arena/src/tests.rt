//! The opening words with ample memory, and worked places.
use crate::opening::opening_words;
use crate::places::{block_place, node_place, op_place, record_place, reference_to, value_place};
use lin_report::Client;
use std::test::Fail;

#[test]
fn a_queue_opens_with_its_dummy_node(rt: HostRuntime) -> Result<(), Fail> {
    let words = opening_words(rt.alloc(), 1, Client::Queue)?;
    assert_eq!(rt; words.len(), 96);
    for (place, word) in words.iter().enumerate() {
        assert_eq!(rt;
            *word,
            if place == 20 || place == 21 { 1 } else { 0 },
            "at {place}"
        );
    }
    Ok(())
}

#[test]
fn a_list_opens_with_zeros(rt: HostRuntime) -> Result<(), Fail> {
    let words = opening_words(rt.alloc(), 1, Client::List)?;
    assert_eq!(rt; words.len(), 96);
    assert!(rt; words.iter().all(|word| *word == 0));
    Ok(())
}

#[test]
fn a_tree_opens_with_its_root_and_two_leaves(rt: HostRuntime) -> Result<(), Fail> {
    let words = opening_words(rt.alloc(), 1, Client::Tree)?;
    assert_eq!(rt; words.len(), 96);
    let opened = [
        (node_place(reference_to(0, 1), 0), 1_048_576),
        (node_place(reference_to(0, 2), 0), 1_048_577),
        (node_place(reference_to(0, 3), 0), 1_048_577),
        (node_place(reference_to(0, 2), 2), 1),
        (node_place(reference_to(0, 2), 3), 3),
    ];
    for (place, word) in words.iter().enumerate() {
        let expected = match opened.iter().find(|known| known.0 as usize == place) {
            Some(known) => known.1,
            None => 0,
        };
        assert_eq!(rt; *word, expected, "at {place}");
    }
    Ok(())
}

#[test]
fn worked_places(rt: HostRuntime) {
    for (place, worked) in [
        (op_place(0), 4),
        (op_place(7), 11),
        (record_place(0), 12),
        (record_place(7), 19),
        (value_place(0), 24),
        (value_place(7), 31),
        (block_place(0, 0), 32),
        (block_place(1, 0), 64),
        (block_place(1, 11), 75),
        (node_place(reference_to(0, 1), 2), 46),
        (node_place(reference_to(1, 1), 1), 77),
        (node_place(reference_to(0, 2), 0), 49),
        (node_place(reference_to(0, 3), 0), 54),
        (node_place(0, 0), 44),
    ] {
        assert_eq!(rt; place, worked);
    }
}
