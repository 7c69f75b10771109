//! Worlds, step by step.
ghost use Rattle.std.specs.Prelude.{◌≡◌, IfOk, replicate};

use super::*;
use cas_executor::Execution;
use normal_traits::{Entry, List};
use std::alloc::{AllocError, Global};
use std::test::Fail;

#[test]
fn two_helpers_of_one_entry(rt: HostRuntime) -> Result<(), Fail> {
    let mut world = one_entry(rt.alloc())?;
    assert_eq!(rt; make_steps(&mut world, 0, 2), (2, Execution::Running));
    assert_eq!(rt; words_at(&world), (50_331_653, 0, 0));
    assert_eq!(rt; make_steps(&mut world, 1, 9), (6, Execution::Stopped(1)));
    assert_eq!(rt; make_steps(&mut world, 0, 9), (4, Execution::Stopped(1)));
    assert_eq!(rt; words_at(&world), (33_554_437, 0, 1));
    Ok(())
}

#[test]
fn a_change_comes_first(rt: HostRuntime) -> Result<(), Fail> {
    let mut world = one_entry(rt.alloc())?;
    assert!(rt; make_change(&mut world, 46, 5));
    assert_eq!(rt; make_steps(&mut world, 0, 9), (5, Execution::Stopped(0)));
    assert_eq!(rt; words_at(&world), (33_554_437, 0, 2));
    Ok(())
}

#[test]
fn a_second_entry_fails_by_a_change(rt: HostRuntime) -> Result<(), Fail> {
    let mut world = two_entries(rt.alloc())?;
    assert_eq!(rt; make_steps(&mut world, 0, 7), (7, Execution::Running));
    assert!(rt; !make_change(&mut world, 45, 7));
    assert!(rt; make_change(&mut world, 78, 7));
    assert_eq!(rt; make_steps(&mut world, 0, 9), (4, Execution::Stopped(1)));
    assert_eq!(rt; make_steps(&mut world, 1, 9), (3, Execution::Stopped(1)));
    assert!(rt; !world.can_step(1));
    assert_eq!(rt; words_at(&world), (33_554_437, 33_554_439, 1));
    Ok(())
}

/// Block 1 with one entry and two helpers, over words of 0.
fn one_entry(alloc: Global) -> Result<ExecWorld, AllocError> {
    let mut list = List::new();
    list.push(entry(46));
    Ok(ExecWorld::new(2, 1, list, zeros(alloc)?))
}

/// The same with a second entry.
fn two_entries(alloc: Global) -> Result<ExecWorld, AllocError> {
    let mut list = List::new();
    list.push(entry(46));
    list.push(entry(78));
    Ok(ExecWorld::new(2, 1, list, zeros(alloc)?))
}

/// 96 words of 0.
fn zeros(alloc: Global) -> Result<Vec<u64>, AllocError>
    ensures { IfOk result (λ words. words.items ≡ replicate 96 0) }
{
    [0; 96].to_vec(alloc)
}

/// An entry that changes a word of 0 to the value 5.
fn entry(target: u32) -> Entry
    ensures { result ≡ record { target = target; from = 0; to = 33554437 } }
{
    Entry {
        target,
        from: 0,
        to: 33_554_437,
    }
}

/// Makes steps of a helper, up to so many or until it stops: how many, and what came of the last one.
fn make_steps(world: &mut ExecWorld, helper: u32, steps: u32) -> (u32, Execution) {
    for made in 1..=steps {
        if !world.can_step(helper) {
            return (0, Execution::Running);
        }
        let execution = world.step(helper);
        if made == steps || execution != Execution::Running {
            return (made, execution);
        }
    }
    (0, Execution::Running)
}

/// Changes a word, where it can be changed.
fn make_change(world: &mut ExecWorld, at: u32, value: u32) -> bool {
    let can = world.can_change(at, value);
    if can {
        world.foreign(at, value);
    }
    can
}

/// The words at both targets, and the state of the first entry.
fn words_at(world: &ExecWorld) -> (u64, u64, u64) {
    match (
        world.words().get(46),
        world.words().get(78),
        world.words().get(73),
    ) {
        (Some(first), Some(second), Some(state)) => (*first, *second, *state),
        _ => (0, 0, 0),
    }
}
