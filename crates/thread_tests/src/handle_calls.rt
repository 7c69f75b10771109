//! Handles of each structure, used call by call by one thread.
ghost use Rattle.std.specs.Prelude.{◌≡◌, IfSome};

use normal_traits::Normalized;
use std::alloc::Global;
use std::sync::Wait;
use std::test::Fail;
use wait_free::{
    Handle, HashSetHandle, Key, MapHandle, QueueHandle, Refused, SetHandle, Shared, SharedQueue,
    Spent, StackHandle, open,
};

/// A structure of one seat, whose calls stay on the fast path, with its handle.
fn alone<C: Normalized>(alloc: Global, cap: u32) -> Option<(Shared<C>, Handle<C>)>
    ensures table { IfSome result (λ r. r.1.table ≡ r.0.table) }
{
    let Ok((shared, mut handles)) = open(alloc, 1, cap, 3) else {
        return None;
    };
    let handle = handles.pop()?;
    Some((shared, handle))
}

/// A structure of two seats, whose calls are announced at once, with both handles.
fn together<C: Normalized>(alloc: Global, cap: u32) -> Option<(Shared<C>, Handle<C>, Handle<C>)>
    ensures one { IfSome result (λ r. r.1.table ≡ r.0.table) }
    ensures other { IfSome result (λ r. r.2.table ≡ r.0.table) }
{
    let Ok((shared, mut handles)) = open(alloc, 2, cap, 0) else {
        return None;
    };
    let second = handles.pop()?;
    let first = handles.pop()?;
    Some((shared, first, second))
}

#[test]
fn a_queue_is_full_where_no_block_is_left(rt: HostRuntime) -> Result<(), Fail> {
    let Some((shared, handle)) = alone(rt.alloc(), 1) else {
        panic!(rt; "no memory")
    };
    let mut queue = QueueHandle { handle };
    assert_eq!(rt; queue.take(&rt, &shared), Ok(None));
    assert_eq!(rt; queue.put(&rt, &shared, 7), Ok(()));
    assert_eq!(rt; queue.put(&rt, &shared, 8), Err(Refused::Full));
    assert_eq!(rt; queue.peek(&rt, &shared), Ok(Some(7)));
    assert_eq!(rt; queue.take(&rt, &shared), Ok(Some(7)));
    assert_eq!(rt; queue.peek(&rt, &shared), Ok(None));
    Ok(())
}

#[test]
fn a_value_goes_from_one_handle_to_another(rt: HostRuntime) -> Result<(), Fail> {
    let Some((shared, first, second)) = together(rt.alloc(), 4) else {
        panic!(rt; "no memory")
    };
    let mut giver = QueueHandle { handle: second };
    let mut taker = QueueHandle { handle: first };
    assert_eq!(rt; giver.put(&rt, &shared, 7), Ok(()));
    assert_eq!(rt; giver.put(&rt, &shared, 8), Ok(()));
    assert_eq!(rt; taker.take(&rt, &shared), Ok(Some(7)));
    // With LIMIT 0 each call is announced, and an announced take needs a block: these four calls had one each.
    assert_eq!(rt; giver.take(&rt, &shared), Ok(Some(8)));
    assert_eq!(rt; taker.take(&rt, &shared), Ok(None));
    assert_eq!(rt; giver.put(&rt, &shared, 9), Err(Refused::Full));
    Ok(())
}

#[test]
fn the_last_value_of_a_stack_goes_first(rt: HostRuntime) -> Result<(), Fail> {
    let Some((shared, handle)) = alone(rt.alloc(), 2) else {
        panic!(rt; "no memory")
    };
    let mut stack = StackHandle { handle };
    assert_eq!(rt; stack.take(&rt, &shared), Ok(None));
    assert_eq!(rt; stack.put(&rt, &shared, 7), Ok(()));
    assert_eq!(rt; stack.put(&rt, &shared, 8), Ok(()));
    assert_eq!(rt; stack.put(&rt, &shared, 9), Err(Refused::Full));
    assert_eq!(rt; stack.take(&rt, &shared), Ok(Some(8)));
    assert_eq!(rt; stack.take(&rt, &shared), Ok(Some(7)));
    assert_eq!(rt; stack.take(&rt, &shared), Ok(None));
    Ok(())
}

#[test]
fn a_value_goes_over_a_stack_from_one_handle_to_another(rt: HostRuntime) -> Result<(), Fail> {
    let Some((shared, first, second)) = together(rt.alloc(), 4) else {
        panic!(rt; "no memory")
    };
    let mut giver = StackHandle { handle: second };
    let mut taker = StackHandle { handle: first };
    assert_eq!(rt; giver.put(&rt, &shared, 7), Ok(()));
    assert_eq!(rt; giver.put(&rt, &shared, 8), Ok(()));
    assert_eq!(rt; taker.take(&rt, &shared), Ok(Some(8)));
    assert_eq!(rt; giver.take(&rt, &shared), Ok(Some(7)));
    Ok(())
}

#[test]
fn a_set_tells_its_least_key(rt: HostRuntime) -> Result<(), Fail> {
    let Some((shared, handle)) = alone(rt.alloc(), 4) else {
        panic!(rt; "no memory")
    };
    let mut set = SetHandle { handle };
    let (five, nine) = (Key::of(5), Key::of(1_048_575));
    assert_eq!(rt; set.least(&rt, &shared), Ok(None));
    assert_eq!(rt; set.add(&rt, &shared, nine), Ok(true));
    assert_eq!(rt; set.add(&rt, &shared, five), Ok(true));
    assert_eq!(rt; set.add(&rt, &shared, five), Ok(false));
    assert_eq!(rt; set.least(&rt, &shared), Ok(Some(five)));
    assert_eq!(rt; set.remove(&rt, &shared, five), Ok(true));
    assert_eq!(rt; set.remove(&rt, &shared, five), Ok(false));
    assert_eq!(rt; set.contains(&rt, &shared, five), Ok(false));
    assert_eq!(rt; set.contains(&rt, &shared, nine), Ok(true));
    assert_eq!(rt; set.least(&rt, &shared), Ok(Some(nine)));
    Ok(())
}

#[test]
fn a_hash_set_keeps_keys_of_one_list_apart(rt: HostRuntime) -> Result<(), Fail> {
    let Some((shared, handle)) = alone(rt.alloc(), 2) else {
        panic!(rt; "no memory")
    };
    let mut set = HashSetHandle { handle };
    let (one, other, third) = (Key::of(5), Key::of(37), Key::of(6));
    assert_eq!(rt; set.add(&rt, &shared, one), Ok(true));
    assert_eq!(rt; set.contains(&rt, &shared, other), Ok(false));
    assert_eq!(rt; set.add(&rt, &shared, other), Ok(true));
    assert_eq!(rt; set.remove(&rt, &shared, one), Ok(true));
    assert_eq!(rt; set.contains(&rt, &shared, other), Ok(true));
    assert_eq!(rt; set.contains(&rt, &shared, one), Ok(false));
    assert_eq!(rt; set.add(&rt, &shared, third), Err(Refused::Full));
    Ok(())
}

#[test]
fn a_key_of_a_map_keeps_its_value(rt: HostRuntime) -> Result<(), Fail> {
    let Some((shared, handle)) = alone(rt.alloc(), 8) else {
        panic!(rt; "no memory")
    };
    let mut map = MapHandle { handle };
    let key = Key::of(0);
    assert_eq!(rt; map.get(&rt, &shared, key), Ok(None));
    assert_eq!(rt; map.set(&rt, &shared, key, 4_294_967_295), Ok(true));
    assert_eq!(rt; map.set(&rt, &shared, key, 7), Ok(false));
    assert_eq!(rt; map.get(&rt, &shared, key), Ok(Some(4_294_967_295)));
    assert_eq!(rt; map.remove(&rt, &shared, key), Ok(true));
    assert_eq!(rt; map.remove(&rt, &shared, key), Ok(false));
    assert_eq!(rt; map.get(&rt, &shared, key), Ok(None));
    Ok(())
}

#[test]
fn keys_are_below_their_limit(rt: HostRuntime) -> Result<(), Fail> {
    assert_eq!(rt; Key::new(1_048_575).map(|key| key.get()), Some(1_048_575));
    assert_eq!(rt; Key::new(1_048_576), None);
    Ok(())
}

/// Makes so many calls that look at the first value. Whether each finds the queue empty.
fn look<R: Wait>(rt: &R, shared: &SharedQueue, queue: &mut QueueHandle, count: u32) -> bool
    requires table { queue.old.handle.table ≡ shared.now.table }
    ensures table { queue.new.handle.table ≡ shared.now.table }
{
    for _ in 0..count {
        if queue.peek(rt, shared) != Ok(None) {
            return false;
        }
    }
    true
}

#[test]
fn a_handle_is_spent_after_as_many_calls_as_its_seat_can_number(
    rt: HostRuntime,
) -> Result<(), Fail> {
    let Some((shared, handle)) = alone(rt.alloc(), 1) else {
        panic!(rt; "no memory")
    };
    let mut queue = QueueHandle { handle };
    assert!(rt; look(&rt, &shared, &mut queue, 65_535));
    assert_eq!(rt; queue.peek(&rt, &shared), Err(Spent));
    assert_eq!(rt; queue.put(&rt, &shared, 7), Err(Refused::Spent));
    Ok(())
}
