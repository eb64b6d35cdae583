// A ring on examples.
use crate::{Ring, Step};
use std::test::Fail;

// Node numbers and steps go through the same ring.
#[test]
fn takes_any_kind(rt: HostRuntime) -> Result<(), Fail> {
    let mut numbers = [0u16; 2];
    let mut nodes = Ring::new(&mut numbers);
    assert!(rt; nodes.push(7).is_ok());
    assert_eq!(rt; nodes.pop(), Some(7));
    let along = Step {
        node: 4,
        before: 3,
        forwards: true,
    };
    let back = Step {
        node: 3,
        before: 5,
        forwards: false,
    };
    let mut places = [back; 2];
    let mut steps = Ring::new(&mut places);
    assert!(rt; steps.push(along).is_ok() && steps.push(back).is_ok());
    let Some(first) = steps.pop() else {
        return Err(Fail::new("no step"));
    };
    assert!(rt; first.node == 4 && first.before == 3 && first.forwards);
    assert!(rt; steps.len() == 1 && !steps.is_empty());
    Ok(())
}

// A full ring refuses an item, and keeps what it has.
#[test]
fn refuses_when_full(rt: HostRuntime) {
    let mut numbers = [0u16; 2];
    let mut nodes = Ring::new(&mut numbers);
    assert!(rt; nodes.push(1).is_ok() && nodes.push(2).is_ok());
    assert!(rt; nodes.push(3) == Err(3));
    assert_eq!(rt; nodes.len(), 2);
    assert_eq!(rt; nodes.pop(), Some(1));
    assert_eq!(rt; nodes.pop(), Some(2));
    assert_eq!(rt; nodes.pop(), None);
    assert!(rt; nodes.is_empty());
}

// The order is kept past the last slot.
#[test]
fn keeps_order_round_the_end(rt: HostRuntime) {
    let mut numbers = [0u16; 3];
    let mut nodes = Ring::new(&mut numbers);
    for i in 0..20 {
        assert!(rt; nodes.push(i).is_ok() && nodes.push(i + 100).is_ok());
        assert_eq!(rt; nodes.pop(), Some(i));
        assert_eq!(rt; nodes.pop(), Some(i + 100));
    }
}
