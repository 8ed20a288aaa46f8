//! The queue: draws by weight, and each fifth by number.

use std::alloc::{AllocError, Global};
use std::test::Fail;
use uc_queue::Passive;

// The numbers 0 to 4 with these weights.
fn five(alloc: Global, weights: [u32; 5]) -> Result<Passive, AllocError> {
    let mut queue = Passive::new(alloc)?;
    queue.add(alloc, weights[0], 0)?;
    queue.add(alloc, weights[1], 1)?;
    queue.add(alloc, weights[2], 2)?;
    queue.add(alloc, weights[3], 3)?;
    queue.add(alloc, weights[4], 4)?;
    Ok(queue)
}

// The numbers 0 to 5 with these weights, which come in another order.
fn six(alloc: Global, weights: [u32; 6]) -> Result<Passive, AllocError> {
    let mut queue = Passive::new(alloc)?;
    queue.reserve(alloc, 3)?;
    queue.add(alloc, weights[0], 0)?;
    queue.add(alloc, weights[4], 4)?;
    queue.add(alloc, weights[3], 3)?;
    queue.add(alloc, weights[1], 1)?;
    queue.add(alloc, weights[5], 5)?;
    queue.add(alloc, weights[2], 2)?;
    Ok(queue)
}

// Whether the next draws give these numbers.
fn draws(queue: &mut Passive, numbers: &[u64]) -> bool {
    for number in numbers {
        if queue.draw() != Some(*number) {
            return false;
        }
    }
    true
}

#[test]
fn nothing_waits_at_first(rt: HostRuntime) -> Result<(), Fail> {
    let queue = Passive::new(rt.alloc())?;
    assert!(rt; queue.is_empty() && queue.peek().is_none());
    Ok(())
}

// Six entries, two of one weight: the fifth draw goes by number, and what is put back is drawn again.
#[test]
fn each_fifth_by_number(rt: HostRuntime) -> Result<(), Fail> {
    let mut queue = six(rt.alloc(), [9, 8, 7, 5, 5, 3])?;
    assert!(rt; queue.len() == 6 && draws(&mut queue, &[5, 3, 4, 2]));
    assert!(rt; queue.peek() == Some(0));
    if let Some(number) = queue.draw() {
        queue.back(9, number);
    }
    assert!(rt; draws(&mut queue, &[1, 0]) && queue.draw().is_none());
    Ok(())
}

// Five entries: four draws by weight, and the fifth takes what is left.
#[test]
fn by_weight_then_number(rt: HostRuntime) -> Result<(), Fail> {
    let mut queue = five(rt.alloc(), [3, 1, 2, 4, 5])?;
    assert!(rt; draws(&mut queue, &[1, 2, 0, 3, 4]) && queue.draw().is_none());
    Ok(())
}

// Six entries, the heaviest with the least number: the fifth draw takes it.
#[test]
fn the_heaviest_is_fifth(rt: HostRuntime) -> Result<(), Fail> {
    let mut queue = six(rt.alloc(), [9, 1, 2, 4, 5, 6])?;
    assert!(rt; draws(&mut queue, &[1, 2, 3, 4, 0, 5]) && queue.draw().is_none());
    Ok(())
}
