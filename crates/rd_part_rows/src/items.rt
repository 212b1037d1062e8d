//! Queues alone: items at the front, at the front and left there, and in the place of another.

ghost use Rattle.std.specs.Prelude.{◌≡◌, length};

use crate::asserts::assert_same;
use rd_queue::queue::{Empty, Full, Queue};
use std::process::Abort;
use std::test::Fail;

// There is space for the item. (What becomes of the queue is seen by what it shows.)
fn put_back(rt: &impl Abort, queue: &mut Queue, item: &[u8])
    requires { length item.now ≡ queue.old.item_size }
    ensures { queue.new.item_size ≡ queue.old.item_size }
{
    assert!(rt; queue.put_back(item).is_ok());
}

fn put_front(rt: &impl Abort, queue: &mut Queue, item: &[u8])
    requires { length item.now ≡ queue.old.item_size }
    ensures { queue.new.item_size ≡ queue.old.item_size }
{
    assert!(rt; queue.put_front(item).is_ok());
}

// The queue has so many items, of which this is the first and that the last.
fn has(rt: &impl Abort, queue: &Queue, count: usize, first: &[u8], last: &[u8]) {
    assert_same(rt, queue.count(), count);
    assert!(rt; queue.count() > 0);
    assert_same(rt, queue.first(), first);
    assert_same(rt, queue.last(), last);
}

// An empty queue refuses, and the first of two items is shown and left there.
#[test]
fn peeks(rt: HostRuntime) -> Result<(), Fail> {
    let alloc = rt.alloc();
    let mut queue = Queue::new(alloc, 2, 1, 1, 0)?;
    assert!(rt; matches!(queue.peek(), Err(Empty)));
    put_back(&rt, &mut queue, b"a");
    put_back(&rt, &mut queue, b"b");
    let before = queue.copy(alloc)?;
    assert_same(&rt, queue.peek()?, b"a".as_slice());
    assert!(rt; queue.same(&before));
    Ok(())
}

// A queue with space gets an item before the others, and a full one refuses and stays as it was.
#[test]
fn puts_at_the_front(rt: HostRuntime) -> Result<(), Fail> {
    let alloc = rt.alloc();
    let mut queue = Queue::new(alloc, 2, 3, 1, 0)?;
    put_front(&rt, &mut queue, b"abc");
    has(&rt, &queue, 1, b"abc", b"abc");
    put_front(&rt, &mut queue, b"def");
    has(&rt, &queue, 2, b"def", b"abc");
    let full = queue.copy(alloc)?;
    assert!(rt; matches!(queue.put_front(b"ghi"), Err(Full)));
    assert!(rt; queue.same(&full));
    Ok(())
}

// An empty queue and a full one have the item then, and no other.
#[test]
fn overwrites(rt: HostRuntime) -> Result<(), Fail> {
    let mut queue = Queue::new(rt.alloc(), 1, 2, 1, 0)?;
    queue.overwrite(b"ab");
    has(&rt, &queue, 1, b"ab", b"ab");
    assert_same(&rt, queue.spaces(), 0);
    queue.overwrite(b"cd");
    has(&rt, &queue, 1, b"cd", b"cd");
    assert_same(&rt, queue.spaces(), 0);
    Ok(())
}

// The item that was put at the back comes out again, and the queue is as before.
#[test]
fn takes_back_what_was_put(rt: HostRuntime) -> Result<(), Fail> {
    let alloc = rt.alloc();
    let mut queue = Queue::new(alloc, 2, 2, 1, 0)?;
    put_back(&rt, &mut queue, b"ab");
    let before = queue.copy(alloc)?;
    put_back(&rt, &mut queue, b"cd");
    assert!(&rt; queue.count() > 0);
    assert_same(&rt, queue.unput().as_slice(), b"cd".as_slice());
    assert!(&rt; queue.same(&before));
    Ok(())
}
