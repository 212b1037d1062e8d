//! Rings of bytes alone: bytes put in and taken out at both ends, and around the end of the memory.

use crate::asserts::assert_same;
use rd_ring::ring::ByteRing;
use std::process::Abort;
use std::test::Fail;

// The ring has these bytes.
fn has(rt: &impl Abort, ring: &ByteRing, bytes: &[u8]) {
    let (front, back) = ring.halves();
    assert_same(rt, ring.len(), bytes.len());
    assert!(rt; front.len() <= bytes.len());
    let (first, second) = bytes.split_at(front.len());
    assert_same(rt, front, first);
    assert_same(rt, back, second);
}

// Four bytes at the most: three in, the first two out, two more in at the back, around the end of
// the memory, and one at the front; and then all but the first out again.
#[test]
fn ring_at_both_ends(rt: HostRuntime) -> Result<(), Fail> {
    let mut ring = ByteRing::new(rt.alloc(), 4)?;
    ring.push_back(&[1, 2, 3]);
    let mut taken = [0; 2];
    ring.pop_front(&mut taken);
    assert_same(&rt, taken.as_slice(), [1, 2].as_slice());
    ring.push_back(&[4, 5]);
    ring.push_front(&[2]);
    has(&rt, &ring, &[2, 3, 4, 5]);
    assert_same(&rt, ring.space(), 0);
    ring.pop_back(3);
    has(&rt, &ring, &[2]);
    Ok(())
}
