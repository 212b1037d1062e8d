//! A memory that is read and written around its end.

ghost use Rattle.std.specs.Prelude.{◌≡◌, ◌↔◌, ◌+◌, ◌-◌, ◌≤◌, ◌++◌, IsTrue, length, take, drop};
ghost use Rattle.rd_ring.specs.Memory.{IsOffset, seen_from, offset_after, offset_before};

/// The offset `count` bytes after `offset`, around the end of a memory of `capacity` bytes.
#[inline(always)]
pub fn offset_after(capacity: usize, offset: usize, count: usize) -> usize
    requires offset { IsOffset capacity offset }
    requires count { count ≤ capacity }
    ensures after { result ≡ offset_after capacity offset count }
    ensures offset { IsOffset capacity result }
{
    let up_to_end = capacity - offset;
    if count < up_to_end {
        offset + count
    } else {
        count - up_to_end
    }
}

/// The offset `count` bytes before `offset`, around the end of a memory of `capacity` bytes.
#[inline(always)]
pub fn offset_before(capacity: usize, offset: usize, count: usize) -> usize
    requires offset { IsOffset capacity offset }
    requires count { count ≤ capacity }
    ensures before { result ≡ offset_before capacity offset count }
    ensures offset { IsOffset capacity result }
{
    if count <= offset {
        offset - count
    } else {
        capacity - (count - offset)
    }
}

/// The `count` bytes from `offset` on, in two pieces, since they may go around the end.
#[inline(always)]
pub fn halves_from(memory: &[u8], offset: usize, count: usize) -> (&[u8], &[u8])
    requires offset { offset ≤ length memory.now }
    requires count { count ≤ length memory.now }
    ensures { result.0.now ++ result.1.now ≡ take count (seen_from offset memory.now) }
{
    let first = count.min(memory.len() - offset);
    (&memory[offset..offset + first], &memory[..count - first])
}

/// Copies the bytes from `offset` on, as many as `into` has.
#[inline(always)]
pub fn read_from(memory: &[u8], offset: usize, into: &mut [u8])
    requires offset { offset ≤ length memory.now }
    requires count { length into.old ≤ length memory.now }
    ensures { into.new ≡ take (length into.old) (seen_from offset memory.now) }
{
    let (first, second) = halves_from(memory, offset, into.len());
    let (into_first, into_second) = into.split_at_mut(first.len());
    into_first.copy_from_slice(first);
    into_second.copy_from_slice(second);
}

/// Puts `bytes` in the place of as many, from `offset` on.
#[inline(always)]
pub fn write_from(memory: &mut [u8], offset: usize, bytes: &[u8])
    requires offset { offset ≤ length memory.old }
    requires count { length bytes.now ≤ length memory.old }
    ensures length { length memory.new ≡ length memory.old }
    ensures written { seen_from offset memory.new
        ≡ bytes.now ++ drop (length bytes.now) (seen_from offset memory.old) }
{
    let first = bytes.len().min(memory.len() - offset);
    memory[offset..offset + first].copy_from_slice(&bytes[..first]);
    if first < bytes.len() {
        memory[..bytes.len() - first].copy_from_slice(&bytes[first..]);
    }
}

// Whether `whole` is `front` and then `back`.
#[inline(always)]
fn is_joined(whole: &[u8], front: &[u8], back: &[u8]) -> bool
    ensures { IsTrue result ↔ (whole.now ≡ front.now ++ back.now) }
{
    if whole.len() < front.len() {
        return false;
    }
    let (first, second) = whole.split_at(front.len());
    first == front && second == back
}

/// Whether two lists, each in two pieces, are equal. The first piece of the first list is no longer
/// than that of the second.
#[inline(always)]
pub fn same_in_pieces(front: &[u8], back: &[u8], other_front: &[u8], other_back: &[u8]) -> bool
    requires { length front.now ≤ length other_front.now }
    ensures { IsTrue result ↔ (front.now ++ back.now ≡ other_front.now ++ other_back.now) }
{
    let (first, second) = other_front.split_at(front.len());
    front == first && is_joined(back, second, other_back)
}
