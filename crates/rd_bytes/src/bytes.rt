//! The data of a task, which lies in the value itself.

ghost use Rattle.std.specs.Prelude.{◌≡◌, ◌↔◌, ◌++◌, ◌≤◌, IsTrue, [], length};

use arrayvec::ArrayVec;
use std::marker::Model;

/// How many bytes a task's data has at the most.
pub const MAX_BYTES: usize = 256;

/// The data of a task, or of an instruction: 0 to 256 bytes, which take no memory elsewhere.
pub struct Bytes {
    bytes: ArrayVec<u8, MAX_BYTES>,
}

// (Written out, so that a drop of one is a call: no proof elsewhere has to look into its parts.)
impl Drop for Bytes {
    fn drop(self) {
        let Bytes { bytes: _bytes } = self;
    }
}

impl Model for Bytes {
    ghost use Rattle.std.specs.Prelude.{ℕ, List};

    ghost Value = { List ℕ };

    ghost view = { λ b. b.bytes.items };
}

impl Bytes {
    /// No bytes.
    pub fn new() -> Bytes
        ensures { result ≡ [] }
    {
        Bytes {
            bytes: ArrayVec::new(),
        }
    }

    /// These bytes.
    pub fn from_slice(bytes: &[u8]) -> Bytes
        requires { length bytes.now ≤ MAX_BYTES }
        ensures { result ≡ bytes.now }
    {
        let mut made = Bytes::new();
        made.replace(bytes);
        made
    }

    /// The bytes.
    pub fn as_slice(&self) -> &[u8]
        ensures bytes { result.now ≡ self.now }
        ensures few { length result.now ≤ MAX_BYTES }
    {
        self.bytes.as_slice()
    }

    /// Whether the others are the same bytes.
    pub fn same(&self, other: &Bytes) -> bool
        ensures { IsTrue result ↔ (self.now ≡ other.now) }
    {
        self.as_slice() == other.as_slice()
    }

    /// Makes them these bytes.
    pub fn replace(&mut self, bytes: &[u8])
        requires { length bytes.now ≤ MAX_BYTES }
        ensures { self.new ≡ bytes.now }
    {
        if bytes.len() == self.bytes.len() {
            self.bytes.as_mut_slice().copy_from_slice(bytes);
        } else {
            self.refill(bytes, &[]);
        }
    }

    // Empties them, and fills them with these, which are in two pieces. (Called: bytes that leave
    // are cleared, which takes longer than to write others over them.)
    #[inline(never)]
    fn refill(&mut self, front: &[u8], back: &[u8])
        requires { length (front.now ++ back.now) ≤ MAX_BYTES }
        ensures { self.new ≡ front.now ++ back.now }
    {
        self.bytes.clear();
        self.bytes.try_extend_from_slice(front).unwrap();
        self.bytes.try_extend_from_slice(back).unwrap();
    }

    /// Makes them these bytes, which are in two pieces that follow one another.
    pub fn replace_halves(&mut self, front: &[u8], back: &[u8])
        requires { length (front.now ++ back.now) ≤ MAX_BYTES }
        ensures { self.new ≡ front.now ++ back.now }
    {
        if back.is_empty() {
            self.replace(front);
        } else {
            self.refill(front, back);
        }
    }
}

/// For contracts alone: how many bytes `Bytes` has at the most, as a number.
pub fn limit_of_bytes()
    ensures { MAX_BYTES ≡ 256 }
{}
