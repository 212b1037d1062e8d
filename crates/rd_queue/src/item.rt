//! Items of a queue, by value.

ghost use Rattle.std.specs.Prelude.{◌≡◌, ◌↔◌, ◌≤◌, length, IsTrue};
ghost use Rattle.rd_queue.specs.Queues.{fitted};

use arrayvec::ArrayVec;
use std::marker::Model;

/// How many bytes an item has at the most.
pub const MAX_ITEM_SIZE: usize = 64;

// What fills an item up.
const ZEROS: [u8; MAX_ITEM_SIZE] = [0; MAX_ITEM_SIZE];

/// An item by value: 0 to 64 bytes.
#[derive(Drop)]
pub struct Item {
    bytes: ArrayVec<u8, MAX_ITEM_SIZE>,
}

impl Model for Item {
    ghost use Rattle.std.specs.Prelude.{ℕ, List};

    ghost Value = { List ℕ };

    ghost view = { λ i. i.bytes.items };
}

impl Item {
    /// An item of these bytes.
    pub fn new(bytes: &[u8]) -> Item
        requires { length bytes.now ≤ MAX_ITEM_SIZE }
        ensures { result ≡ bytes.now }
    {
        let mut item = ArrayVec::new();
        item.try_extend_from_slice(bytes).unwrap();
        Item { bytes: item }
    }

    /// The item of `size` bytes that these bytes make: cut, or filled up with zero bytes.
    pub fn fitted(bytes: &[u8], size: usize) -> Item
        requires { size ≤ MAX_ITEM_SIZE }
        ensures { result ≡ fitted size bytes.now }
    {
        let count = bytes.len().min(size);
        let mut item = Item::new(&bytes[..count]);
        item.bytes
            .try_extend_from_slice(&ZEROS[..size - count])
            .unwrap();
        item
    }

    /// The item's bytes.
    pub fn as_slice(&self) -> &[u8]
        ensures bytes { result.now ≡ self.now }
        ensures short { length result.now ≤ MAX_ITEM_SIZE }
    {
        self.bytes.as_slice()
    }
}

/// For contracts alone: how many bytes an item has at the most, as a number.
pub fn limit_of_item_sizes()
    ensures { MAX_ITEM_SIZE ≡ 64 }
{}
