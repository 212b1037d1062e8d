//! The line of a view.

ghost use Rattle.std.specs.Prelude.{◌≡◌, IfOk};

use rd_bytes::no_memory::NoMemory;
use std::alloc::Global;
use std::marker::Model;

/// The line of a view, its LF included.
#[derive(Drop)]
pub struct Text {
    bytes: Vec<u8>,
}

impl Model for Text {
    ghost use Rattle.std.specs.Prelude.{ℕ, List};

    ghost Value = { List ℕ };

    ghost view = { λ t. t.bytes.items };
}

impl Text {
    /// These bytes.
    pub(crate) fn new(bytes: Vec<u8>) -> Text
        ensures { result ≡ bytes.items }
    {
        Text { bytes }
    }

    /// A text of these bytes. An `Err` says that there is no memory for it.
    pub(crate) fn of(alloc: Global, bytes: &[u8]) -> Result<Text, NoMemory>
        ensures { IfOk result (λ text. text ≡ bytes.now) }
    {
        let mut copied = Vec::with_capacity(alloc, bytes.len())?;
        copied.extend_from_slice(bytes)?;
        Ok(Text { bytes: copied })
    }

    /// An equal text. An `Err` says that there is no memory for it.
    pub fn copy(&self, alloc: Global) -> Result<Text, NoMemory>
        ensures { IfOk result (λ text. text ≡ self.now) }
    {
        Text::of(alloc, self.as_slice())
    }

    /// The bytes.
    pub fn as_slice(&self) -> &[u8]
        ensures { result.now ≡ self.now }
    {
        self.bytes.as_slice()
    }
}
