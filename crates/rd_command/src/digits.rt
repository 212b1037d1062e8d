//! Bytes as they stand in a line, and what carries them: edits and interrupts.

ghost use Rattle.std.specs.Prelude.{◌≡◌};
ghost use Rattle.rd_text.specs.Words.{bytes_of};
ghost use Rattle.rd_command.specs.Digits.{is_data};

use rd_bytes::bytes::Bytes;
use rd_moves::carried::Carried;
use rd_moves::edit::Edit;
use rd_moves::interrupt::Interrupt;
use rd_text::words::bytes;
use std::marker::Model;

/// Bytes as they stand in a line: hexadecimal digits, or `-` for none.
#[derive(Drop)]
pub struct Digits<'a> {
    word: &'a [u8],
}

impl<'a> Model for Digits<'a> {
    ghost use Rattle.std.specs.Prelude.{ℕ, List, [], IsSome, unwrap_or};
    ghost use Rattle.rd_text.specs.Words.{bytes_of};

    ghost Value = { List ℕ };

    ghost view = { λ d. unwrap_or (bytes_of d.word.now) [] };

    ghost invariant = { λ d. IsSome (bytes_of d.word.now) };
}

impl<'a> Digits<'a> {
    /// The bytes that a word is, if it is some.
    pub fn new(word: &'a [u8]) -> Option<Digits<'a>>
        ensures { result ≡ bytes_of word.now }
    {
        if is_data(word) {
            Some(Digits { word })
        } else {
            None
        }
    }

    /// The bytes.
    pub fn bytes(&self) -> Bytes
        ensures { result ≡ self.now }
    {
        bytes(self.word).unwrap()
    }
}

/// Whether a word is bytes. (By itself, since a check of any other form would clear room for them.)
pub fn is_data(word: &[u8]) -> bool
    ensures { result ≡ is_data word.now }
{
    bytes(word).is_some()
}

// The edit with bytes of its own.
fn own_edit(edit: &Edit<Digits<'_>>) -> Edit
    ensures { result ≡ edit.now }
{
    match edit {
        &Edit::Register {
            task,
            register,
            value,
        } => Edit::Register {
            task,
            register,
            value,
        },
        Edit::Data { task, bytes } => Edit::Data {
            task: *task,
            bytes: bytes.bytes(),
        },
        &Edit::Pc { task, pc } => Edit::Pc { task, pc },
        &Edit::Value { task, index, value } => Edit::Value { task, index, value },
        &Edit::Bits { group, bits } => Edit::Bits { group, bits },
        Edit::Item {
            queue,
            index,
            bytes,
        } => Edit::Item {
            queue: *queue,
            index: *index,
            bytes: bytes.bytes(),
        },
        &Edit::Byte {
            stream,
            index,
            value,
        } => Edit::Byte {
            stream,
            index,
            value,
        },
    }
}

// The interrupt with bytes of its own.
fn own_interrupt(interrupt: &Interrupt<Digits<'_>>) -> Interrupt
    ensures { result ≡ interrupt.now }
{
    match interrupt {
        Interrupt::Send { queue, bytes } => Interrupt::Send {
            queue: *queue,
            bytes: bytes.bytes(),
        },
        &Interrupt::Notify {
            task,
            index,
            value,
            action,
        } => Interrupt::Notify {
            task,
            index,
            value,
            action,
        },
    }
}

/// What a move carries with bytes of its own, which are read from their digits.
pub fn own(carried: &Carried<Digits<'_>>) -> Carried
    ensures { result ≡ carried.now }
{
    match carried {
        Carried::Edit { edit } => Carried::Edit {
            edit: own_edit(edit),
        },
        Carried::Interrupt { interrupt } => Carried::Interrupt {
            interrupt: own_interrupt(interrupt),
        },
    }
}
