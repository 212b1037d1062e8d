//! What some moves carry: their operands.

ghost use Rattle.std.specs.Prelude.{◌≡◌};

use crate::edit::Edit;
use crate::interrupt::Interrupt;
use rd_bytes::bytes::Bytes;
use std::marker::Model;

/// What a move carries. Its bytes are its own, or stand where they were read.
#[derive(Drop)]
pub enum Carried<B: Drop = Bytes> {
    /// What is changed by hand.
    Edit { edit: Edit<B> },
    /// What an interrupt does.
    Interrupt { interrupt: Interrupt<B> },
}

impl Carried {
    /// The same once more.
    pub fn copy(&self) -> Carried
        ensures { result ≡ self.now }
    {
        match self {
            Carried::Edit { edit } => Carried::Edit { edit: edit.copy() },
            Carried::Interrupt { interrupt } => Carried::Interrupt {
                interrupt: interrupt.copy(),
            },
        }
    }
}

/// What a move carries, where it stands elsewhere. A move that has it is as small as any other.
#[derive(Drop)]
pub struct Lent<'a> {
    carried: &'a Carried,
}

impl<'a> Model for Lent<'a> {
    ghost use Rattle.rd_moves.specs.Carried.{PlainCarried};

    ghost Value = { PlainCarried };

    ghost view = { λ l. l.carried.now };
}

impl<'a> Lent<'a> {
    /// Lends this.
    pub fn new(carried: &'a Carried) -> Lent<'a>
        ensures { result ≡ carried.now }
    {
        Lent { carried }
    }

    /// What is lent.
    pub fn carried(&self) -> &'a Carried
        ensures { result.now ≡ self.now }
    {
        self.carried
    }
}
