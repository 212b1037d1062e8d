//! What a command asks of a timeline.

ghost use Rattle.std.specs.Prelude.{◌≡◌, IfErr, IfOk, IfSome};
ghost use Rattle.rd_command.specs.Keywords.{carrying};

use crate::digits::Digits;
use rd_moves::carried::{Carried, Lent};
use rd_moves::request::Request;
use std::marker::Model;

/// The two forms of what is asked.
#[derive(Drop)]
pub(crate) enum Form<'a> {
    /// A request as a timeline is asked it, with a move that carries nothing, if with one.
    Bare { request: Request<Lent<'static>> },
    /// A move that carries this, whose bytes are still to be read.
    Carrying { carried: Carried<Digits<'a>> },
}

/// What a command asks of a timeline: a request. (Room for an edit's bytes is nowhere but where
/// bytes are.)
#[derive(Drop)]
pub struct Demand<'a> {
    form: Form<'a>,
}

impl<'a> Model for Demand<'a> {
    ghost use Rattle.rd_moves.specs.Requests.{PlainRequest};
    ghost use Rattle.rd_command.specs.Demands.{demanded};

    ghost Value = { PlainRequest };

    ghost view = { λ d. demanded d.form };
}

impl<'a> Demand<'a> {
    /// This request, whose move carries nothing.
    pub(crate) fn bare(request: Request<Lent<'static>>) -> Demand<'a>
        ensures { result ≡ request.entry }
    {
        Demand {
            form: Form::Bare { request },
        }
    }

    /// The request for a move that carries this.
    pub(crate) fn carrying(carried: Carried<Digits<'a>>) -> Demand<'a>
        ensures { result ≡ carrying carried.entry }
    {
        Demand {
            form: Form::Carrying { carried },
        }
    }

    /// The request as a timeline is asked it, where its move carries nothing; else what it carries,
    /// whose bytes are still to be read (`own`).
    pub fn split(&self) -> Result<&Request<Lent<'static>>, &Carried<Digits<'a>>>
        ensures bare { IfOk result (λ request. request.now ≡ self.now) }
        ensures carried { IfErr result (λ carried. carrying carried.now ≡ self.now) }
    {
        match &self.form {
            Form::Bare { request } => Ok(request),
            Form::Carrying { carried } => Err(carried),
        }
    }

    /// The same where it doesn't borrow of a line, since its move carries nothing.
    pub(crate) fn lasting(self) -> Option<Demand<'static>>
        ensures { IfSome result (λ lasting. lasting ≡ self.entry) }
    {
        match self.form {
            Form::Bare { request } => Some(Demand::bare(request)),
            Form::Carrying { .. } => None,
        }
    }
}
