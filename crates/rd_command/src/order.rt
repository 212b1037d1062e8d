//! Commands together with what they are bound to.

ghost use Rattle.std.specs.Prelude.{◌≡◌, IfSome, None, Some};
ghost use Rattle.std.specs.Result.{result_ok};
ghost use Rattle.rd_text.specs.Words.{words_of};
ghost use Rattle.rd_command.specs.Bindings.{IsOrder, bound_in};
ghost use Rattle.rd_command.specs.Commands.{command_of};
ghost use Rattle.rd_command.specs.Keywords.{needs_wheel};

use crate::binding::{Bound, Unknown};
use crate::command::Command;
use crate::known::Known;
use std::marker::Model;

/// A line that is a command, with what this is bound to in an application, or that this lacks
/// something it names.
#[derive(Drop)]
pub struct Order<'r, 'a> {
    line: &'a [u8],
    known: &'r Known,
    needs_wheel: bool,
    bound: &'r Result<Bound<'a>, Unknown>,
}

impl<'r, 'a> Model for Order<'r, 'a> {
    ghost use Rattle.rd_command.specs.Bindings.{IsOrder, OrderView};
    ghost use Rattle.rd_command.specs.Commands.{command_in};

    ghost Value = { OrderView };

    ghost view = { λ o. record {
      line = o.line.now;
      command = command_in o.line.now;
      known = o.known.now;
    } };

    ghost invariant = { λ o. IsOrder o.known.now o.line.now o.needs_wheel o.bound.now };
}

impl<'r, 'a> Order<'r, 'a> {
    /// A command with what it is bound to in this application.
    pub fn new(
        command: &Command<'_, 'a>,
        known: &'r Known,
        bound: &'r Result<Bound<'a>, Unknown>,
    ) -> Order<'r, 'a>
        requires bound { result_ok bound.now ≡ bound_in known.now command.now }
        ensures command { result.command ≡ command.now }
        ensures known { result.known ≡ known.now }
    {
        Order {
            line: command.line(),
            known,
            needs_wheel: command.needs_wheel(),
            bound,
        }
    }

    /// A line with what it was found to be bound to in this application.
    pub(crate) fn again(
        line: &'a [u8],
        known: &'r Known,
        needs_wheel: bool,
        bound: &'r Result<Bound<'a>, Unknown>,
    ) -> Order<'r, 'a>
        requires { IsOrder known.now line.now needs_wheel bound.now }
        ensures line { result.line ≡ line.now }
        ensures known { result.known ≡ known.now }
    {
        Order {
            line,
            known,
            needs_wheel,
            bound,
        }
    }

    /// The line of the command. It alone says which command it is.
    pub fn line(&self) -> &'a [u8]
        ensures line { result.now ≡ self.now.line }
        ensures says { command_of (words_of self.now.line) ≡ Some self.now.command }
    {
        self.line
    }

    /// Whether the command is refused while another session has the wheel.
    pub fn needs_wheel(&self) -> bool
        ensures { result ≡ needs_wheel self.now.command.keyword }
    {
        self.needs_wheel
    }

    /// What it is bound to, if the application has all that it names.
    pub fn bound(&self) -> Option<&Bound<'a>>
        ensures some { IfSome result (λ bound.
            bound_in self.now.known self.now.command ≡ Some bound.now) }
        ensures none { result ≡ None → bound_in self.now.known self.now.command ≡ None }
    {
        self.bound.as_ref().ok()
    }
}
