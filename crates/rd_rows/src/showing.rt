//! Views of the target by one call, without a session.

ghost use Rattle.std.specs.Prelude.{◌≡◌, IsSome};
ghost use Rattle.rd_command.specs.Bindings.{IsViewOf};
ghost use Rattle.rd_names.specs.Apps.{builtin_names};
ghost use Rattle.rd_desk.specs.Debugger.{target_of};
ghost use Rattle.rd_desk.specs.Views.{text_shown};

use crate::asserts::assert_same;
use rd_command::view::View;
use rd_desk::machine::DeskMachine;
use rd_desk::showing::show;
use rd_names::app::App;
use rd_text::kind::Kind;
use std::alloc::AllocGlobal;
use std::process::Abort;
use std::test::Fail;

// What the command asks to see of the target is this line.
fn assert_shown<H: AllocGlobal + Abort>(
    rt: &H,
    machine: &DeskMachine,
    view: View,
    wanted: &str,
) -> Result<(), Fail>
    requires there { IsSome
        (text_shown machine.now.debugger.app.names (target_of machine.now.debugger) view) }
    requires named { IsViewOf machine.now.debugger.app.names view }
{
    machine.by_invariant();
    let line = show(rt.alloc(), machine.target(), machine.names(), view)?;
    assert_same(rt, line.as_slice(), wanted.as_bytes());
    Ok(())
}

// The queue, the task and the cores of the built-in application are shown so.
fn assert_all_shown<H: AllocGlobal + Abort>(rt: &H, machine: &DeskMachine) -> Result<(), Fail>
    requires { machine.now.debugger.app.names ≡ builtin_names }
{
    let queue = View::Thing {
        kind: Kind::Queue,
        number: 0,
    };
    let line = "queue q0 0/2 items - recv - send - set -\n";
    assert_shown(rt, machine, queue, line)?;
    let task = View::Thing {
        kind: Kind::Task,
        number: 0,
    };
    let line = "task t0 core 0 pc 0 phase run regs 0,0,0,0,0,0,0,0 data - notes 0:idle\n";
    assert_shown(rt, machine, task, line)?;
    let line = "cores t0 ready - tick 0 turn 0\n";
    assert_shown(rt, machine, View::Cores, line)
}

// What a command shows of the target is the line of the thing that it names.
#[test]
fn at_boot(rt: HostRuntime) -> Result<(), Fail> {
    let app = App::builtin(rt.alloc())?;
    let machine = DeskMachine::new(rt.alloc(), app, 10)?;
    let ended = assert_all_shown(&rt, &machine);
    machine.close();
    ended
}
