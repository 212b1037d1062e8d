//! Lines that were bound lately.

ghost use Rattle.std.specs.Prelude.{◌≡◌};

use crate::asserts::assert_same;
use rd_command::binding::bind;
use rd_command::command::parse_line;
use rd_command::known::Known;
use rd_command::recent::Recent;
use rd_command::word::Behind;
use rd_names::app::App;
use std::process::Abort;
use std::test::Fail;

// Lines of 40 bytes and of 41, both with one space between their words and the others before them.
const LONGEST: &str = "                                  step 0";

const TOO_LONG: &str = "                                   step 0";

// A line is said as to a session: where it isn't found it's bound, and kept if its turn has come.
fn say(rt: &impl Abort, recent: &mut Recent<'_>, known: &Known, line: &str)
    requires { known.now ≡ recent.old }
    ensures { recent.new ≡ recent.old }
{
    if recent.find(line.as_bytes()).is_some() {
        return;
    }
    let mut behind = Behind::new();
    let Ok(command) = parse_line(line.as_bytes(), &mut behind) else {
        panic!(rt; "{line} is no command");
    };
    let bound = bind(&command, known);
    if recent.is_turn() {
        recent.keep(&command, bound);
    }
}

// Two lines are said in turn, four times over.
fn say_both(rt: &impl Abort, recent: &mut Recent<'_>, known: &Known, first: &str, second: &str)
    requires { known.now ≡ recent.old }
    ensures { recent.new ≡ recent.old }
{
    say(rt, recent, known, first);
    say(rt, recent, known, second);
    say(rt, recent, known, first);
    say(rt, recent, known, second);
    say(rt, recent, known, first);
    say(rt, recent, known, second);
    say(rt, recent, known, first);
    say(rt, recent, known, second);
}

// Whether one line is found once the other was said 16 times.
fn is_found(rt: &impl Abort, known: &Known, said: &str, line: &str) -> bool {
    let mut recent = Recent::new(known);
    say_both(rt, &mut recent, known, said, said);
    say_both(rt, &mut recent, known, said, said);
    recent.find(line.as_bytes()).is_some()
}

// Whether both lines are found once they were said in turn, again and again.
fn are_found(rt: &impl Abort, known: &Known, first: &str, second: &str) -> bool {
    let mut recent = Recent::new(known);
    say_both(rt, &mut recent, known, first, second);
    say_both(rt, &mut recent, known, first, second);
    say_both(rt, &mut recent, known, first, second);
    say_both(rt, &mut recent, known, first, second);
    say_both(rt, &mut recent, known, first, second);
    say_both(rt, &mut recent, known, first, second);
    recent.find(first.as_bytes()).is_some() && recent.find(second.as_bytes()).is_some()
}

// A line is found again just as it was said.
#[test]
fn the_same_line(rt: HostRuntime) -> Result<(), Fail> {
    let app = App::builtin(rt.alloc())?;
    let known = Known::of(rt.alloc(), &app)?;
    for line in [
        "step 0",
        "tick",
        "until count q0 = 2 100",
        "wheel take",
        "show queue q0",
        LONGEST,
    ] {
        assert_same(&rt, is_found(&rt, &known, line, line), true);
    }
    assert_same(&rt, is_found(&rt, &known, "step 0", "step 1"), false);
    assert_same(&rt, is_found(&rt, &known, "step 0", "step  0"), false);
    assert_same(
        &rt,
        is_found(&rt, &known, "show moves", "show cores"),
        false,
    );
    assert_same(&rt, is_found(&rt, &known, "tick", ""), false);
    Ok(())
}

// A line that names what isn't there is kept too; one that is too long isn't, nor one that carries
// bytes or is of a watch.
#[test]
fn lines_that_are_kept(rt: HostRuntime) -> Result<(), Fail> {
    let app = App::builtin(rt.alloc())?;
    let known = Known::of(rt.alloc(), &app)?;
    assert_same(&rt, is_found(&rt, &known, "step 7", "step 7"), true);
    assert_same(
        &rt,
        is_found(&rt, &known, "show task t9", "show task t9"),
        true,
    );
    assert_same(&rt, is_found(&rt, &known, TOO_LONG, TOO_LONG), false);
    for line in [
        "poke reg t0 0 7",
        "poke data t0 00",
        "isr send q0 0a",
        "watch count q0 > 1",
    ] {
        assert_same(&rt, is_found(&rt, &known, line, line), false);
    }
    Ok(())
}

// Several lines are kept at a time.
#[test]
fn several_lines(rt: HostRuntime) -> Result<(), Fail> {
    let app = App::builtin(rt.alloc())?;
    let known = Known::of(rt.alloc(), &app)?;
    assert_same(&rt, are_found(&rt, &known, "step 0", "tick"), true);
    assert_same(&rt, are_found(&rt, &known, "step 0", "step 1"), true);
    assert_same(&rt, are_found(&rt, &known, "back 1", "redo 1"), true);
    Ok(())
}
