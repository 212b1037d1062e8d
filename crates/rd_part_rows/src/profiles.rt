//! The profiles of applications that are read from files, and of the built-in one.

use crate::asserts::assert_same;
use crate::files::read;
use rd_app::app::Program;
use rd_app::profile::{MAX_CORES, Profile};
use rd_script::file::read_app;
use std::alloc::{AllocError, Global};
use std::test::Fail;

fn file(alloc: Global, profile: usize, cores: usize) -> Result<String, AllocError> {
    let tasks = r#"[{"name":"t0","priority":1,"code":["end"]}]"#;
    format!(in alloc; r#"{{"profile":{profile},"cores":{cores},"tasks":{tasks}}}"#)
}

// What a file calls a profile.
fn number_of(profile: Profile) -> usize {
    match profile {
        Profile::One => 1,
        Profile::Two => 2,
    }
}

// An application has the profile and the cores that its file says.
#[test]
fn profiles(rt: HostRuntime) -> Result<(), Fail> {
    let alloc = rt.alloc();
    for (profile, cores) in [(1, 1), (1, 8), (2, 1), (2, 8), (2, 9), (2, 16)] {
        let text = file(alloc, profile, cores)?;
        let app = read_app(alloc, text.as_bytes())?;
        assert_same(&rt, number_of(app.profile()), profile);
        let program = read(alloc, text.as_str())?;
        assert_same(&rt, number_of(program.profile()), profile);
        assert_same(&rt, program.cores(), cores);
    }
    let builtin = Program::builtin(alloc)?;
    assert_same(&rt, number_of(builtin.profile()), 1);
    Ok(())
}

// How many cores each profile has at the most, and any.
#[test]
fn most_cores(rt: HostRuntime) -> Result<(), Fail> {
    assert_same(&rt, Profile::One.max_cores(), 8);
    assert_same(&rt, Profile::Two.max_cores(), 16);
    assert_same(&rt, MAX_CORES, 16);
    Ok(())
}
