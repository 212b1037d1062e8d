//! Application files that are refused: those of event groups.

use crate::refused_files::{INSTR, LIMIT, NAME, RefusedFile, SHAPE, assert_refused};
use std::test::Fail;

// The file of these event groups.
macro_rules! file_with_groups {
    ($groups:literal) => {
        concat!(
            r#"{"profile":1,"cores":1,"groups":"#,
            $groups,
            r#","tasks":[{"name":"t0","priority":1,"code":["end"]}]}"#
        )
    };
}

// The file of the event group g0, and the task t0 with this instruction.
macro_rules! file_with_group_call {
    ($call:literal) => {
        concat!(
            r#"{"profile":1,"cores":1,"groups":[{"name":"g0"}],"#,
            r#""tasks":[{"name":"t0","priority":1,"code":[""#,
            $call,
            r#"","end"]}]}"#
        )
    };
}

const REFUSED_GROUPS: [RefusedFile; 8] = [
    RefusedFile {
        text: file_with_groups!(r#"{"name":"g0"}"#),
        errors: SHAPE,
    },
    RefusedFile {
        text: file_with_groups!(r#"[7]"#),
        errors: SHAPE,
    },
    RefusedFile {
        text: file_with_groups!(r#"[{}]"#),
        errors: SHAPE,
    },
    RefusedFile {
        text: file_with_groups!(r#"[{"name":7}]"#),
        errors: SHAPE,
    },
    RefusedFile {
        text: file_with_groups!(r#"[{"name":"G0","bits":0}]"#),
        errors: SHAPE,
    },
    RefusedFile {
        text: file_with_groups!(r#"[{"name":"G0"}]"#),
        errors: NAME,
    },
    RefusedFile {
        text: file_with_groups!(r#"[{"name":"g0"},{"name":"g1"},{"name":"g0"}]"#),
        errors: NAME,
    },
    RefusedFile {
        text: file_with_groups!(
            r#"[0,0,0,0,0,0,0,0,0,0,0,0,0,0,0,0,0,0,0,0,0,0,0,0,0,0,0,0,0,0,0,0,0]"#
        ),
        errors: LIMIT,
    },
];

const REFUSED_GROUP_CALLS: [RefusedFile; 20] = [
    RefusedFile {
        text: file_with_group_call!("gset g9 1"),
        errors: NAME,
    },
    RefusedFile {
        text: file_with_group_call!("gset t0 1"),
        errors: NAME,
    },
    RefusedFile {
        text: file_with_group_call!("gset g0 max"),
        errors: INSTR,
    },
    RefusedFile {
        text: file_with_group_call!("gset g0"),
        errors: INSTR,
    },
    RefusedFile {
        text: file_with_group_call!("gclear g9 1"),
        errors: NAME,
    },
    RefusedFile {
        text: file_with_group_call!("gclear g9 r8"),
        errors: INSTR,
    },
    RefusedFile {
        text: file_with_group_call!("gclear g0"),
        errors: INSTR,
    },
    RefusedFile {
        text: file_with_group_call!("gget g9"),
        errors: NAME,
    },
    RefusedFile {
        text: file_with_group_call!("gget g0 0"),
        errors: INSTR,
    },
    RefusedFile {
        text: file_with_group_call!("gget"),
        errors: INSTR,
    },
    RefusedFile {
        text: file_with_group_call!("gwait g9 1 any keep max"),
        errors: NAME,
    },
    RefusedFile {
        text: file_with_group_call!("gwait g0 1 some keep 0"),
        errors: INSTR,
    },
    RefusedFile {
        text: file_with_group_call!("gwait g0 1 all leave 0"),
        errors: INSTR,
    },
    RefusedFile {
        text: file_with_group_call!("gwait g0 1 clear all 0"),
        errors: INSTR,
    },
    RefusedFile {
        text: file_with_group_call!("gwait g0 max any keep 0"),
        errors: INSTR,
    },
    RefusedFile {
        text: file_with_group_call!("gwait g0 1 any keep"),
        errors: INSTR,
    },
    RefusedFile {
        text: file_with_group_call!("gsync g9 1 1 max"),
        errors: NAME,
    },
    RefusedFile {
        text: file_with_group_call!("gsync g0 1 max max"),
        errors: INSTR,
    },
    RefusedFile {
        text: file_with_group_call!("gsync g0 max 1 0"),
        errors: INSTR,
    },
    RefusedFile {
        text: file_with_group_call!("gsync g0 1 1"),
        errors: INSTR,
    },
];

// An application of event groups is refused by its first fault. Shows `read_app`: `exact`.
#[test]
fn refused_groups(rt: HostRuntime) -> Result<(), Fail> {
    assert_refused(&rt, &REFUSED_GROUPS)?;
    assert_refused(&rt, &REFUSED_GROUP_CALLS)
}
