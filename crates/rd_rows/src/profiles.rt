//! Application files of both profiles: how many cores each may have, and what sixteen cores do.

use crate::refused_files::{LIMIT, RefusedFile, SHAPE, assert_refused};
use crate::tasks::{FileRun, assert_rows};
use std::test::Fail;

// The file of one task, whose profile and number of cores are written so.
macro_rules! file_with {
    ($profile:literal, $cores:literal) => {
        concat!(
            r#"{"profile":"#,
            $profile,
            r#","cores":"#,
            $cores,
            r#","tasks":[{"name":"t0","priority":1,"code":["end"]}]}"#
        )
    };
}

const ROWS: [FileRun; 5] = [
    FileRun {
        name: "profile 1 on as many cores as it has",
        app: file_with!("1", "8"),
        commands: "show cores\nstep 7\nstep 8\n",
        replies: "cores t0,-,-,-,-,-,-,- ready - tick 0 turn 0\nno NoTask\nno NoSuch\n",
    },
    FileRun {
        name: "profile 2 on one core",
        app: file_with!("2", "1"),
        commands: "show cores\nstep 1\n",
        replies: "cores t0 ready - tick 0 turn 0\nno NoSuch\n",
    },
    FileRun {
        name: "profile 2 on more cores than profile 1 has",
        app: file_with!("2", "9"),
        commands: "show cores\nstep 8\nstep 9\n",
        replies: "cores t0,-,-,-,-,-,-,-,- ready - tick 0 turn 0\nno NoTask\nno NoSuch\n",
    },
    FileRun {
        name: "profile 2 on as many cores as it has",
        app: file_with!("2", "16"),
        commands: "show cores\nstep 15\nstep 16\n",
        replies: "cores t0,-,-,-,-,-,-,-,-,-,-,-,-,-,-,- ready - tick 0 turn 0\n\
                  no NoTask\nno NoSuch\n",
    },
    // Tick 15 is the turn of core 15. Its task joins the ready list, and has that core again once
    // the other one has ended there.
    FileRun {
        name: "seventeen tasks take turns on sixteen cores",
        app: concat!(
            r#"{"profile":2,"cores":16,"tick":14,"tasks":["#,
            r#"{"name":"t0","priority":1,"code":["end"]},"#,
            r#"{"name":"t1","priority":1,"code":["end"]},"#,
            r#"{"name":"t2","priority":1,"code":["end"]},"#,
            r#"{"name":"t3","priority":1,"code":["end"]},"#,
            r#"{"name":"t4","priority":1,"code":["end"]},"#,
            r#"{"name":"t5","priority":1,"code":["end"]},"#,
            r#"{"name":"t6","priority":1,"code":["end"]},"#,
            r#"{"name":"t7","priority":1,"code":["end"]},"#,
            r#"{"name":"t8","priority":1,"code":["end"]},"#,
            r#"{"name":"t9","priority":1,"code":["end"]},"#,
            r#"{"name":"t10","priority":1,"code":["end"]},"#,
            r#"{"name":"t11","priority":1,"code":["end"]},"#,
            r#"{"name":"t12","priority":1,"code":["end"]},"#,
            r#"{"name":"t13","priority":1,"code":["end"]},"#,
            r#"{"name":"t14","priority":1,"code":["end"]},"#,
            r#"{"name":"t15","priority":1,"code":["end"]},"#,
            r#"{"name":"t16","priority":1,"code":["end"]}]}"#
        ),
        commands: "show cores\ntick\nshow cores\nstep 15\nshow cores\nback 2\nshow cores\n",
        replies: "cores t0,t1,t2,t3,t4,t5,t6,t7,t8,t9,t10,t11,t12,t13,t14,t15 ready t16 \
                  tick 14 turn 0\nok at 1\n\
                  cores t0,t1,t2,t3,t4,t5,t6,t7,t8,t9,t10,t11,t12,t13,t14,t16 ready t15 \
                  tick 15 turn 0\nok at 2\n\
                  cores t0,t1,t2,t3,t4,t5,t6,t7,t8,t9,t10,t11,t12,t13,t14,t15 ready - \
                  tick 15 turn 16\nok at 0\n\
                  cores t0,t1,t2,t3,t4,t5,t6,t7,t8,t9,t10,t11,t12,t13,t14,t15 ready t16 \
                  tick 14 turn 0\n",
    },
];

// The profile is looked at before the cores.
const REFUSED: [RefusedFile; 12] = [
    RefusedFile {
        text: file_with!("1", "9"),
        errors: LIMIT,
    },
    RefusedFile {
        text: file_with!("1", "16"),
        errors: LIMIT,
    },
    RefusedFile {
        text: file_with!("2", "17"),
        errors: LIMIT,
    },
    RefusedFile {
        text: file_with!("2", "0"),
        errors: LIMIT,
    },
    RefusedFile {
        text: file_with!("3", "1"),
        errors: LIMIT,
    },
    RefusedFile {
        text: file_with!("0", "1"),
        errors: LIMIT,
    },
    RefusedFile {
        text: file_with!("3", "2.0"),
        errors: LIMIT,
    },
    RefusedFile {
        text: file_with!("2", "2.0"),
        errors: SHAPE,
    },
    RefusedFile {
        text: file_with!("2.0", "17"),
        errors: SHAPE,
    },
    RefusedFile {
        text: file_with!("-1", "17"),
        errors: SHAPE,
    },
    RefusedFile {
        text: file_with!(r#""2""#, "1"),
        errors: SHAPE,
    },
    RefusedFile {
        text: file_with!("null", "1"),
        errors: SHAPE,
    },
];

// An application may have as many cores as its profile says.
#[test]
fn cores_of_profiles(rt: HostRuntime) -> Result<(), Fail> {
    assert_rows(&rt, &ROWS)
}

// A file with another profile, or with more cores than its profile has, is refused. Shows
// `read_app`: `exact`.
#[test]
fn refused_profiles(rt: HostRuntime) -> Result<(), Fail> {
    assert_refused(&rt, &REFUSED)
}
