//! Application files that are refused: those of stream buffers and of message buffers.

use crate::refused_files::{INSTR, LIMIT, NAME, RefusedFile, SHAPE, assert_refused};
use std::test::Fail;

// The file of these stream buffers.
macro_rules! file_with_streams {
    ($streams:literal) => {
        concat!(
            r#"{"profile":1,"cores":1,"streams":["#,
            $streams,
            r#"],"tasks":[{"name":"t0","priority":1,"code":["end"]}]}"#
        )
    };
}

// The file of these message buffers.
macro_rules! file_with_messages {
    ($messages:literal) => {
        concat!(
            r#"{"profile":1,"cores":1,"messages":["#,
            $messages,
            r#"],"tasks":[{"name":"t0","priority":1,"code":["end"]}]}"#
        )
    };
}

// The file of the stream buffer b0, the message buffer m0, and the task t0 with this instruction.
macro_rules! file_with_buffer_call {
    ($call:literal) => {
        concat!(
            r#"{"profile":1,"cores":1,"streams":[{"name":"b0","size":4,"trigger":1}],"#,
            r#""messages":[{"name":"m0","size":8}],"#,
            r#""tasks":[{"name":"t0","priority":1,"code":[""#,
            $call,
            r#"","end"]}]}"#
        )
    };
}

const REFUSED_STREAMS: [RefusedFile; 9] = [
    RefusedFile {
        text: file_with_streams!(r#"{"name":"b0","size":0,"trigger":0}"#),
        errors: LIMIT,
    },
    RefusedFile {
        text: file_with_streams!(r#"{"name":"b0","size":1025,"trigger":1}"#),
        errors: LIMIT,
    },
    RefusedFile {
        text: file_with_streams!(r#"{"name":"b0","size":4,"trigger":5}"#),
        errors: LIMIT,
    },
    RefusedFile {
        text: file_with_streams!(r#"{"name":"b0","size":"4","trigger":1}"#),
        errors: SHAPE,
    },
    RefusedFile {
        text: file_with_streams!(r#"{"name":"b0","size":4}"#),
        errors: SHAPE,
    },
    RefusedFile {
        text: file_with_streams!(r#"{"name":"b0","size":0,"trigger":1,"length":4}"#),
        errors: SHAPE,
    },
    RefusedFile {
        text: file_with_streams!(r#"{"name":"B0","size":0,"trigger":0}"#),
        errors: NAME,
    },
    RefusedFile {
        text: file_with_streams!(
            r#"{"name":"b0","size":4,"trigger":1},{"name":"b0","size":4,"trigger":1}"#
        ),
        errors: NAME,
    },
    RefusedFile {
        text: file_with_streams!(r#"7"#),
        errors: SHAPE,
    },
];

const REFUSED_MESSAGES: [RefusedFile; 8] = [
    RefusedFile {
        text: file_with_messages!(r#"{"name":"m0","size":4}"#),
        errors: LIMIT,
    },
    RefusedFile {
        text: file_with_messages!(r#"{"name":"m0","size":1025}"#),
        errors: LIMIT,
    },
    RefusedFile {
        text: file_with_messages!(r#"{"name":"m0","size":4.5}"#),
        errors: SHAPE,
    },
    RefusedFile {
        text: file_with_messages!(r#"{"name":"m0"}"#),
        errors: SHAPE,
    },
    RefusedFile {
        text: file_with_messages!(r#"{"name":"m0","size":4,"trigger":1}"#),
        errors: SHAPE,
    },
    RefusedFile {
        text: file_with_messages!(r#"{"name":"0m","size":4}"#),
        errors: NAME,
    },
    RefusedFile {
        text: file_with_messages!(r#"{"name":"m0","size":8},{"name":"m0","size":8}"#),
        errors: NAME,
    },
    RefusedFile {
        text: concat!(
            r#"{"profile":1,"cores":1,"messages":[{"name":"m0"}],"#,
            r#""streams":[{"name":"b0","size":4,"trigger":5}],"#,
            r#""tasks":[{"name":"t0","priority":1,"code":["end"]}]}"#
        ),
        errors: LIMIT,
    },
];

const REFUSED_BUFFER_CALLS: [RefusedFile; 29] = [
    RefusedFile {
        text: file_with_buffer_call!("swrite b9 0"),
        errors: NAME,
    },
    RefusedFile {
        text: file_with_buffer_call!("swrite m0 0"),
        errors: NAME,
    },
    RefusedFile {
        text: file_with_buffer_call!("swrite b0"),
        errors: INSTR,
    },
    RefusedFile {
        text: file_with_buffer_call!("sread b9 4 max"),
        errors: NAME,
    },
    RefusedFile {
        text: file_with_buffer_call!("sread b0 0 max"),
        errors: INSTR,
    },
    RefusedFile {
        text: file_with_buffer_call!("sread b9 257 max"),
        errors: INSTR,
    },
    RefusedFile {
        text: file_with_buffer_call!("sread b0 r1 max"),
        errors: INSTR,
    },
    RefusedFile {
        text: file_with_buffer_call!("sread b0 max"),
        errors: INSTR,
    },
    RefusedFile {
        text: file_with_buffer_call!("sreset b9"),
        errors: NAME,
    },
    RefusedFile {
        text: file_with_buffer_call!("sreset b0 0"),
        errors: INSTR,
    },
    RefusedFile {
        text: file_with_buffer_call!("strig b9 1"),
        errors: NAME,
    },
    RefusedFile {
        text: file_with_buffer_call!("strig b0 max"),
        errors: INSTR,
    },
    RefusedFile {
        text: file_with_buffer_call!("scount m0"),
        errors: NAME,
    },
    RefusedFile {
        text: file_with_buffer_call!("scount"),
        errors: INSTR,
    },
    RefusedFile {
        text: file_with_buffer_call!("sspaces b9"),
        errors: NAME,
    },
    RefusedFile {
        text: file_with_buffer_call!("sspaces b0 0"),
        errors: INSTR,
    },
    RefusedFile {
        text: file_with_buffer_call!("mwrite m9 0"),
        errors: NAME,
    },
    RefusedFile {
        text: file_with_buffer_call!("mwrite b0 0"),
        errors: NAME,
    },
    RefusedFile {
        text: file_with_buffer_call!("mwrite m0 r8"),
        errors: INSTR,
    },
    RefusedFile {
        text: file_with_buffer_call!("mread m9 4 max"),
        errors: NAME,
    },
    RefusedFile {
        text: file_with_buffer_call!("mread m9 0 max"),
        errors: INSTR,
    },
    RefusedFile {
        text: file_with_buffer_call!("mread m0 257 max"),
        errors: INSTR,
    },
    RefusedFile {
        text: file_with_buffer_call!("mread m0 4"),
        errors: INSTR,
    },
    RefusedFile {
        text: file_with_buffer_call!("mreset m9"),
        errors: NAME,
    },
    RefusedFile {
        text: file_with_buffer_call!("mreset"),
        errors: INSTR,
    },
    RefusedFile {
        text: file_with_buffer_call!("mspaces b0"),
        errors: NAME,
    },
    RefusedFile {
        text: file_with_buffer_call!("mspaces m0 0"),
        errors: INSTR,
    },
    RefusedFile {
        text: file_with_buffer_call!("mnext m9"),
        errors: NAME,
    },
    RefusedFile {
        text: file_with_buffer_call!("mnext m0 0"),
        errors: INSTR,
    },
];

// An application of buffers is refused by its first fault. Shows `read_app`: `exact`.
#[test]
fn refused_buffers(rt: HostRuntime) -> Result<(), Fail> {
    assert_refused(&rt, &REFUSED_STREAMS)?;
    assert_refused(&rt, &REFUSED_MESSAGES)?;
    assert_refused(&rt, &REFUSED_BUFFER_CALLS)
}
