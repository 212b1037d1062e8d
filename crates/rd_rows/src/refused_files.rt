//! Application files that are refused, and what the program says of each: those of queues, queue
//! sets and notifications.

use crate::programs::{assert_ending, run_file};
use std::alloc::AllocGlobal;
use std::net::{Net, TcpListener, TcpStream};
use std::process::Abort;
use std::rt::Files;
use std::sync::Wait;
use std::test::Fail;
use std::thread::Threads;
use std::time::Clock;

// The file of one core, the queue q0 for two items of one byte, and the task t0 with this code.
macro_rules! file_with_code {
    ($code:literal) => {
        concat!(
            r#"{"profile":1,"cores":1,"queues":[{"name":"q0","length":2,"item":1}],"#,
            r#""tasks":[{"name":"t0","priority":1,"code":["#,
            $code,
            "]}]}"
        )
    };
}

// The file of two queues with these sets.
macro_rules! file_with_queue_sets {
    ($queue_sets:literal) => {
        concat!(
            r#"{"profile":1,"cores":1,"queues":[{"name":"q0","length":1,"item":1},"#,
            r#"{"name":"q1","length":1,"item":1}],"sets":["#,
            $queue_sets,
            r#"],"tasks":[{"name":"t0","priority":1,"code":["end"]}]}"#
        )
    };
}

// The file of two tasks with two notifications each, of which t0 has this code.
macro_rules! file_with_two_notes {
    ($code:literal) => {
        concat!(
            r#"{"profile":1,"cores":1,"notes":2,"tasks":[{"name":"t0","priority":1,"code":["#,
            $code,
            r#"]},{"name":"t1","priority":1,"code":["end"]}]}"#
        )
    };
}

// What the program writes to its errors, by the fault that it finds.
pub(crate) const NOT_JSON: &str = "rdbg: application refused: L1 NotJson\n";

pub(crate) const SHAPE: &str = "rdbg: application refused: L2 Shape\n";

pub(crate) const LIMIT: &str = "rdbg: application refused: L3 Limit\n";

pub(crate) const NAME: &str = "rdbg: application refused: L4 Name\n";

pub(crate) const INSTR: &str = "rdbg: application refused: L5 Instr\n";

pub(crate) const OVERWRITE_LENGTH: &str = "rdbg: application refused: L6 OverwriteLength\n";

// A file, and what is said of it.
#[derive(Clone, Copy)]
pub(crate) struct RefusedFile {
    pub(crate) text: &'static str,
    pub(crate) errors: &'static str,
}

pub(crate) fn assert_refused<H>(rt: &H, files: &[RefusedFile]) -> Result<(), Fail>
where
    H: Files + AllocGlobal + Abort + Wait + Sync + Threads + Clock,
    H: Net<Listener = TcpListener, Stream = TcpStream>,
{
    for file in files {
        let RefusedFile { text, errors } = *file;
        let ending = run_file(rt, "refused.json", text.as_bytes(), &[], "step 0\n")?;
        assert_ending(rt, &ending, 1, "", errors);
    }
    Ok(())
}

const REFUSED_FILES: [RefusedFile; 19] = [
    RefusedFile {
        text: concat!(
            r#"{"profile":1,"cores":1,"queues":[{"name":"q0","length":0,"item":1}],"#,
            r#""tasks":[{"name":"t0","priority":1,"code":["end"]}]}"#
        ),
        errors: LIMIT,
    },
    RefusedFile {
        text: r#"{"profile":1,"cores""#,
        errors: NOT_JSON,
    },
    RefusedFile {
        text: file_with_code!(r#""over q0","end""#),
        errors: OVERWRITE_LENGTH,
    },
    RefusedFile {
        text: file_with_code!(r#""over q9","end""#),
        errors: NAME,
    },
    RefusedFile {
        text: file_with_code!(r#""over q0 0","end""#),
        errors: INSTR,
    },
    RefusedFile {
        text: file_with_code!(r#""over q0","over q9","end""#),
        errors: OVERWRITE_LENGTH,
    },
    RefusedFile {
        text: file_with_code!(r#""over q9","over q0","end""#),
        errors: NAME,
    },
    RefusedFile {
        text: file_with_code!(r#""over q0","end 0""#),
        errors: OVERWRITE_LENGTH,
    },
    RefusedFile {
        text: file_with_code!(r#""qreset q0 0","end""#),
        errors: INSTR,
    },
    RefusedFile {
        text: file_with_code!(r#""count","end""#),
        errors: INSTR,
    },
    RefusedFile {
        text: file_with_code!(r#""peek q0","end""#),
        errors: INSTR,
    },
    RefusedFile {
        text: file_with_code!(r#""setadd q0 s0","end""#),
        errors: NAME,
    },
    RefusedFile {
        text: file_with_code!(r#""setdel q0","end""#),
        errors: INSTR,
    },
    RefusedFile {
        text: file_with_code!(r#""select s0 0","end""#),
        errors: NAME,
    },
    RefusedFile {
        text: file_with_code!(r#""select s0","end""#),
        errors: INSTR,
    },
    RefusedFile {
        text: file_with_code!(r#""send q9 0","end""#),
        errors: NAME,
    },
    RefusedFile {
        text: file_with_code!(r#""send q0","end""#),
        errors: INSTR,
    },
    RefusedFile {
        text: file_with_code!(r#""send q9 r8","end""#),
        errors: INSTR,
    },
    RefusedFile {
        text: r#"{"profile":1,"cores":1,"queues":[{"name":"q0","length":2,"item":1}]}"#,
        errors: SHAPE,
    },
];

const REFUSED_QUEUE_SETS: [RefusedFile; 8] = [
    RefusedFile {
        text: file_with_queue_sets!(r#"{"name":"s0","length":1,"members":["q2"]}"#),
        errors: NAME,
    },
    RefusedFile {
        text: file_with_queue_sets!(r#"{"name":"s0","length":1,"members":["q0","q0"]}"#),
        errors: NAME,
    },
    RefusedFile {
        text: file_with_queue_sets!(
            r#"{"name":"s0","length":1,"members":["q0"]},{"name":"s1","length":1,"members":["q0"]}"#
        ),
        errors: NAME,
    },
    RefusedFile {
        text: file_with_queue_sets!(
            r#"{"name":"s0","length":1,"members":[]},{"name":"s0","length":1,"members":[]}"#
        ),
        errors: NAME,
    },
    RefusedFile {
        text: file_with_queue_sets!(r#"{"name":"s0","length":0,"members":["q2"]}"#),
        errors: LIMIT,
    },
    RefusedFile {
        text: file_with_queue_sets!(r#"{"name":"s0","length":2049,"members":[]}"#),
        errors: LIMIT,
    },
    RefusedFile {
        text: file_with_queue_sets!(r#"{"name":"s0","length":1}"#),
        errors: SHAPE,
    },
    RefusedFile {
        text: file_with_queue_sets!(r#"{"name":"s0","length":1,"members":[7]}"#),
        errors: SHAPE,
    },
];

const REFUSED_NOTIFICATIONS: [RefusedFile; 23] = [
    RefusedFile {
        text: file_with_two_notes!(r#""notify t2 0 5 set","end""#),
        errors: NAME,
    },
    RefusedFile {
        text: file_with_two_notes!(r#""notify t1 2 5 set","end""#),
        errors: INSTR,
    },
    RefusedFile {
        text: file_with_two_notes!(r#""notify t1 0 5 max","end""#),
        errors: INSTR,
    },
    RefusedFile {
        text: file_with_two_notes!(r#""notify t1 0 5","end""#),
        errors: INSTR,
    },
    RefusedFile {
        text: file_with_two_notes!(r#""notify t2 0 5 swap","end""#),
        errors: INSTR,
    },
    RefusedFile {
        text: file_with_two_notes!(r#""query t2 1 5 inc","end""#),
        errors: NAME,
    },
    RefusedFile {
        text: file_with_two_notes!(r#""query t1 2 5 inc","end""#),
        errors: INSTR,
    },
    RefusedFile {
        text: file_with_two_notes!(r#""query t1 1 inc","end""#),
        errors: INSTR,
    },
    RefusedFile {
        text: file_with_two_notes!(r#""take 2 clear 0","end""#),
        errors: INSTR,
    },
    RefusedFile {
        text: file_with_two_notes!(r#""take 1 none 0","end""#),
        errors: INSTR,
    },
    RefusedFile {
        text: file_with_two_notes!(r#""take 1 dec","end""#),
        errors: INSTR,
    },
    RefusedFile {
        text: file_with_two_notes!(r#""nwait 2 0 0 max","end""#),
        errors: INSTR,
    },
    RefusedFile {
        text: file_with_two_notes!(r#""nwait 1 0 max 0","end""#),
        errors: INSTR,
    },
    RefusedFile {
        text: file_with_two_notes!(r#""nwait 1 0 0","end""#),
        errors: INSTR,
    },
    RefusedFile {
        text: file_with_two_notes!(r#""nclear t2 1","end""#),
        errors: NAME,
    },
    RefusedFile {
        text: file_with_two_notes!(r#""nclear t1 2","end""#),
        errors: INSTR,
    },
    RefusedFile {
        text: file_with_two_notes!(r#""nclear t1","end""#),
        errors: INSTR,
    },
    RefusedFile {
        text: file_with_two_notes!(r#""vclear t2 1 0","end""#),
        errors: NAME,
    },
    RefusedFile {
        text: file_with_two_notes!(r#""vclear t1 2 0","end""#),
        errors: INSTR,
    },
    RefusedFile {
        text: file_with_two_notes!(r#""vclear t2 1 r8","end""#),
        errors: INSTR,
    },
    RefusedFile {
        text: file_with_code!(r#""notify t0 1 5 set","end""#),
        errors: INSTR,
    },
    RefusedFile {
        text: concat!(
            r#"{"profile":1,"cores":1,"notes":0,"#,
            r#""tasks":[{"name":"t0","priority":1,"code":["end"]}]}"#
        ),
        errors: LIMIT,
    },
    RefusedFile {
        text: concat!(
            r#"{"profile":1,"cores":1,"notes":5,"#,
            r#""tasks":[{"name":"t0","priority":1,"code":["end"]}]}"#
        ),
        errors: LIMIT,
    },
];

// An application is refused by its first fault, and the program says which. Shows `read_app`:
// `exact`.
#[test]
fn refused_files(rt: HostRuntime) -> Result<(), Fail> {
    assert_refused(&rt, &REFUSED_FILES)?;
    assert_refused(&rt, &REFUSED_QUEUE_SETS)?;
    assert_refused(&rt, &REFUSED_NOTIFICATIONS)
}
