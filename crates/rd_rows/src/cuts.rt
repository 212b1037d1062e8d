//! Lines that come in pieces, cut anywhere.

use crate::memory::{MemorySource, Pieces};
use crate::rows::{ScriptedSession, UNDO_TO_BOOT, answers};
use crate::runs::{EDIT_FORGETS_THE_UNDONE, EDIT_FORGETS_THE_UNDONE_REPLIES};
use crate::watches::{WATCHES, WATCHES_REPLIES};
use std::alloc::AllocGlobal;
use std::net::{Net, TcpListener, TcpStream};
use std::process::Abort;
use std::rt::Files;
use std::sync::Wait;
use std::thread::Threads;
use std::time::Clock;

const SCRIPTS: [ScriptedSession; 3] = [
    UNDO_TO_BOOT,
    ScriptedSession {
        name: "edit_forgets_the_undone",
        lines: EDIT_FORGETS_THE_UNDONE,
        replies: EDIT_FORGETS_THE_UNDONE_REPLIES,
    },
    ScriptedSession {
        name: "watches",
        lines: WATCHES,
        replies: WATCHES_REPLIES,
    },
];

// However many bytes a read brings, the answers are the same.
fn assert_each_chunk<H>(rt: &H, name: &str, lines: &[u8], replies: &[u8])
where
    H: Files + AllocGlobal + Abort + Wait + Sync + Threads + Clock,
    H: Net<Listener = TcpListener, Stream = TcpStream>,
{
    for chunk in 1..=lines.len() {
        let mut source = MemorySource::new(lines);
        source.chunk = chunk;
        let found = answers(rt, &mut source);
        assert_eq!(rt; found.as_slice(), replies, "{name}, {chunk} a read");
    }
}

// Wherever the lines are cut in two, the answers are the same.
fn assert_each_cut<H>(rt: &H, name: &str, lines: &[u8], replies: &[u8])
where
    H: Files + AllocGlobal + Abort + Wait + Sync + Threads + Clock,
    H: Net<Listener = TcpListener, Stream = TcpStream>,
{
    for cut in 1..lines.len() {
        let (front, behind) = lines.split_at(cut.min(lines.len()));
        let mut reader = Pieces {
            pieces: &[front, behind],
            calls: 0,
        };
        let found = answers(rt, &mut reader);
        assert_eq!(rt; found.as_slice(), replies, "{name}, cut at {cut}");
    }
}

// All lines that were read are answered, in their order, in one piece, byte by byte and cut
// anywhere; so is a last line without its LF. Shows `session`: `heard` (`Talks`, `lines_of`).
#[test]
fn each_cut(rt: HostRuntime) {
    for script in &SCRIPTS {
        let ScriptedSession {
            name,
            lines,
            replies,
        } = *script;
        assert_each_chunk(&rt, name, lines.as_bytes(), replies.as_bytes());
        assert_each_cut(&rt, name, lines.as_bytes(), replies.as_bytes());
        let Some(unfinished) = lines.strip_suffix("\n") else {
            panic!(&rt; "the last line has no LF");
        };
        assert_each_chunk(&rt, name, unfinished.as_bytes(), replies.as_bytes());
    }
}
