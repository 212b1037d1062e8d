//! A session over memory: it reads the lines of a run, and reads each again that was refused.

ghost use Rattle.std.specs.Prelude.{◌+◌, ◌≤◌, length, vec_capacity, vec_len};

use crate::before::HallHost;
use crate::refused::{Refusals, TRIES, Tried};
use crate::rows::{RUNS, ReplyRow};
use crate::sitting::join;
use crate::wrong::Wrong;
use rd_ends::over::Over;
use rd_hall::look::Look;
use rd_hall::seat::{Gone, Pass};
use rd_hall::setup::Setup;
use rd_session::buffers::Buffers;
use rd_session::gate::NoGate;
use rd_session::session::session;
use std::alloc::Global;
use std::cell::Cell;
use std::io;
use std::io::{Read, Write};
use std::sync::Wait;

// What a line is answered that was refused for want of memory.
const REFUSED: &[u8] = b"no NoMemory\n";

// How far a session has come: how many rows were answered, how often a line was refused, and what
// was wrong first.
#[derive(Drop)]
struct SessionProgress {
    answered: Cell<usize>,
    refused: Cell<u32>,
    wrong: Cell<Option<Wrong>>,
}

impl SessionProgress {
    fn new() -> SessionProgress {
        SessionProgress {
            answered: Cell::new(0),
            refused: Cell::new(0),
            wrong: Cell::new(None),
        }
    }

    // The row whose line is to be answered next. None where something was wrong.
    fn row(&self) -> Option<ReplyRow> {
        if self.wrong.get().is_some() {
            return None;
        }
        RUNS.get(self.answered.get()).copied()
    }

    // The row was answered.
    fn answer(&self) {
        self.answered.set(self.answered.get().saturating_add(1));
    }

    fn fail(&self, wrong: Wrong) {
        if self.wrong.get().is_none() {
            self.wrong.set(Some(wrong));
        }
    }

    // A line was refused once more.
    fn refuse(&self) {
        let times = self.refused.get().saturating_add(1);
        self.refused.set(times);
        if times as usize >= TRIES {
            self.fail(Wrong::RefusedTwice { at: Tried::Ask });
        }
    }

    // How it ended.
    fn end(&self) -> Result<(), Wrong> {
        match self.wrong.get() {
            Some(wrong) => Err(wrong),
            None if self.answered.get() < RUNS.len() => Err(Wrong::Ended),
            None => Ok(()),
        }
    }
}

// Gives the line of the next row, with its LF, and nothing once all rows were answered. What stood
// behind the lock at the read before must stand there still, where that line was refused.
#[derive(Drop)]
struct RowLines<'a, R: Wait, L: Setup> {
    host: HallHost<'a, R, L>,
    progress: &'a SessionProgress,
    refused: u32,
    before: Option<Look>,
}

impl<R: Wait, L: Setup> RowLines<'_, R, L> {
    // Looks behind the lock. Where a line was refused, nothing has changed since the read before.
    fn look(&mut self) {
        let before = self.before;
        let after = self.host.hall.look(self.host.rt);
        let times = self.progress.refused.get();
        let was_refused = times != self.refused;
        self.before = Some(after);
        self.refused = times;
        if let Some(before) = before {
            if was_refused && before != after {
                let at = Tried::Ask;
                self.progress.fail(Wrong::Behind { at, before, after });
            }
        }
    }
}

// Puts a line at the front of the room, with its LF, and answers its length; nothing where there is
// no room.
fn put_line(room: &mut [u8], line: &[u8]) -> usize
    ensures { result ≤ length room.new }
{
    if line.len() >= room.len() {
        return 0;
    }
    room[..line.len()].copy_from_slice(line);
    room[line.len()] = b'\n';
    line.len() + 1
}

impl<R: Wait, L: Setup> Read for RowLines<'_, R, L> {
    fn read(&mut self, room: &mut [u8]) -> io::Result<usize> {
        self.look();
        match self.progress.row() {
            Some(row) => Ok(put_line(room, row.line.as_bytes())),
            None => Ok(0),
        }
    }
}

// Takes the answer to one line a write: the row's reply, or that there is no memory.
#[derive(Drop)]
struct RowAnswers<'a> {
    progress: &'a SessionProgress,
}

impl Write for RowAnswers<'_> {
    fn write(&mut self, bytes: &[u8]) -> io::Result<usize> {
        match self.progress.row() {
            Some(row) if bytes == row.reply.as_bytes() => self.progress.answer(),
            Some(_) if bytes == REFUSED => self.progress.refuse(),
            Some(row) => self.progress.fail(Wrong::Reply { line: row.line }),
            None => self.progress.fail(Wrong::Ended),
        }
        Ok(bytes.len())
    }

    fn flush(&mut self) -> io::Result<()> {
        Ok(())
    }
}

// The memory of a session, taken again where it was refused.
fn make_buffers(alloc: Global, refused: &mut Refusals) -> Result<Buffers, Wrong> {
    for _ in 0..TRIES {
        match Buffers::new(alloc) {
            Ok(buffers) => return Ok(buffers),
            Err(_) => refused.note(Tried::Making),
        }
    }
    Err(Wrong::RefusedTwice { at: Tried::Making })
}

/// A session joins, reads the lines of `runs_to_a_condition`, answers them, and leaves. A line that
/// is refused is answered so, and is the next one that it reads.
pub fn attend<R: Wait, L: Setup>(
    host: HallHost<'_, R, L>,
    pass: Pass<L>,
    gones: &mut Vec<Gone<L>>,
    refused: &mut Refusals,
) -> Result<(), Wrong>
    requires { vec_len gones.old + 1 ≤ vec_capacity gones.old }
{
    let mut buffers = make_buffers(host.alloc, refused)?;
    let progress = SessionProgress::new();
    let mut source = Over::new(RowLines {
        host,
        progress: &progress,
        refused: 0,
        before: None,
    });
    let mut sink = Over::new(RowAnswers {
        progress: &progress,
    });
    match join(host, pass, refused) {
        Ok(seat) => {
            let gone = session(
                host.rt,
                &mut source,
                &mut sink,
                host.hall,
                seat,
                &mut NoGate,
                &mut buffers,
            );
            gones.push_reserved(gone);
            refused.note_all(Tried::Ask, progress.refused.get());
            progress.end()
        }
        Err(wrong) => Err(wrong),
    }
}
