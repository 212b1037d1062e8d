//! The lines of an input, of which none is kept but the last.

use crate::fault::ReachFault;
use std::alloc::Global;
use std::io::{BufRead, BufReader, ErrorKind, Read};
use std::{io, str};

/// How many bytes a line has at the most, without the LF at its end.
pub(crate) const MAX_LINE: usize = 1_000_000;

/// What was heard.
#[derive(Clone, Copy)]
pub(crate) enum HeardInput {
    /// A line.
    Line,
    /// The beginning of a line that is too long. The rest of it is passed over.
    TooLong,
    /// The beginning of a line that there is no memory for. The rest of it is passed over.
    NoMemory,
    /// Nothing: the input is at its end.
    End,
}

/// The lines of an input, and the last one that was heard.
#[derive(Drop)]
pub(crate) struct Input<'a, R: Read> {
    reader: BufReader<&'a mut R>,
    line: Vec<u8>,
    is_amid: bool,
}

// Reads to the end of a line, or one byte more than one has at the most.
fn read_line<B: BufRead>(reader: &mut B, line: &mut Vec<u8>) -> io::Result<usize> {
    let mut front = reader.take(MAX_LINE as u64 + 1);
    front.read_until(b'\n', line)
}

// What was heard, by the bytes that were read: a line without its LF, unless it is too long.
fn heard_in(line: &mut Vec<u8>) -> HeardInput {
    if line.last() == Some(&b'\n') {
        line.pop();
        return HeardInput::Line;
    }
    if line.len() > MAX_LINE {
        return HeardInput::TooLong;
    }
    if line.is_empty() {
        HeardInput::End
    } else {
        HeardInput::Line
    }
}

impl<'a, R: Read> Input<'a, R> {
    /// Nothing was heard yet. `NoMemory` where there is none to hear anything.
    pub(crate) fn new(alloc: Global, reader: &'a mut R) -> Result<Input<'a, R>, ReachFault> {
        match BufReader::new(alloc, reader) {
            Ok(reader) => Ok(Input {
                reader,
                line: Vec::new(alloc),
                is_amid: false,
            }),
            Err(_) => Err(ReachFault::NoMemory),
        }
    }

    // Passes over the rest of a line, where it isn't at its end.
    fn pass_rest(&mut self) -> io::Result<()> {
        if self.is_amid {
            self.reader.skip_until(b'\n')?;
        }
        self.is_amid = false;
        Ok(())
    }

    /// Hears the next line. The last one needs no LF. `Unread` where the input can't be read.
    pub(crate) fn hear(&mut self) -> Result<HeardInput, ReachFault> {
        if self.pass_rest().is_err() {
            return Err(ReachFault::Unread);
        }
        self.line.clear();
        let heard = match read_line(&mut self.reader, &mut self.line) {
            Ok(_) => heard_in(&mut self.line),
            Err(error) if error.kind() == ErrorKind::OutOfMemory => HeardInput::NoMemory,
            Err(_) => return Err(ReachFault::Unread),
        };
        self.is_amid = match heard {
            HeardInput::TooLong | HeardInput::NoMemory => true,
            HeardInput::Line | HeardInput::End => false,
        };
        Ok(heard)
    }

    /// The line that was heard last. `NoLineText` where it is no text.
    pub(crate) fn text(&self) -> Result<&str, ReachFault> {
        match str::from_utf8(self.line.as_slice()) {
            Ok(text) => Ok(text),
            Err(_) => Err(ReachFault::NoLineText),
        }
    }
}
