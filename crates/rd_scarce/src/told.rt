//! Replies against their texts.

use rd_desk::reply::DeskReply;
use rd_ends::over::Over;
use rd_session::render::render;
use std::io;
use std::io::{ErrorKind, Write};

// Takes these bytes, and no others. It takes no memory.
#[derive(Drop)]
struct Expected<'a> {
    rest: &'a [u8],
}

impl Write for Expected<'_> {
    fn write(&mut self, bytes: &[u8]) -> io::Result<usize> {
        match self.rest.strip_prefix(bytes) {
            Some(rest) => {
                self.rest = rest;
                Ok(bytes.len())
            }
            None => Err(io::Error::from(ErrorKind::InvalidData)),
        }
    }

    fn flush(&mut self) -> io::Result<()> {
        Ok(())
    }
}

/// Whether the line of the reply is this text. It takes no memory.
pub fn is_told(reply: &DeskReply, text: &str) -> bool {
    let mut sink = Over::new(Expected {
        rest: text.as_bytes(),
    });
    render(reply, &mut sink).is_ok() && sink.inner.rest.is_empty()
}
