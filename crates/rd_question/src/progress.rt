//! What is told while a search goes on.

use rd_answer::onlooker::Onlooker;
use rd_reach::answer::{SearchCounts, Watch};
use std::io;
use std::io::Write;

/// Tells what a search went through each time that it sees it, where that is wanted.
#[derive(Drop)]
pub(crate) struct Progress<'a, E: Write> {
    errors: &'a mut E,
    is_told: bool,
    surprises: Option<u8>,
}

impl<'a, E: Write> Progress<'a, E> {
    /// No bound of surprises was said yet.
    pub(crate) fn new(errors: &'a mut E, is_told: bool) -> Progress<'a, E> {
        Progress {
            errors,
            is_told,
            surprises: None,
        }
    }
}

impl<'a, E: Write> Watch for Progress<'a, E> {
    fn sees(&mut self, counts: &SearchCounts) {
        if self.is_told {
            // (Nobody is left to be told that the telling failed.)
            let _ = tell_progress(self.errors, self.surprises, counts);
        }
    }
}

impl<'a, E: Write> Onlooker for Progress<'a, E> {
    fn narrows(&mut self, surprises: u8) {
        self.surprises = Some(surprises);
    }
}

// How far a search is, in a line: within how many moves all was gone through, and with how many
// surprises, where others were left out.
fn tell_progress<E: Write>(
    errors: &mut E,
    surprises: Option<u8>,
    counts: &SearchCounts,
) -> io::Result<()> {
    write!(errors, "progress within {}", counts.within)?;
    if let Some(surprises) = surprises {
        write!(errors, " and {surprises} surprises")?;
    }
    writeln!(
        errors,
        " states {} moves {} deepest {} bytes {}",
        counts.states, counts.moves, counts.deepest, counts.bytes
    )
}
