//! Why words are no goal, told to a person.

use crate::fault::ReachFault;
use rd_goal::reading::{NoGoal, Wanted};
use std::alloc::{AllocError, Global};

// What would be right where another word stands.
fn told(what: Wanted) -> &'static str {
    match what {
        Wanted::Claim => "a claim, 'not' or '(' is wanted there, as 'count QUEUE = 2' or 'asleep'",
        Wanted::Number => "a number of at most 4294967295 is wanted there",
        Wanted::Register => "a register is wanted there, 0 to 7",
        Wanted::Index => "the index of a notification entry is wanted there",
        Wanted::Instruction => "the number of an instruction of the task is wanted there",
        Wanted::Queue => "the name of a queue is wanted there",
        Wanted::QueueSet => "the name of a queue set is wanted there",
        Wanted::Stream => "the name of a stream buffer is wanted there",
        Wanted::Message => "the name of a message buffer is wanted there",
        Wanted::Group => "the name of an event group is wanted there",
        Wanted::Task => "the name of a task is wanted there",
        Wanted::Comparison => "'=', '<' or '>' is wanted there",
        Wanted::Phase =>
            "the name of a phase is wanted there: run, wait, again, given, ended, failed",
        Wanted::Place => {
            "a place where a task waits is wanted there: recv QUEUE, send QUEUE, select SET, \
             read BUFFER, write BUFFER, note INDEX or group GROUP"
        }
        Wanted::Join => "'and', 'or', ')' or the end is wanted there",
    }
}

// The word of this number, of which the first is 1.
fn word_at<'a>(words: &[&'a [u8]], at: usize) -> &'a str {
    match words.get(at.saturating_sub(1)) {
        Some(word) => std::str::from_utf8(word).unwrap_or(""),
        None => "",
    }
}

fn text_of(alloc: Global, words: &[&[u8]], error: &NoGoal) -> Result<String, AllocError> {
    match error {
        NoGoal::Wanted { what, at } => {
            format!(in alloc; "word {at}, '{}': {}", word_at(words, *at), told(*what))
        }
        NoGoal::Ends { what } => format!(in alloc; "it ends too early: {}", told(*what)),
        NoGoal::Either { at } => format!(in alloc;
            "word {at}, '{}': {error}: say sread, swrite, mread or mwrite",
            word_at(words, *at)
        ),
        NoGoal::Unopened { at } => format!(in alloc; "word {at}, ')': {error}"),
        NoGoal::Unclosed | NoGoal::TooLong | NoGoal::NoMemory => format!(in alloc; "{error}"),
    }
}

/// The refusal of words that are no goal.
pub(crate) fn refused_goal(alloc: Global, words: &[&[u8]], error: &NoGoal) -> ReachFault {
    match text_of(alloc, words, error) {
        Ok(text) => ReachFault::Goal { text },
        Err(_) => ReachFault::NoMemory,
    }
}
