//! How often memory was refused.

use std::fmt;

/// How often a call is made until it isn't refused any more. (One allocation fails, so the second
/// time it must do.)
pub const TRIES: usize = 2;

/// What was tried, and refused.
#[derive(Clone, Copy, Debug, PartialEq, Eq)]
pub enum Tried {
    /// To make what a call takes: an application, lists, the memory of a session.
    Making,
    /// A copy of the target, to compare it with later.
    Copy,
    /// To open a hall, a timeline, or what a search starts from.
    Open,
    /// To join.
    Join,
    /// To ask, or a call of a timeline.
    Ask,
    /// An interrupt, by a call of a timeline.
    Interrupt,
    /// A search.
    Search,
}

impl Tried {
    fn word(self) -> &'static str {
        match self {
            Tried::Making => "making",
            Tried::Copy => "copy",
            Tried::Open => "open",
            Tried::Join => "join",
            Tried::Ask => "ask",
            Tried::Interrupt => "interrupt",
            Tried::Search => "search",
        }
    }
}

impl fmt::Display for Tried {
    fn fmt<W: fmt::Write>(&self, f: &mut fmt::Formatter<W>) -> fmt::Result {
        f.write_str(self.word())
    }
}

/// How often memory was refused, and for what at last.
#[derive(Clone, Copy)]
pub struct Refusals {
    times: u32,
    last: Option<Tried>,
}

impl Refusals {
    /// Never so far.
    pub fn none() -> Refusals {
        Refusals {
            times: 0,
            last: None,
        }
    }

    /// It was refused once more.
    pub fn note(&mut self, at: Tried) {
        self.times = self.times.saturating_add(1);
        self.last = Some(at);
    }

    /// It was refused so often more.
    pub fn note_all(&mut self, at: Tried, times: u32) {
        if times > 0 {
            self.times = self.times.saturating_add(times);
            self.last = Some(at);
        }
    }
}

impl fmt::Display for Refusals {
    fn fmt<W: fmt::Write>(&self, f: &mut fmt::Formatter<W>) -> fmt::Result {
        let last = match self.last {
            Some(at) => at.word(),
            None => "-",
        };
        write!(f, "{} refused: {last}", self.times)
    }
}
