//! What the program is told to do.

use std::fmt;
use std::io::Read;

/// Which run is done.
#[derive(Clone, Copy)]
pub enum RunKind {
    /// `runs_to_a_condition`, by the hall's calls.
    Hall,
    /// The same, by the timeline's calls.
    Timeline,
    /// Interrupts, by the timeline's calls.
    Interrupts,
    /// `the_wheel`, by the hall's calls.
    Wheel,
    /// `runs_to_a_condition`, by a session over memory.
    Session,
    /// A search that finds nothing.
    Search,
    /// A search that finds an order.
    Orders,
}

impl fmt::Display for RunKind {
    fn fmt<W: fmt::Write>(&self, f: &mut fmt::Formatter<W>) -> fmt::Result {
        f.write_str(match self {
            RunKind::Hall => "hall",
            RunKind::Timeline => "timeline",
            RunKind::Interrupts => "interrupts",
            RunKind::Wheel => "wheel",
            RunKind::Session => "session",
            RunKind::Search => "search",
            RunKind::Orders => "orders",
        })
    }
}

/// A run, and how many allocations are made and dropped before it.
#[derive(Clone, Copy)]
pub struct RunOrder {
    pub run: RunKind,
    pub wasted: usize,
}

impl RunOrder {
    /// The order that a line spells, if it spells one: a run and a number.
    pub fn read(line: &str) -> Option<RunOrder> {
        let (word, number) = line.split_once(' ')?;
        let run = match word {
            "hall" => RunKind::Hall,
            "timeline" => RunKind::Timeline,
            "interrupts" => RunKind::Interrupts,
            "wheel" => RunKind::Wheel,
            "session" => RunKind::Session,
            "search" => RunKind::Search,
            "orders" => RunKind::Orders,
            _ => return None,
        };
        let wasted = number.parse::<usize>().ok()?;
        Some(RunOrder { run, wasted })
    }
}

/// How many bytes of orders are read at the most.
pub const ROOM: usize = 256;

/// Reads text to its end, or as much as there is room for. `None` where a read fails, or where what
/// was read is no text.
pub fn read_text<'a, R: Read>(reader: &mut R, room: &'a mut [u8; ROOM]) -> Option<&'a str> {
    let mut end = 0;
    for _turn in 0..ROOM {
        if end == ROOM {
            break;
        }
        let count = reader.read(&mut room[end..]).ok()?;
        if count == 0 {
            break;
        }
        end += count;
    }
    str::from_utf8(&room[..end]).ok()
}
