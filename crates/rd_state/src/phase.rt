//! What a task is doing, and where it can wait.

ghost use Rattle.std.specs.Prelude.{◌≡◌};
ghost use Rattle.rd_state.specs.Phases.{given_bits, is_first, kept_deadline, tries_again, waits_at};

use rd_queue::waiting_list::WaitingList;
use rd_stream::side::Side;

/// What a task is doing.
#[derive(Clone, Copy, PartialEq, Eq)]
pub enum Phase {
    /// It runs, or is ready to.
    Run,
    /// It was woken, and tries its call again when it runs. The deadline is a tick, or none.
    Again { deadline: Option<u64> },
    /// It waited at an event group, whose bits met its wish: its call returns these bits, as they
    /// were when they met it.
    Given { bits: u32 },
    /// It waits at a place for as long as its deadline, a tick, is ahead; without end where it has
    /// none.
    Wait { place: Place, deadline: Option<u64> },
    /// It has done `end`.
    Ended,
    /// Its call failed in a way that no value tells: it stays at the call, and never runs again.
    Failed { cause: Cause },
}

/// Why a call failed in a way that no value tells.
#[derive(Clone, Copy, PartialEq, Eq)]
pub enum Cause {
    /// An item was to be put into a member of a set that has no space for its handle.
    SetFull,
    /// It was to wait as the reader of a buffer, where another task does.
    TwoReaders,
    /// It was to wait as the writer of a buffer, where another task does.
    TwoWriters,
    /// Data of no bytes was to be written to a buffer.
    EmptyData,
    /// It was to set, clear or wait for bits that an event group doesn't have, or to wait for none.
    BadBits,
}

impl Phase {
    /// Whether a call of a task in this phase is at its first try.
    pub fn is_first(self) -> bool
        ensures { result ≡ is_first self }
    {
        match self {
            Phase::Run => true,
            Phase::Again { .. }
            | Phase::Given { .. }
            | Phase::Wait { .. }
            | Phase::Ended
            | Phase::Failed { .. } => false,
        }
    }

    /// Whether the task was woken from a call, which it tries again.
    pub fn tries_again(self) -> bool
        ensures { result ≡ tries_again self }
    {
        match self {
            Phase::Again { .. } => true,
            Phase::Run
            | Phase::Given { .. }
            | Phase::Wait { .. }
            | Phase::Ended
            | Phase::Failed { .. } => false,
        }
    }

    /// The place where the task waits, if it does.
    pub fn waits_at(self) -> Option<Place>
        ensures { result ≡ waits_at self }
    {
        match self {
            Phase::Wait { place, .. } => Some(place),
            Phase::Run
            | Phase::Again { .. }
            | Phase::Given { .. }
            | Phase::Ended
            | Phase::Failed { .. } => None,
        }
    }

    /// The bits that an event group gave the task, if its call has only to return them.
    pub fn given_bits(self) -> Option<u32>
        ensures { result ≡ given_bits self }
    {
        match self {
            Phase::Given { bits } => Some(bits),
            Phase::Run
            | Phase::Again { .. }
            | Phase::Wait { .. }
            | Phase::Ended
            | Phase::Failed { .. } => None,
        }
    }

    /// The deadline, a tick, that its call was given at the first try; none where there is none.
    pub fn kept_deadline(self) -> Option<u64>
        ensures { result ≡ kept_deadline self }
    {
        match self {
            Phase::Again { deadline } | Phase::Wait { deadline, .. } => deadline,
            Phase::Run | Phase::Given { .. } | Phase::Ended | Phase::Failed { .. } => None,
        }
    }
}

/// Where a task can wait.
#[derive(Clone, Copy, PartialEq, Eq)]
pub enum Place {
    /// In a list of tasks.
    Listed { list: Listed },
    /// As the reader or the writer of a buffer, which has a place for one of each. It is told
    /// through its entry 0.
    Held { held: Held },
    /// For a notification that comes to its own entry of that index. No list has it.
    Entry { index: usize },
}

/// The lists in which tasks wait.
#[derive(Clone, Copy, PartialEq, Eq)]
pub enum Listed {
    /// For an item of the queue, or for space in it.
    Queue { queue: usize, list: WaitingList },
    /// For a handle of the set.
    QueueSet { queue_set: usize },
    /// For bits of the event group, with a wish.
    Group { group: usize },
}

/// The places of buffers, each of which names one task or nobody.
#[derive(Clone, Copy, PartialEq, Eq)]
pub enum Held {
    /// Of a stream buffer.
    Stream { stream: usize, side: Side },
    /// Of a message buffer.
    Message { message: usize, side: Side },
}
