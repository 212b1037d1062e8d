//! What a notification does to the value of an entry, and what a task does that takes it.

ghost use Rattle.std.specs.Prelude.{◌≡◌};
ghost use Rattle.rd_notify.specs.Entries.{value_left, value_notified};
ghost use Rattle.rd_notify.specs.Words.{action_of};

/// What a notification does to the value of its entry (`eNotifyAction`).
#[derive(Clone, Copy, PartialEq, Eq)]
pub enum Action {
    /// The value stays (`eNoAction`).
    LeaveValue,
    /// Bits are set in it (`eSetBits`).
    SetBits,
    /// It grows by one, modulo 2^32 (`eIncrement`).
    Increment,
    /// Another takes its place (`eSetValueWithOverwrite`).
    Overwrite,
    /// Another takes its place, unless the entry has received (`eSetValueWithoutOverwrite`).
    WithoutOverwrite,
}

impl Action {
    /// The value that it makes of `old`, with the value that is sent along.
    pub fn value(self, old: u32, value: u32) -> u32
        ensures { result ≡ value_notified self old value }
    {
        match self {
            Action::LeaveValue => old,
            Action::SetBits => old | value,
            Action::Increment => old.wrapping_add(1),
            Action::Overwrite | Action::WithoutOverwrite => value,
        }
    }
}

/// The action that a word of a script or a command stands for: `none`, `bits`, `inc`, `set` or
/// `setif`. `None` exactly where it is no such word.
pub fn action_of(word: &[u8]) -> Option<Action>
    ensures { result ≡ action_of word.now }
{
    match word {
        b"none" => Some(Action::LeaveValue),
        b"bits" => Some(Action::SetBits),
        b"inc" => Some(Action::Increment),
        b"set" => Some(Action::Overwrite),
        b"setif" => Some(Action::WithoutOverwrite),
        _ => None,
    }
}

/// What a task that takes a value leaves of it (`xClearCountOnExit`).
#[derive(Clone, Copy)]
pub enum OnExit {
    /// Nothing: it becomes 0.
    Clear,
    /// One less, and 0 stays 0.
    Decrement,
}

impl OnExit {
    /// What is left of a value.
    pub fn value(self, value: u32) -> u32
        ensures { result ≡ value_left self value }
    {
        match self {
            OnExit::Clear => 0,
            OnExit::Decrement => value.saturating_sub(1),
        }
    }
}
