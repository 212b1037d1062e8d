//! The notification entries of a task.

ghost use Rattle.std.specs.Prelude.{◌≡◌, ◌↔◌, IsTrue, ◌<◌, ◌≤◌, true, false, length, replicate};
ghost use Rattle.std.specs.Prelude.{slice_get, slice_index_or, slice_set, None, Some};
ghost use Rattle.rd_notify.specs.Entries.{entry_cleared, entry_idle, entry_notified, entry_taken};
ghost use Rattle.rd_notify.specs.Entries.{entry_waiting, idle_entry, is_left_alone};

use crate::action::{Action, OnExit};
use arrayvec::ArrayVec;
use std::marker::Model;

/// How many notification entries a task has at the most.
pub const MAX_ENTRIES: usize = 4;

/// What has become of a notification entry since its task last looked at it.
#[derive(Clone, Copy, Default, PartialEq, Eq)]
pub enum EntryState {
    /// Nothing has come, and its task doesn't wait for it.
    #[default]
    Idle,
    /// Its task waits for it.
    Waiting,
    /// Something has come that its task hasn't taken yet.
    Received,
}

/// One notification entry of a task.
#[derive(Clone, Copy, Default, PartialEq, Eq)]
pub struct Entry {
    pub value: u32,
    pub state: EntryState,
}

impl Entry {
    /// Whether the other entry is equal.
    pub fn same(self, other: Entry) -> bool
        ensures { IsTrue result ↔ (self ≡ other) }
    {
        self == other
    }

    /// The entry as a notification leaves it; none where it is left alone, so that nothing is
    /// overwritten (`xTaskNotifyGenericIndexed`).
    pub fn notified(self, action: Action, value: u32) -> Option<Entry>
        ensures left_alone { is_left_alone action self.state ≡ true → result ≡ None }
        ensures notified { is_left_alone action self.state ≡ false
            → result ≡ Some (entry_notified action value self) }
    {
        if action == Action::WithoutOverwrite && self.state == EntryState::Received {
            return None;
        }
        Some(Entry {
            value: action.value(self.value, value),
            state: EntryState::Received,
        })
    }

    /// The entry, once its task waits for it.
    pub fn waiting(self) -> Entry
        ensures { result ≡ entry_waiting self }
    {
        Entry {
            state: EntryState::Waiting,
            ..self
        }
    }

    /// The entry, once its task has looked at it.
    pub fn idle(self) -> Entry
        ensures { result ≡ entry_idle self }
    {
        Entry {
            state: EntryState::Idle,
            ..self
        }
    }

    /// The entry, once its task has taken the value (`ulTaskGenericNotifyTake`).
    pub fn taken(self, exit: OnExit) -> Entry
        ensures { result ≡ entry_taken exit self }
    {
        Entry {
            value: exit.value(self.value),
            state: EntryState::Idle,
        }
    }

    /// The entry without these bits of its value (`ulTaskGenericNotifyValueClear`).
    pub fn cleared(self, bits: u32) -> Entry
        ensures { result ≡ entry_cleared bits self }
    {
        Entry {
            value: self.value & !bits,
            ..self
        }
    }
}

/// The notification entries of one task, 1 to 4 of them, counted from 0
/// (`configTASK_NOTIFICATION_ARRAY_ENTRIES`).
#[derive(Drop)]
pub struct Notes {
    entries: ArrayVec<Entry, MAX_ENTRIES>,
}

impl Model for Notes {
    ghost use Rattle.std.specs.Prelude.{List};
    ghost use Rattle.rd_notify.specs.declared.entries.Entry.{Entry};

    ghost Value = { List Entry };

    ghost view = { λ n. n.entries.items };
}

impl Notes {
    /// `count` entries of value 0, all idle.
    pub fn new(count: usize) -> Notes
        requires { count ≤ MAX_ENTRIES }
        ensures { result ≡ replicate count idle_entry }
    {
        let mut entries = ArrayVec::new();
        for _ in 0..count {
            entries.push(Entry {
                value: 0,
                state: EntryState::Idle,
            });
        }
        Notes { entries }
    }

    /// Equal entries.
    pub fn copy(&self) -> Notes
        ensures { result ≡ self.now }
    {
        let mut entries = ArrayVec::new();
        entries
            .try_extend_from_slice(self.entries.as_slice())
            .unwrap();
        Notes { entries }
    }

    /// Whether the other entries are equal, one by one.
    pub fn same(&self, other: &Notes) -> bool
        ensures { IsTrue result ↔ (self.now ≡ other.now) }
    {
        self.entries.as_slice() == other.entries.as_slice()
    }

    /// How many entries there are.
    pub fn len(&self) -> usize
        ensures len { result ≡ length self.now }
        ensures few { result ≤ MAX_ENTRIES }
    {
        self.entries.len()
    }

    /// The entry at `index`.
    pub fn entry(&self, index: usize) -> Entry
        requires { index < length self.now }
        ensures there { slice_get self.now index ≡ Some result }
        ensures entry { result ≡ slice_index_or self.now index idle_entry }
    {
        self.entries[index]
    }

    /// Puts an entry in the place of the one at `index`.
    pub fn set_entry(&mut self, index: usize, entry: Entry)
        requires { index < length self.old }
        ensures { self.new ≡ slice_set self.old index entry }
    {
        self.entries[index] = entry;
    }

    /// All entries, in order.
    pub fn as_slice(&self) -> &[Entry]
        ensures { result.now ≡ self.now }
    {
        self.entries.as_slice()
    }
}

/// For contracts alone: how many notification entries a task has at the most, as a number.
pub fn limit_of_entries()
    ensures { MAX_ENTRIES ≡ 4 }
{}
