//! A task of the target.

ghost use Rattle.std.specs.Prelude.{◌≡◌, ◌↔◌, ◌++◌, IsTrue, ◌<◌, ◌≤◌, [], length, replicate};
ghost use Rattle.std.specs.Prelude.{slice_index, slice_set, Some, IfOk};
ghost use Rattle.rd_bytes.specs.declared.bytes.TheConstants.{MAX_BYTES};
ghost use Rattle.rd_notify.specs.declared.entries.TheConstants.{MAX_ENTRIES};
ghost use Rattle.rd_state.specs.Boot.{fresh_task};

use crate::phase::Phase;
use rd_app::instr::REGISTERS;
use rd_bytes::bytes::Bytes;
use rd_notify::entries::{Entry, Notes};
use std::marker::Model;

/// A task of the target.
pub struct Task {
    pc: usize,
    registers: [u32; REGISTERS],
    bytes: Bytes,
    phase: Phase,
    entries: Notes,
}

// (Written out, so that a drop of one is a call: no proof elsewhere has to look into its parts.)
impl Drop for Task {
    fn drop(self) {
        let Task {
            pc: _,
            registers: _,
            bytes: _bytes,
            phase: _,
            entries: _entries,
        } = self;
    }
}

impl Model for Task {
    ghost use Rattle.rd_state.specs.Snapshot.{TaskSnapshot};

    ghost Value = { TaskSnapshot };

    ghost view = { λ t. record {
      pc = t.pc;
      registers = t.registers;
      bytes = t.bytes;
      phase = t.phase;
      entries = t.entries;
    } };
}

impl Task {
    /// A task at its first instruction, with that many idle notification entries.
    pub fn new(entries: usize) -> Task
        requires { entries ≤ MAX_ENTRIES }
        ensures { result ≡ fresh_task entries }
    {
        Task {
            pc: 0,
            registers: [0; REGISTERS],
            bytes: Bytes::new(),
            phase: Phase::Run,
            entries: Notes::new(entries),
        }
    }

    /// An equal task.
    pub fn copy(&self) -> Task
        ensures { result ≡ self.now }
    {
        Task {
            pc: self.pc,
            registers: self.registers,
            bytes: Bytes::from_slice(self.bytes.as_slice()),
            phase: self.phase,
            entries: self.entries.copy(),
        }
    }

    /// Whether the other task is equal, to the last field.
    pub fn same(&self, other: &Task) -> bool
        ensures { IsTrue result ↔ (self.now ≡ other.now) }
    {
        self.pc == other.pc
            && self.registers == other.registers
            && self.phase == other.phase
            && self.bytes.same(&other.bytes)
            && self.entries.same(&other.entries)
    }

    /// The number of the instruction that comes next.
    pub fn pc(&self) -> usize
        ensures { result ≡ self.now.pc }
    {
        self.pc
    }

    /// The registers.
    pub fn registers(&self) -> &[u32]
        ensures values { result.now ≡ self.now.registers }
        ensures eight { length result.now ≡ REGISTERS }
    {
        &self.registers
    }

    /// The value of a register.
    pub fn register(&self, register: usize) -> u32
        requires { register < REGISTERS }
        ensures { result ≡ slice_index self.now.registers register }
    {
        self.registers()[register]
    }

    /// The data.
    pub fn bytes(&self) -> &[u8]
        ensures bytes { result.now ≡ self.now.bytes }
        ensures few { length result.now ≤ MAX_BYTES }
    {
        self.bytes.as_slice()
    }

    /// What the task does.
    pub fn phase(&self) -> Phase
        ensures { result ≡ self.now.phase }
    {
        self.phase
    }

    /// The notification entries.
    pub fn entries(&self) -> &Notes
        ensures { result.now ≡ self.now.entries }
    {
        &self.entries
    }

    /// Moves the task to another instruction of its script.
    pub fn set_pc(&mut self, pc: usize)
        ensures { self.new ≡ record self.old { pc = pc } }
    {
        self.pc = pc;
    }

    /// Sets a register.
    pub fn set_register(&mut self, register: usize, value: u32)
        requires { register < REGISTERS }
        ensures { self.new
            ≡ record self.old { registers = slice_set self.old.registers register value } }
    {
        self.registers[register] = value;
    }

    /// Replaces the data.
    pub fn set_bytes(&mut self, bytes: &[u8])
        requires { length bytes.now ≤ MAX_BYTES }
        ensures { self.new ≡ record self.old { bytes = bytes.now } }
    {
        self.bytes.replace(bytes);
    }

    /// Replaces the data with bytes in two pieces that follow one another.
    pub fn set_halves(&mut self, front: &[u8], back: &[u8])
        requires { length (front.now ++ back.now) ≤ MAX_BYTES }
        ensures { self.new ≡ record self.old { bytes = front.now ++ back.now } }
    {
        self.bytes.replace_halves(front, back);
    }

    /// Puts an entry in the place of its notification entry at `index`.
    pub fn set_entry(&mut self, index: usize, entry: Entry)
        requires { index < length self.old.entries }
        ensures { self.new
            ≡ record self.old { entries = slice_set self.old.entries index entry } }
    {
        self.entries.set_entry(index, entry);
    }

    /// Puts the task into another phase.
    pub fn set_phase(&mut self, phase: Phase)
        ensures { self.new ≡ record self.old { phase = phase } }
    {
        self.phase = phase;
    }
}
