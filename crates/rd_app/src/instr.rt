//! The instructions of a task's script.

ghost use Rattle.std.specs.Prelude.{◌≡◌};
ghost use Rattle.rd_app.specs.Application.{is_final, is_local_final, queue_call_of};

use rd_bytes::bytes::Bytes;
use rd_group::wish::{OnMet, WaitFor};
use rd_notify::action::{Action, OnExit};
use rd_queue::end::End;

/// How many registers a task has.
pub const REGISTERS: usize = 8;

/// The block time of a call that waits without end, written `max` (`portMAX_DELAY`).
pub const MAX_DELAY: u32 = u32::MAX;

/// An operand that is a number, or what a register holds when the instruction is done.
#[derive(Clone, Copy)]
pub enum Operand {
    /// This number.
    Number { value: u32 },
    /// The value of the register, 0 to 7.
    Register { register: usize },
}

/// An instruction that touches nothing but its own task. Registers are 0 to 7, the instructions of
/// a script are counted from 0.
#[derive(Drop)]
pub enum LocalInstr {
    /// `set R N`: the register becomes the value.
    Set { register: usize, value: u32 },
    /// `add R N`: the register grows by the value, modulo 2^32.
    Add { register: usize, value: u32 },
    /// `move R R`: the first register becomes the second's value.
    Move { into: usize, from: usize },
    /// `data HEX`: the task's data becomes these bytes.
    Data { bytes: Bytes },
    /// `pack R`: the data becomes the register's four bytes, lowest first.
    Pack { register: usize },
    /// `unpack R`: the register becomes the data's first four bytes, lowest first, missing ones 0.
    Unpack { register: usize },
    /// `jump L`: the script goes on at the target.
    Jump { target: usize },
    /// `jumpz R L`: the script goes on at the target if the register is 0.
    JumpZero { register: usize, target: usize },
    /// `end`: the task has ended.
    End,
}

/// A call of a queue.
#[derive(Clone, Copy)]
pub enum QueueCall {
    /// `send Q T`, `front Q T`: puts the data at the queue's back, or at its front, and waits for
    /// space up to the block time (`xQueueSend`, `xQueueSendToFront`).
    Send { end: End, wait: Operand },
    /// `recv Q T`: takes the queue's first item as the data, and waits for one up to the block time
    /// (`xQueueReceive`).
    Receive { wait: Operand },
    /// `peek Q T`: copies the queue's first item as the data, and waits for one up to the block
    /// time (`xQueuePeek`).
    Peek { wait: Operand },
    /// `over Q`: puts the data into a queue with room for one item, in the place of the item that
    /// is there (`xQueueOverwrite`).
    Overwrite,
    /// `qreset Q`: empties the queue (`xQueueReset`).
    Reset,
    /// `count Q`: the number of items (`uxQueueMessagesWaiting`).
    Count,
    /// `spaces Q`: the number of free slots (`uxQueueSpacesAvailable`).
    Spaces,
    /// `setadd Q S`: makes the queue a member of the set (`xQueueAddToSet`).
    AddToSet { queue_set: usize },
    /// `setdel Q S`: the queue is no longer a member of the set (`xQueueRemoveFromSet`).
    RemoveFromSet { queue_set: usize },
}

/// A call of a queue set.
#[derive(Clone, Copy)]
pub enum QueueSetCall {
    /// `select S T`: takes the set's first handle, that of a member with an item, and waits for one
    /// up to the block time (`xQueueSelectFromSet`).
    Select { wait: Operand },
}

/// A call of a stream buffer.
#[derive(Clone, Copy)]
pub enum StreamCall {
    /// `swrite B T`: puts as many bytes of the data into the buffer as it has space for, and waits
    /// for space for all of them up to the block time (`xStreamBufferSend`).
    Write { wait: Operand },
    /// `sread B ROOM T`: takes the buffer's first bytes as the data, `room` of them at the most,
    /// and waits for some up to the block time (`xStreamBufferReceive`).
    Read { room: usize, wait: Operand },
    /// `sreset B`: empties the buffer (`xStreamBufferReset`).
    Reset,
    /// `strig B V`: sets the trigger level (`xStreamBufferSetTriggerLevel`).
    SetTrigger { trigger: Operand },
    /// `scount B`: the number of bytes (`xStreamBufferBytesAvailable`).
    Count,
    /// `sspaces B`: for how many bytes there is space (`xStreamBufferSpacesAvailable`).
    Spaces,
}

/// A call of a message buffer.
#[derive(Clone, Copy)]
pub enum MessageCall {
    /// `mwrite M T`: puts the data into the buffer as one message, and waits for space up to the
    /// block time (`xMessageBufferSend`).
    Write { wait: Operand },
    /// `mread M ROOM T`: takes the buffer's first message as the data, if it has `room` bytes at
    /// the most, and waits for one up to the block time (`xMessageBufferReceive`).
    Read { room: usize, wait: Operand },
    /// `mreset M`: empties the buffer (`xMessageBufferReset`).
    Reset,
    /// `mspaces M`: for how many bytes there is space (`xMessageBufferSpacesAvailable`).
    Spaces,
    /// `mnext M`: the number of bytes of the first message (`xMessageBufferNextLengthBytes`).
    NextLength,
}

/// A call of an event group. Its bits are 24, 0 to 16,777,215 as a number.
#[derive(Clone, Copy)]
pub enum GroupCall {
    /// `gset G V`: sets bits, and gives them to all whose wishes they meet
    /// (`xEventGroupSetBits`).
    Set {
        bits: Operand,
    },
    /// `gclear G V`: clears bits (`xEventGroupClearBits`).
    Clear {
        bits: Operand,
    },
    /// `gget G`: the bits (`xEventGroupGetBits`).
    Get,
    /// `gwait G V any|all keep|clear T`: waits for any or for all of some bits up to the block
    /// time, and clears them then or keeps them (`xEventGroupWaitBits`).
    Wait {
        bits: Operand,
        wait_for: WaitFor,
        on_met: OnMet,
        wait: Operand,
    },
    /// `gsync G V V T`: sets bits, waits for all of others up to the block time, and clears those
    /// (`xEventGroupSync`).
    Sync {
        set: Operand,
        bits: Operand,
        wait: Operand,
    },
}

/// A call that notifies a task, or looks at an entry of a task. Tasks and the entries of each are
/// counted from 0.
#[derive(Clone, Copy)]
pub enum NotifyCall {
    /// `notify K I V ACTION`: notifies the task through that entry (`xTaskNotifyIndexed`).
    Notify {
        task: usize,
        index: usize,
        value: Operand,
        action: Action,
    },
    /// `query K I V ACTION`: the same, and r1 becomes the entry's value before
    /// (`xTaskNotifyAndQueryIndexed`).
    Query {
        task: usize,
        index: usize,
        value: Operand,
        action: Action,
    },
    /// `take I clear T`, `take I dec T`: takes the value of an entry of its own, and waits for one
    /// that isn't 0 up to the block time (`ulTaskNotifyTakeIndexed`).
    Take {
        index: usize,
        exit: OnExit,
        wait: Operand,
    },
    /// `nwait I V V T`: waits for a notification of an entry of its own up to the block time,
    /// clears bits of the value before and after, and r1 becomes the value
    /// (`xTaskNotifyWaitIndexed`).
    Wait {
        index: usize,
        entry_bits: Operand,
        exit_bits: Operand,
        wait: Operand,
    },
    /// `nclear K I`: an entry of the task that has received is idle
    /// (`xTaskNotifyStateClearIndexed`).
    ClearState {
        task: usize,
        index: usize,
    },
    /// `vclear K I V`: clears bits of an entry's value (`ulTaskNotifyValueClearIndexed`).
    ClearValue {
        task: usize,
        index: usize,
        bits: Operand,
    },
}

/// One instruction of a task's script. Objects are counted from 0.
#[derive(Drop)]
pub enum Instr {
    /// One that touches nothing but its own task.
    Local {
        instr: LocalInstr,
    },
    /// A call of a queue.
    Queue {
        queue: usize,
        call: QueueCall,
    },
    /// A call of a queue set.
    QueueSet {
        queue_set: usize,
        call: QueueSetCall,
    },
    /// A call of a stream buffer.
    Stream {
        stream: usize,
        call: StreamCall,
    },
    /// A call of a message buffer.
    Message {
        message: usize,
        call: MessageCall,
    },
    /// A call of an event group.
    Group {
        group: usize,
        call: GroupCall,
    },
    /// A call that notifies a task, or looks at an entry.
    Notify {
        call: NotifyCall,
    },
}

impl LocalInstr {
    // Does the script never go on at the next instruction?
    fn is_final(&self) -> bool
        ensures { result ≡ is_local_final self.now }
    {
        match self {
            LocalInstr::Jump { .. } | LocalInstr::End => true,
            LocalInstr::Set { .. }
            | LocalInstr::Add { .. }
            | LocalInstr::Move { .. }
            | LocalInstr::Data { .. }
            | LocalInstr::Pack { .. }
            | LocalInstr::Unpack { .. }
            | LocalInstr::JumpZero { .. } => false,
        }
    }
}

impl Instr {
    /// Whether the script never goes on at the next instruction, so that it may be the last.
    pub fn is_final(&self) -> bool
        ensures { result ≡ is_final self.now }
    {
        match self {
            Instr::Local { instr } => instr.is_final(),
            Instr::Queue { .. }
            | Instr::QueueSet { .. }
            | Instr::Stream { .. }
            | Instr::Message { .. }
            | Instr::Group { .. }
            | Instr::Notify { .. } => false,
        }
    }

    /// The queue and the call, where this is a call of a queue.
    pub fn queue_call(&self) -> Option<(usize, QueueCall)>
        ensures { result ≡ queue_call_of self.now }
    {
        match self {
            Instr::Queue { queue, call } => Some((*queue, *call)),
            Instr::Local { .. }
            | Instr::QueueSet { .. }
            | Instr::Stream { .. }
            | Instr::Message { .. }
            | Instr::Group { .. }
            | Instr::Notify { .. } => None,
        }
    }
}

/// For contracts alone: how many registers a task has, as a number.
pub fn count_of_registers()
    ensures { REGISTERS ≡ 8 }
{}
