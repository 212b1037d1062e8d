//! Edits: one thing of the target is changed by hand.

ghost use Rattle.std.specs.Prelude.{◌≡◌, ◌<◌, ◌≤◌, ◌^◌, length};
ghost use Rattle.rd_bytes.specs.declared.bytes.TheConstants.{MAX_BYTES};
ghost use Rattle.rd_moves.specs.Edits.{IsSizedEdit};

use rd_bytes::bytes::Bytes;

/// One thing that is changed by hand, to see what would come of it. An edit wakes nobody, schedules
/// nothing, and leaves the turn where it is. Tasks, objects and their parts go by number, from 0.
/// Its bytes are its own, or stand where they were read.
#[derive(Drop)]
pub enum Edit<B: Drop = Bytes> {
    /// `poke reg K N N`: the register, 0 to 7, becomes the value, whatever the task does.
    Register {
        task: usize,
        register: usize,
        value: u32,
    },
    /// `poke data K HEX`: the task's data becomes these bytes, 0 to 256 of them.
    Data {
        task: usize,
        bytes: B,
    },
    /// `poke pc K N`: the task, which has to be in Run, goes on at that instruction of its script.
    Pc {
        task: usize,
        pc: usize,
    },
    /// `poke note K N N`: the value of the task's notification entry, 0 to 3, becomes this one. The
    /// entry stays idle, waiting or received, unlike after `xTaskNotifyIndexed`.
    Value {
        task: usize,
        index: usize,
        value: u32,
    },
    /// `poke group G N`: the event group has these bits and no others, at most 2^24 - 1. Whoever
    /// waits for them waits on, unlike after `xEventGroupSetBits`.
    Bits {
        group: usize,
        bits: u32,
    },
    /// `poke item Q N HEX`: an item of the queue, 0 the one that is received next, becomes these
    /// bytes, as many as each item of the queue has.
    Item {
        queue: usize,
        index: usize,
        bytes: B,
    },
    /// `poke byte B N N`: a byte of the stream buffer, 0 the one that is read next, becomes the
    /// value, at most 255.
    Byte {
        stream: usize,
        index: usize,
        value: u32,
    },
}

// A value has 32 bits.
fn has_32_bits(value: u32)
    ensures { value < 2 ^ 32 }
{
    let _ = value;
}

// There are no more bytes than a task's data has.
fn are_few(bytes: &Bytes)
    ensures { length bytes.now ≤ MAX_BYTES }
{
    bytes.as_slice();
}

// The same bytes once more.
fn copy_of(bytes: &Bytes) -> Bytes
    ensures { result ≡ bytes.now }
{
    Bytes::from_slice(bytes.as_slice())
}

impl Edit {
    /// An equal edit.
    pub fn copy(&self) -> Edit
        ensures { result ≡ self.now }
    {
        match self {
            &Edit::Register {
                task,
                register,
                value,
            } => Edit::Register {
                task,
                register,
                value,
            },
            Edit::Data { task, bytes } => Edit::Data {
                task: *task,
                bytes: copy_of(bytes),
            },
            &Edit::Pc { task, pc } => Edit::Pc { task, pc },
            &Edit::Value { task, index, value } => Edit::Value { task, index, value },
            &Edit::Bits { group, bits } => Edit::Bits { group, bits },
            Edit::Item {
                queue,
                index,
                bytes,
            } => Edit::Item {
                queue: *queue,
                index: *index,
                bytes: copy_of(bytes),
            },
            &Edit::Byte {
                stream,
                index,
                value,
            } => Edit::Byte {
                stream,
                index,
                value,
            },
        }
    }

    /// What every edit keeps: a value has 32 bits, and bytes are no more than a task's data. It
    /// does nothing at run time.
    pub fn sizes(&self)
        ensures { IsSizedEdit self.now }
    {
        match self {
            Edit::Register { value, .. } | Edit::Value { value, .. } => has_32_bits(*value),
            Edit::Data { bytes, .. } => are_few(bytes),
            Edit::Pc { .. } | Edit::Bits { .. } | Edit::Item { .. } | Edit::Byte { .. } => (),
        }
    }
}
