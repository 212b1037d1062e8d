//! The changes of a state as bytes: those that a change carries, its other fields, and its tag.

ghost use Rattle.std.specs.Prelude.{◌≡◌, ◌↔◌, ◌+◌, ◌<◌, ◌≤◌, ◌++◌, length, IfSome, IsNone, IsOk};
ghost use Rattle.std.specs.Prelude.{OnOk, OnErr};
ghost use Rattle.rd_bytes.specs.Ends.{all_but, end_byte};
ghost use Rattle.rd_bytes.specs.declared.tag.TheConstants.{DEL_READY};
ghost use Rattle.rd_state.specs.Change.{the_change};
ghost use Rattle.rd_state.specs.Objects.{the_object_change};
ghost use Rattle.rd_state.specs.PackedChanges.{before_last, last_change, last_object_change};
ghost use Rattle.rd_state.specs.PackedChanges.{object_change_length, object_packed, packed};
ghost use Rattle.rd_state.specs.PackedChanges.{EachIsReadBack, EndsInChange};
ghost use Rattle.rd_state.specs.PackedChanges.{HasBytes, ObjectHasBytes};

use crate::change::Change;
use crate::objects::ObjectChange;
use crate::task_packing::{
    LastTaskChange, last_data, last_entry, last_pc, last_phase, last_register,
};
use rd_bytes::byte_stack::ByteStack;
use rd_bytes::ends::{all_but, byte_of_number, end_byte, end_word, number_of_byte};
use rd_bytes::no_memory::NoMemory;
use rd_bytes::tag::{
    DEL_READY, INS_READY, OF_MESSAGE, OF_QUEUE, OF_QUEUE_SET, OF_STREAM, SET_CORE, SET_DATA,
    SET_ENTRY, SET_PC, SET_PHASE, SET_REG, SET_TICK, SET_TURN, last_kind,
};
use rd_group::group_packing::{LastGroupChange, last_group_change};
use rd_queue::packing::{LastQueueChange, last_queue_change};
use rd_queue::queue_set_packing::{LastQueueSetChange, last_queue_set_change};
use rd_stream::message_packing::{LastMessageChange, last_message_change};
use rd_stream::stream_packing::{LastStreamChange, last_stream_change};

impl ObjectChange<'_> {
    // Puts the bytes of this change behind the others.
    #[inline(always)]
    pub(crate) fn pack(self, bytes: &mut ByteStack) -> Result<(), NoMemory>
        requires { ObjectHasBytes (the_object_change self) }
        ensures ok { OnOk result (bytes.new.bytes
            ≡ bytes.old.bytes ++ object_packed (the_object_change self.entry)) }
        ensures enough { length bytes.old.bytes
            + length (object_packed (the_object_change self.entry)) ≤ bytes.old.capacity
            → IsOk result }
        ensures grows { bytes.old.capacity ≤ bytes.new.capacity }
        ensures err { OnErr result (bytes.new ≡ bytes.old) }
    {
        match self {
            ObjectChange::Queue { queue, change } => change.pack(queue, bytes),
            ObjectChange::QueueSet { queue_set, change } => change.pack(queue_set, bytes),
            ObjectChange::Stream { stream, change } => change.pack(stream, bytes),
            ObjectChange::Message { message, change } => change.pack(message, bytes),
            ObjectChange::Group { group, change } => change.pack(group, bytes),
        }
    }
}

// Puts the bytes of a change of an object behind the others, by a call: a function that packs
// changes of all kinds would be larger than what the compiler inlines.
#[inline(never)]
fn pack_by_call(change: ObjectChange<'_>, bytes: &mut ByteStack) -> Result<(), NoMemory>
    requires { ObjectHasBytes (the_object_change change) }
    ensures ok { OnOk result (bytes.new.bytes
        ≡ bytes.old.bytes ++ object_packed (the_object_change change.entry)) }
    ensures enough { length bytes.old.bytes
        + length (object_packed (the_object_change change.entry)) ≤ bytes.old.capacity
        → IsOk result }
    ensures grows { bytes.old.capacity ≤ bytes.new.capacity }
    ensures err { OnErr result (bytes.new ≡ bytes.old) }
{
    change.pack(bytes)
}

impl Change<'_> {
    /// Puts the bytes of this change behind the others. It takes no memory where there is room for
    /// them. Where there is no memory for them, nothing has changed.
    #[inline(always)]
    pub fn pack(self, bytes: &mut ByteStack) -> Result<(), NoMemory>
        requires { HasBytes (the_change self) }
        ensures ok { OnOk result
            (bytes.new.bytes ≡ bytes.old.bytes ++ packed (the_change self.entry)) }
        ensures enough { length bytes.old.bytes + length (packed (the_change self.entry))
            ≤ bytes.old.capacity → IsOk result }
        ensures grows { bytes.old.capacity ≤ bytes.new.capacity }
        ensures err { OnErr result (bytes.new ≡ bytes.old) }
    {
        match self {
            Change::SetTick { tick } => {
                let [a, b, c, d] = tick.to_le_bytes();
                bytes.push(&[a, b, c, d, SET_TICK])
            }
            Change::SetTurn { turn } => bytes.push(&[turn as u8, SET_TURN]),
            Change::SetCore { core, task } => {
                bytes.push(&[core as u8, byte_of_number(task), SET_CORE])
            }
            Change::InsReady { index, task } => {
                bytes.push(&[index as u8, task as u8, INS_READY])
            }
            Change::DelReady { index } => bytes.push(&[index as u8, DEL_READY]),
            Change::Task { task, change } => change.pack(task, bytes),
            Change::Object { change } => pack_by_call(change, bytes),
        }
    }
}

/// The change that stands at the end of bytes, which lend it those that it carries.
#[derive(Clone, Copy)]
pub struct LastChange<'a> {
    /// The change.
    pub change: Change<'a>,
    /// The bytes before it.
    pub rest: &'a [u8],
}

// Reads the change of an object that stands at the end of the bytes.
#[inline(always)]
pub(crate) fn last_object_change(bytes: &[u8]) -> (ObjectChange<'_>, &[u8])
    requires some { 1 ≤ length bytes.now }
    requires whole { object_change_length bytes.now ≤ length bytes.now }
    ensures change { the_object_change result.0 ≡ last_object_change bytes.now }
    ensures rest { result.1.now ≡ all_but (object_change_length bytes.now) bytes.now }
{
    match last_kind(bytes) {
        OF_QUEUE => {
            let LastQueueChange {
                queue,
                change,
                rest,
            } = last_queue_change(bytes);
            (ObjectChange::Queue { queue, change }, rest)
        }
        OF_QUEUE_SET => {
            let LastQueueSetChange {
                queue_set,
                change,
                rest,
            } = last_queue_set_change(bytes);
            (ObjectChange::QueueSet { queue_set, change }, rest)
        }
        OF_STREAM => {
            let LastStreamChange {
                stream,
                change,
                rest,
            } = last_stream_change(bytes);
            (ObjectChange::Stream { stream, change }, rest)
        }
        OF_MESSAGE => {
            let LastMessageChange {
                buffer,
                change,
                rest,
            } = last_message_change(bytes);
            let change = ObjectChange::Message {
                message: buffer,
                change,
            };
            (change, rest)
        }
        _ => {
            let LastGroupChange {
                group,
                change,
                rest,
            } = last_group_change(bytes);
            (ObjectChange::Group { group, change }, rest)
        }
    }
}

// The change, behind the rest. It is a macro, so that the change is made where it stays: one that
// is handed on is copied, at each step back.
macro_rules! last {
    ($change:expr, $rest:expr) => {
        LastChange {
            change: $change,
            rest: $rest,
        }
    };
}

// So is the change of a task, as one of the state.
macro_rules! last_of_task {
    ($last:expr) => {{
        let LastTaskChange { task, change, rest } = $last;
        Some(last!(Change::Task { task, change }, rest))
    }};
}

/// Reads the change that stands at the end of the bytes, or nothing where it is one of an object.
#[inline(always)]
pub fn last_plain_change(bytes: &[u8]) -> Option<LastChange<'_>>
    requires { EndsInChange bytes.now }
    ensures none { IsNone result ↔ (DEL_READY < end_byte 1 bytes.now) }
    ensures change { IfSome result (λ last. the_change last.change ≡ last_change bytes.now) }
    ensures rest { IfSome result (λ last. last.rest.now ≡ before_last bytes.now) }
{
    match end_byte(bytes, 1) {
        SET_TICK => {
            let tick = end_word(bytes, 2);
            Some(last!(Change::SetTick { tick }, all_but(bytes, 5)))
        }
        SET_TURN => {
            let turn = usize::from(end_byte(bytes, 2));
            Some(last!(Change::SetTurn { turn }, all_but(bytes, 2)))
        }
        SET_CORE => {
            let core = usize::from(end_byte(bytes, 3));
            let task = number_of_byte(end_byte(bytes, 2));
            Some(last!(Change::SetCore { core, task }, all_but(bytes, 3)))
        }
        SET_PC => last_of_task!(last_pc(bytes)),
        SET_REG => last_of_task!(last_register(bytes)),
        SET_PHASE => last_of_task!(last_phase(bytes)),
        SET_ENTRY => last_of_task!(last_entry(bytes)),
        SET_DATA => last_of_task!(last_data(bytes)),
        INS_READY => {
            let index = usize::from(end_byte(bytes, 3));
            let task = usize::from(end_byte(bytes, 2));
            Some(last!(Change::InsReady { index, task }, all_but(bytes, 3)))
        }
        DEL_READY => {
            let index = usize::from(end_byte(bytes, 2));
            Some(last!(Change::DelReady { index }, all_but(bytes, 2)))
        }
        _ => None,
    }
}

/// Reads the change that stands at the end of the bytes.
#[inline(always)]
pub fn last_change(bytes: &[u8]) -> LastChange<'_>
    requires { EndsInChange bytes.now }
    ensures change { the_change result.change ≡ last_change bytes.now }
    ensures rest { result.rest.now ≡ before_last bytes.now }
{
    if let Some(last) = last_plain_change(bytes) {
        return last;
    }
    let (change, rest) = last_object_change(bytes);
    last!(Change::Object { change }, rest)
}

/// A law: each change that was put behind bytes is read at their end, and leaves those before.
pub fn each_change_is_read_back()
    ensures { EachIsReadBack }
{}
