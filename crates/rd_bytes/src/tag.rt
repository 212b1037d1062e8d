//! The numbers that stand for changes and for the places where tasks wait in packed bytes.

ghost use Rattle.std.specs.Prelude.{◌≡◌, ◌≤◌, length};
ghost use Rattle.rd_bytes.specs.Ends.{end_byte};
ghost use Rattle.rd_bytes.specs.Tags.{kind_of_holder, kind_of_list, kind_of_tag, last_kind};

use crate::ends::end_byte;

/// `SetTick`: it is another tick.
pub const SET_TICK: u8 = 1;

/// `SetTurn`: the turn is another core's.
pub const SET_TURN: u8 = 2;

/// `SetCore`: a core has another task, or none.
pub const SET_CORE: u8 = 3;

/// `SetPc`: a task stands at another instruction.
pub const SET_PC: u8 = 4;

/// `SetReg`: a register of a task has another value.
pub const SET_REG: u8 = 5;

/// `SetPhase`: a task is in another phase.
pub const SET_PHASE: u8 = 6;

/// `SetEntry`: a notification entry of a task is another.
pub const SET_ENTRY: u8 = 7;

/// `SetData`: a task has other data.
pub const SET_DATA: u8 = 8;

/// `InsReady`: a task is put into the ready list.
pub const INS_READY: u8 = 9;

/// `DelReady`: a task leaves the ready list.
pub const DEL_READY: u8 = 10;

/// `InsWait`: a task is put among those that wait in a list.
pub const INS_WAIT: u8 = 11;

/// `DelWait`: a task leaves those that wait in a list.
pub const DEL_WAIT: u8 = 12;

/// `InsWait`: a task is put among those that wait at an event group.
pub const INS_GROUP: u8 = 13;

/// `DelWait`: a task leaves those that wait at an event group.
pub const DEL_GROUP: u8 = 14;

/// `PutBack`: an item goes to the back of a queue.
pub const PUT_BACK: u8 = 15;

/// `PutFront`: an item goes to the front of a queue.
pub const PUT_FRONT: u8 = 16;

/// `TakeBack`: the item at the back of a queue leaves.
pub const TAKE_BACK: u8 = 17;

/// `TakeFront`: the item at the front of a queue leaves.
pub const TAKE_FRONT: u8 = 18;

/// `SetItem`: an item takes the place of another in a queue.
pub const SET_ITEM: u8 = 19;

/// `Clear`: all items leave a queue.
pub const CLEAR_QUEUE: u8 = 20;

/// `Fill`: an empty queue gets items.
pub const FILL_QUEUE: u8 = 21;

/// `SetMember`: a queue is a member of another set, or of none.
pub const SET_MEMBER: u8 = 22;

/// `PushHandle`: a handle goes to the back of a queue set.
pub const PUSH_HANDLE: u8 = 23;

/// `DropHandle`: the handle at the back of a queue set leaves.
pub const DROP_HANDLE: u8 = 24;

/// `TakeHandle`: the handle at the front of a queue set leaves.
pub const TAKE_HANDLE: u8 = 25;

/// `UntakeHandle`: a handle goes to the front of a queue set.
pub const UNTAKE_HANDLE: u8 = 26;

/// `PushBytes`: bytes go to the back of a stream buffer.
pub const PUSH_BYTES: u8 = 27;

/// `DropBytes`: bytes at the back of a stream buffer leave.
pub const DROP_BYTES: u8 = 28;

/// `TakeBytes`: bytes at the front of a stream buffer leave.
pub const TAKE_BYTES: u8 = 29;

/// `UntakeBytes`: bytes go to the front of a stream buffer.
pub const UNTAKE_BYTES: u8 = 30;

/// `SetByte`: a byte of a stream buffer has another value.
pub const SET_BYTE: u8 = 31;

/// `SetTrigger`: a stream buffer has another trigger level.
pub const SET_TRIGGER: u8 = 32;

/// `SetHolder`: the reader's place of a stream or message buffer names another task, or nobody.
pub const SET_READER: u8 = 33;

/// `SetHolder`: so does the writer's.
pub const SET_WRITER: u8 = 34;

/// `Push`: a message goes to the back of a message buffer.
pub const PUSH_MESSAGE: u8 = 35;

/// `Drop`: the message at the back of a message buffer leaves.
pub const DROP_MESSAGE: u8 = 36;

/// `Take`: the message at the front of a message buffer leaves.
pub const TAKE_MESSAGE: u8 = 37;

/// `Untake`: a message goes to the front of a message buffer.
pub const UNTAKE_MESSAGE: u8 = 38;

/// `Clear`: all bytes leave a stream buffer.
pub const CLEAR_BYTES: u8 = 39;

/// `Clear`: all messages leave a message buffer.
pub const CLEAR_MESSAGES: u8 = 40;

/// `Fill`: an empty stream buffer gets bytes.
pub const FILL_BYTES: u8 = 41;

/// `Fill`: an empty message buffer gets messages.
pub const FILL_MESSAGES: u8 = 42;

/// `SetBits`: an event group has other bits.
pub const SET_BITS: u8 = 43;

/// The list of those that wait to receive from a queue.
pub const RECEIVING_LIST: u8 = 0;

/// The list of those that wait to send to a queue.
pub const SENDING_LIST: u8 = 1;

/// The list of those that wait to select from a queue set.
pub const SELECTING_LIST: u8 = 2;

/// No list: the place of a stream buffer's reader.
pub const READING_STREAM: u8 = 3;

/// That of its writer.
pub const WRITING_STREAM: u8 = 4;

/// The place of a message buffer's reader.
pub const READING_MESSAGES: u8 = 5;

/// That of its writer.
pub const WRITING_MESSAGES: u8 = 6;

/// No list: a notification entry of the task itself.
pub const OWN_ENTRY: u8 = 7;

/// The list of those that wait at an event group.
pub const WAITING_GROUP: u8 = 8;

/// The kinds of objects, as `last_kind` tells them apart: a queue.
pub const OF_QUEUE: u8 = 0;

/// A queue set.
pub const OF_QUEUE_SET: u8 = 1;

/// A stream buffer.
pub const OF_STREAM: u8 = 2;

/// A message buffer.
pub const OF_MESSAGE: u8 = 3;

/// An event group.
pub const OF_GROUP: u8 = 4;

/// The kind of buffer whose place changes: a stream buffer.
pub const STREAM_HOLDER: u8 = 0;

/// A message buffer.
pub const MESSAGE_HOLDER: u8 = 1;

// The kind of object that has a list of that byte.
fn kind_of_list(list: u8) -> u8
    ensures { result ≡ kind_of_list list }
{
    if list < SELECTING_LIST {
        OF_QUEUE
    } else {
        OF_QUEUE_SET
    }
}

// The kind of object that a change with that tag is of.
fn kind_of_tag(tag: u8) -> u8
    ensures { result ≡ kind_of_tag tag }
{
    if tag == INS_GROUP || tag == DEL_GROUP || tag == SET_BITS {
        OF_GROUP
    } else if tag < PUSH_HANDLE {
        OF_QUEUE
    } else if tag < PUSH_BYTES {
        OF_QUEUE_SET
    } else if tag < SET_READER || tag == CLEAR_BYTES || tag == FILL_BYTES {
        OF_STREAM
    } else {
        OF_MESSAGE
    }
}

// The kind of buffer whose place changes, by its byte.
fn kind_of_holder(buffer: u8) -> u8
    ensures { result ≡ kind_of_holder buffer }
{
    if buffer == STREAM_HOLDER {
        OF_STREAM
    } else {
        OF_MESSAGE
    }
}

/// The kind of object that the change at the end of bytes is of.
#[inline(always)]
pub fn last_kind(bytes: &[u8]) -> u8
    requires some { 1 ≤ length bytes.now }
    requires insertion { end_byte 1 bytes.now ≡ INS_WAIT → 5 ≤ length bytes.now }
    requires deletion { end_byte 1 bytes.now ≡ DEL_WAIT → 4 ≤ length bytes.now }
    requires reader { end_byte 1 bytes.now ≡ SET_READER → 4 ≤ length bytes.now }
    requires writer { end_byte 1 bytes.now ≡ SET_WRITER → 4 ≤ length bytes.now }
    ensures { result ≡ last_kind bytes.now }
{
    let tag = end_byte(bytes, 1);
    // (most are of a queue, and but for two tags those stand together)
    if PUT_BACK <= tag && tag <= SET_MEMBER {
        return OF_QUEUE;
    }
    match tag {
        INS_WAIT => kind_of_list(end_byte(bytes, 5)),
        DEL_WAIT => kind_of_list(end_byte(bytes, 4)),
        SET_READER | SET_WRITER => kind_of_holder(end_byte(bytes, 4)),
        tag => kind_of_tag(tag),
    }
}
