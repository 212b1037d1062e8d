//! Edits: one thing of the target is changed by hand.

ghost use Rattle.std.specs.Prelude.{◌≡◌, ◌↔◌, ◌<◌, ◌≤◌, ◌^◌, [], true, length, slice_index};
ghost use Rattle.std.specs.Prelude.{slice_index_or, IsOk, IsTrue, OnErr, OnOk};
ghost use Rattle.rd_bytes.specs.declared.bytes.TheConstants.{MAX_BYTES};
ghost use Rattle.rd_group.specs.declared.wish.TheConstants.{MAX_BITS};
ghost use Rattle.rd_app.specs.declared.app.TheConstants.{MAX_CODE};
ghost use Rattle.rd_state.specs.EditingView.{GivesUp, Reaches};
ghost use Rattle.rd_state.specs.Snapshot.{group_at, items_at, queue_at, stream_at, task_at};
ghost use Rattle.rd_state.specs.Snapshot.{with_bits_at};
ghost use Rattle.rd_state.specs.Valid.{IsValid};
ghost use Rattle.rd_kernel.specs.Costs.{data_cost, item_cost};
ghost use Rattle.rd_kernel.specs.Tasks.{entry_at, with_bytes, with_pc, HasEntry};
ghost use Rattle.rd_edits.specs.Edits.{edit_cost, edited, is_good_byte, is_good_edit, is_good_item};
ghost use Rattle.rd_edits.specs.Edits.{is_good_pc, with_byte_at, with_item_at};
ghost use Rattle.rd_edits.specs.Edits.{with_value, IsEditAt};
ghost use Rattle.rd_moves.specs.Edits.{IsEditOf, IsSizedEdit};

use rd_app::app::Program;
use rd_bytes::bytes::Bytes;
use rd_bytes::no_memory::NoMemory;
use rd_group::group_change::GroupChange;
use rd_group::wish::MAX_BITS;
use rd_kernel::changes::{set_bytes, set_entry, set_pc, set_register};
use rd_moves::edit::Edit;
use rd_notify::entries::Entry;
use rd_queue::change::QueueChange;
use rd_state::editing::Editing;
use rd_state::objects::ObjectChange;
use rd_state::state::State;
use rd_stream::stream_change::StreamChange;

// May a task be put at that instruction? In a call it stands at that call until it returns.
fn is_good_pc(app: &Program, state: &State, task: usize, pc: usize) -> bool
    requires named { task < length app.now.tasks }
    requires task { task < length state.now.tasks }
    ensures { result ≡ is_good_pc app.now state.now task pc }
{
    state.phase(task).is_first() && pc < app.code(task).len()
}

// Is there such an item, with so many bytes?
fn is_good_item(state: &State, queue: usize, index: usize, count: usize) -> bool
    requires { queue < length state.now.objects.queues }
    ensures { result ≡ is_good_item state.now queue index count }
{
    let queue = state.queue(queue);
    index < queue.count() && count == queue.item_size()
}

// Is there such a byte, and is the value one of a byte?
fn is_good_byte(state: &State, stream: usize, index: usize, value: u32) -> bool
    requires { stream < length state.now.objects.streams }
    ensures { result ≡ is_good_byte state.now stream index value }
{
    index < state.stream(stream).len() && value <= u32::from(u8::MAX)
}

// Are they the same bytes?
fn are_same(bytes: &[u8], others: &[u8]) -> bool
    ensures { IsTrue result ↔ (bytes.now ≡ others.now) }
{
    bytes == others
}

// Makes these bytes a task's data. If they are that already, nothing changes, and no memory is
// taken.
fn set_data(editing: &mut Editing, task: usize, bytes: &[u8]) -> Result<(), NoMemory>
    requires task { task < length editing.old.now.tasks }
    requires few { length bytes.now ≤ MAX_BYTES }
    ensures ok { OnOk result
        (Reaches editing.old editing.new (with_bytes editing.old.now task bytes.now) data_cost) }
    ensures has_them { (task_at editing.old.now task).bytes ≡ bytes.now → IsOk result }
    ensures err { OnErr result (GivesUp editing.old editing.new data_cost) }
{
    if are_same(editing.state().task(task).bytes(), bytes) {
        return Ok(());
    }
    set_bytes(editing, task, bytes)
}

// Puts a task at an instruction of its script. If it stands there already, nothing changes, and no
// memory is taken.
fn go_to(editing: &mut Editing, task: usize, pc: usize) -> Result<(), NoMemory>
    requires task { task < length editing.old.now.tasks }
    requires pc { pc ≤ MAX_CODE }
    ensures ok { OnOk result (Reaches editing.old editing.new (with_pc editing.old.now task pc) 1) }
    ensures stands_there { (task_at editing.old.now task).pc ≡ pc → IsOk result }
    ensures err { OnErr result (GivesUp editing.old editing.new 1) }
{
    if editing.state().task(task).pc() == pc {
        return Ok(());
    }
    set_pc(editing, task, pc)
}

// Gives an entry of a task that value; its state stays. If it has the value already, nothing
// changes, and no memory is taken.
fn set_value(editing: &mut Editing, task: usize, index: usize, value: u32) -> Result<(), NoMemory>
    requires { HasEntry editing.old.now task index }
    ensures ok { OnOk result
        (Reaches editing.old editing.new (with_value editing.old.now task index value) 1) }
    ensures has_it { (entry_at editing.old.now task index).value ≡ value → IsOk result }
    ensures err { OnErr result (GivesUp editing.old editing.new 1) }
{
    let entry = editing.state().task(task).entries().entry(index);
    set_entry(editing, task, index, Entry { value, ..entry })
}

// Puts bits in the place of an event group's. If it has these already, nothing changes, and no
// memory is taken.
fn set_bits(editing: &mut Editing, group: usize, bits: u32) -> Result<(), NoMemory>
    requires group { group < length editing.old.now.objects.groups }
    requires bits { bits ≤ MAX_BITS }
    ensures ok { OnOk result
        (Reaches editing.old editing.new (with_bits_at editing.old.now group bits) 1) }
    ensures has_them { (group_at editing.old.now group).bits ≡ bits → IsOk result }
    ensures err { OnErr result (GivesUp editing.old editing.new 1) }
{
    if editing.state().group(group).bits() == bits {
        return Ok(());
    }
    let change = GroupChange::SetBits { bits };
    let change = ObjectChange::Group { group, change };
    editing.change_object(change)
}

// Puts an item in the place of one of a queue. If they are equal, nothing changes, and no memory is
// taken.
fn set_item(editing: &mut Editing, queue: usize, index: usize, item: &[u8]) -> Result<(), NoMemory>
    requires queue { queue < length editing.old.now.objects.queues }
    requires there { index < length (items_at editing.old.now queue) }
    requires size { length item.now ≡ (queue_at editing.old.now queue).item_size }
    ensures ok { OnOk result (Reaches editing.old editing.new
        (with_item_at editing.old.now queue index item.now) item_cost) }
    ensures has_it { slice_index_or (items_at editing.old.now queue) index [] ≡ item.now
        → IsOk result }
    ensures err { OnErr result (GivesUp editing.old editing.new item_cost) }
{
    if are_same(editing.state().queue(queue).item(index), item) {
        return Ok(());
    }
    let change = QueueChange::SetItem { index, item };
    let change = ObjectChange::Queue { queue, change };
    editing.change_object(change)
}

// Puts a byte in the place of one of a stream buffer. If they are equal, nothing changes, and no
// memory is taken.
fn set_byte(editing: &mut Editing, stream: usize, index: usize, value: u8) -> Result<(), NoMemory>
    requires stream { stream < length editing.old.now.objects.streams }
    requires there { index < length (stream_at editing.old.now stream).bytes }
    ensures ok { OnOk result
        (Reaches editing.old editing.new (with_byte_at editing.old.now stream index value) 1) }
    ensures has_it { slice_index (stream_at editing.old.now stream).bytes index ≡ value
        → IsOk result }
    ensures err { OnErr result (GivesUp editing.old editing.new 1) }
{
    if editing.state().stream(stream).byte(index) == value {
        return Ok(());
    }
    let change = StreamChange::SetByte { index, value };
    let change = ObjectChange::Stream { stream, change };
    editing.change_object(change)
}

// What an edit names of the application is there in its state.
fn is_there(edit: &Edit, app: &Program, state: &State)
    requires valid { IsValid app.now state.now }
    requires named { IsEditOf app.now edit.now }
    ensures { IsEditAt state.now edit.now }
{
    let _ = app;
    let _ = state;
}

/// Whether the edit can be made. It is refused as BadEdit where a task that isn't in Run would
/// go on elsewhere, or a task beyond its script's end; where bits are above 2^24 - 1; where
/// there is no such item, or the bytes aren't as many as it has; where there is no such byte,
/// or the value is above 255. A register, data and a value are never refused.
pub fn is_good(edit: &Edit, app: &Program, state: &State) -> bool
    requires valid { IsValid app.now state.now }
    requires named { IsEditOf app.now edit.now }
    ensures { result ≡ is_good_edit app.now state.now edit.now }
{
    is_there(edit, app, state);
    match edit {
        Edit::Register { .. } | Edit::Data { .. } | Edit::Value { .. } => true,
        Edit::Pc { task, pc } => is_good_pc(app, state, *task, *pc),
        Edit::Bits { bits, .. } => *bits <= MAX_BITS,
        Edit::Item {
            queue,
            index,
            bytes,
        } => is_good_item(state, *queue, *index, bytes.as_slice().len()),
        Edit::Byte {
            stream,
            index,
            value,
        } => is_good_byte(state, *stream, *index, *value),
    }
}

/// Makes an edit that can be made, and records what undoes it. One that changes nothing takes
/// no memory. `NoMemory` where there is none for the record; then the move goes no further.
pub fn make(edit: &Edit, app: &Program, editing: &mut Editing) -> Result<(), NoMemory>
    requires valid { IsValid app.now editing.old.now }
    requires named { IsEditOf app.now edit.now }
    requires good { is_good_edit app.now editing.old.now edit.now ≡ true }
    ensures ok { OnOk result (Reaches editing.old editing.new
        (edited editing.old.now edit.now) (edit_cost edit.now)) }
    ensures nothing { edited editing.old.now edit.now ≡ editing.old.now → IsOk result }
    ensures err { OnErr result (GivesUp editing.old editing.new (edit_cost edit.now)) }
{
    is_there(edit, app, editing.state());
    match edit {
        Edit::Register {
            task,
            register,
            value,
        } => set_register(editing, *task, *register, *value),
        Edit::Data { task, bytes } => set_data(editing, *task, bytes.as_slice()),
        Edit::Pc { task, pc } => {
            // (a script has no more instructions than it may)
            app.code(*task);
            go_to(editing, *task, *pc)
        }
        Edit::Value { task, index, value } => set_value(editing, *task, *index, *value),
        Edit::Bits { group, bits } => set_bits(editing, *group, *bits),
        Edit::Item {
            queue,
            index,
            bytes,
        } => set_item(editing, *queue, *index, bytes.as_slice()),
        Edit::Byte {
            stream,
            index,
            value,
        } => set_byte(editing, *stream, *index, *value as u8),
    }
}
