//! The calls of event groups.

ghost use Rattle.std.specs.Prelude.{◌≡◌, ◌+◌, ◌<◌, ◌≤◌, ◌||◌, length, true, false};
ghost use Rattle.std.specs.Prelude.{All, IfOk, IsOk, OnErr, OnOk, bit_or};
ghost use Rattle.rd_app.specs.Application.{IsGroupCall, IsOperand, priorities_of};
ghost use Rattle.rd_group.specs.Groups.{bits_left, met_by};
ghost use Rattle.rd_group.specs.Wishes.{is_met};
ghost use Rattle.rd_group.specs.declared.wish.TheConstants.{MAX_BITS};
ghost use Rattle.rd_state.specs.EditingView.{GivesUp, Reaches};
ghost use Rattle.rd_state.specs.Phases.{given_bits, is_first, was_given};
ghost use Rattle.rd_state.specs.Snapshot.{group_at, task_at, with_bits_at};
ghost use Rattle.rd_kernel.specs.Outcomes.{DoesCall, IsCalling};
ghost use Rattle.rd_kernel.specs.Tasks.{PcStays};
ghost use Rattle.rd_kernel.specs.Telling.{waits_once};
ghost use Rattle.rd_group_calls.specs.GroupCalls.{are_bad_bits, bits_at, bits_given, bits_set};
ghost use Rattle.rd_group_calls.specs.GroupCalls.{clear_outcome, fails_for_bits, given_or};
ghost use Rattle.rd_group_calls.specs.GroupCalls.{group_call_cost, group_outcome, is_bad_wish};
ghost use Rattle.rd_group_calls.specs.GroupCalls.{meeting_wish, met_or_waits, set_outcome};
ghost use Rattle.rd_group_calls.specs.GroupCalls.{setting_cost, sync_outcome, sync_tried};
ghost use Rattle.rd_group_calls.specs.GroupCalls.{wait_outcome, waits_or_returns, wished};
ghost use Rattle.rd_group_calls.specs.GroupCalls.{GroupCallChangesNothing};
ghost use Rattle.rd_state.specs.Valid.{IsValid};

use arrayvec::ArrayVec;
use rd_app::app::Program;
use rd_app::instr::{GroupCall, Operand};
use rd_bytes::no_memory::NoMemory;
use rd_group::group::MAX_WAITERS;
use rd_group::group_change::GroupChange;
use rd_group::wish::{MAX_BITS, OnMet, WaitFor, Wish};
use rd_kernel::outcome::Outcome;
use rd_kernel::telling::waits_once;
use rd_kernel::waking::{Waking, deadline_of, operand_value, wake_all};
use rd_state::editing::Editing;
use rd_state::objects::ObjectChange;
use rd_state::phase::{Cause, Listed, Place};

// Does a call name bits that an event group doesn't have?
fn are_bad_bits(bits: u32) -> bool
    ensures { result ≡ are_bad_bits bits }
{
    bits > MAX_BITS
}

// Does it wait for such bits, or for none?
fn is_bad_wish(bits: u32) -> bool
    ensures { result ≡ is_bad_wish bits }
{
    bits == 0 || are_bad_bits(bits)
}

// Puts bits in the place of a group's. If it has these already, nothing changes, and no memory is
// taken.
fn set_bits(editing: &mut Editing, group: usize, bits: u32) -> Result<(), NoMemory>
    requires group { group < length editing.old.now.objects.groups }
    requires bits { bits ≤ MAX_BITS }
    ensures ok { OnOk result (Reaches editing.old editing.new
        (with_bits_at editing.old.now group bits) 1) }
    ensures has_them { bits_at editing.old.now group ≡ bits → IsOk result }
    ensures err { OnErr result (GivesUp editing.old editing.new 1) }
{
    if editing.state().group(group).bits() == bits {
        return Ok(());
    }
    let change = GroupChange::SetBits { bits };
    let change = ObjectChange::Group { group, change };
    editing.change_object(change)
}

// The bits of a group together with those that are set.
fn together(there: u32, set: u32) -> u32
    requires there { there ≤ MAX_BITS }
    requires set { set ≤ MAX_BITS }
    ensures both { result ≡ bit_or there set }
    ensures within { result ≤ MAX_BITS }
{
    there | set
}

// Those who wait at a group for what these bits meet. The ready list has room for all of them.
fn whom_they_meet(
    app: &Program,
    editing: &Editing,
    group: usize,
    bits: u32,
) -> ArrayVec<usize, MAX_WAITERS>
    requires valid { IsValid app.now editing.now.now }
    requires group { group < length editing.now.now.objects.groups }
    ensures met { result.items ≡ met_by (group_at editing.now.now group) bits }
    ensures tasks { All (λ task. task < length editing.now.now.tasks) result.items }
    ensures room { length editing.now.now.ready + length result.items
        ≤ length editing.now.now.tasks }
{
    let _ = app;
    editing.state().group(group).met(bits)
}

// Gives bits to all whose wishes they meet, and leaves the group what those leave.
fn give_bits(app: &Program, editing: &mut Editing, group: usize, bits: u32) -> Result<u32, NoMemory>
    requires valid { IsValid app.now editing.old.now }
    requires group { group < length editing.old.now.objects.groups }
    requires bits { bits ≤ MAX_BITS }
    ensures ok { OnOk result (Reaches editing.old editing.new
        (bits_given (priorities_of app.now) editing.old.now group bits)
        (setting_cost editing.old.now)) }
    ensures left { IfOk result (λ left. left ≡ bits_left (group_at editing.old.now group) bits) }
    ensures within { IfOk result (λ left. left ≤ MAX_BITS) }
    ensures err { OnErr result (GivesUp editing.old editing.new (setting_cost editing.old.now)) }
{
    let met = whom_they_meet(app, editing, group, bits);
    let left = editing.state().group(group).bits_left(bits);
    wake_all(
        editing,
        app.priorities(),
        met.as_slice(),
        Waking::IsGiven { bits },
    )?;
    set_bits(editing, group, left)?;
    Ok(left)
}

// Sets bits of a group (`xEventGroupSetBits`).
fn set(
    app: &Program,
    editing: &mut Editing,
    task: usize,
    group: usize,
    bits: u32,
) -> Result<Outcome, NoMemory>
    requires caller { IsCalling app.now editing.old.now task }
    requires group { group < length editing.old.now.objects.groups }
    ensures ok { IfOk result (DoesCall editing.old editing.new
        (set_outcome (priorities_of app.now) editing.old.now group bits)
        (setting_cost editing.old.now)) }
    ensures nothing { are_bad_bits bits ≡ true → IsOk result }
    ensures err { OnErr result (GivesUp editing.old editing.new (setting_cost editing.old.now)) }
{
    if are_bad_bits(bits) {
        return Ok(Outcome::Fails(Cause::BadBits));
    }
    let together = together(editing.state().group(group).bits(), bits);
    let left = give_bits(app, editing, group, together)?;
    Ok(Outcome::Returns(left))
}

// Clears bits of a group (`xEventGroupClearBits`).
fn clear(editing: &mut Editing, group: usize, bits: u32) -> Result<Outcome, NoMemory>
    requires { group < length editing.old.now.objects.groups }
    ensures ok { IfOk result
        (DoesCall editing.old editing.new (clear_outcome editing.old.now group bits) 1) }
    ensures nothing { (clear_outcome editing.old.now group bits).state ≡ editing.old.now
        → IsOk result }
    ensures err { OnErr result (GivesUp editing.old editing.new 1) }
{
    if are_bad_bits(bits) {
        return Ok(Outcome::Fails(Cause::BadBits));
    }
    let before = editing.state().group(group).bits();
    set_bits(editing, group, before & !bits)?;
    Ok(Outcome::Returns(before))
}

// Ends a call whose wish isn't met: at its first try its task waits behind the others, where its
// block time isn't 0, and else the call returns the bits.
fn wait_or_return(
    editing: &mut Editing,
    task: usize,
    group: usize,
    wish: Wish,
    wait: Operand,
) -> Result<Outcome, NoMemory>
    requires task { task < length editing.old.now.tasks }
    requires group { group < length editing.old.now.objects.groups }
    requires room { length (group_at editing.old.now group).waiting < length editing.old.now.tasks }
    requires bits { wish.bits ≤ MAX_BITS }
    requires register { IsOperand wait }
    ensures ok { IfOk result (DoesCall editing.old editing.new
        (waits_or_returns editing.old.now task group wish wait) 1) }
    ensures nothing { waits_once editing.old.now task wait ≡ false → IsOk result }
    ensures err { OnErr result (GivesUp editing.old editing.new 1) }
{
    if !waits_once(editing, task, wait) {
        return Ok(Outcome::Returns(editing.state().group(group).bits()));
    }
    let deadline = deadline_of(editing, task, wait);
    editing.append_waiting(group, task, wish)?;
    let list = Listed::Group { group };
    let place = Place::Listed { list };
    Ok(Outcome::Waits { place, deadline })
}

// Looks whether the bits that are there meet a wish.
fn wish_for(
    editing: &mut Editing,
    task: usize,
    group: usize,
    wish: Wish,
    wait: Operand,
) -> Result<Outcome, NoMemory>
    requires task { task < length editing.old.now.tasks }
    requires group { group < length editing.old.now.objects.groups }
    requires room { length (group_at editing.old.now group).waiting < length editing.old.now.tasks }
    requires bits { wish.bits ≤ MAX_BITS }
    requires register { IsOperand wait }
    ensures ok { IfOk result (DoesCall editing.old editing.new
        (wished editing.old.now task group wish wait) 1) }
    ensures nothing { (wished editing.old.now task group wish wait).state ≡ editing.old.now
        → IsOk result }
    ensures err { OnErr result (GivesUp editing.old editing.new 1) }
{
    let bits = editing.state().group(group).bits();
    if !wish.is_met(bits) {
        return wait_or_return(editing, task, group, wish, wait);
    }
    set_bits(editing, group, wish.left_of(bits))?;
    Ok(Outcome::Returns(bits))
}

// Waits for bits of a group (`xEventGroupWaitBits`).
fn wait_for(
    app: &Program,
    editing: &mut Editing,
    task: usize,
    group: usize,
    wish: Wish,
    wait: Operand,
) -> Result<Outcome, NoMemory>
    requires caller { IsCalling app.now editing.old.now task }
    requires group { group < length editing.old.now.objects.groups }
    requires register { IsOperand wait }
    ensures ok { IfOk result
        (DoesCall editing.old editing.new (wait_outcome editing.old.now task group wish wait) 1) }
    ensures nothing { (wait_outcome editing.old.now task group wish wait).state
        ≡ editing.old.now → IsOk result }
    ensures err { OnErr result (GivesUp editing.old editing.new 1) }
{
    let _ = app;
    if let Some(bits) = editing.state().phase(task).given_bits() {
        return Ok(Outcome::Returns(bits));
    }
    if is_bad_wish(wish.bits) {
        return Ok(Outcome::Fails(Cause::BadBits));
    }
    wish_for(editing, task, group, wish, wait)
}

// Sets bits at the first try of a call, and looks whether all that it waits for came together.
fn meet(
    app: &Program,
    editing: &mut Editing,
    task: usize,
    group: usize,
    set: u32,
    wish: Wish,
    wait: Operand,
) -> Result<Outcome, NoMemory>
    requires caller { IsCalling app.now editing.old.now task }
    requires group { group < length editing.old.now.objects.groups }
    requires set { set ≤ MAX_BITS }
    requires bits { wish.bits ≤ MAX_BITS }
    requires register { IsOperand wait }
    ensures ok { IfOk result (DoesCall editing.old editing.new
        (met_or_waits (bits_set (priorities_of app.now) editing.old.now group set) task group
        (bit_or (bits_at editing.old.now group) set) wish wait)
        (setting_cost editing.old.now + 1)) }
    ensures err { OnErr result
        (GivesUp editing.old editing.new (setting_cost editing.old.now + 1)) }
{
    let together = together(editing.state().group(group).bits(), set);
    let left = give_bits(app, editing, group, together)?;
    editing.state().sizes();
    if !wish.is_met(together) {
        return wait_or_return(editing, task, group, wish, wait);
    }
    set_bits(editing, group, wish.left_of(left))?;
    Ok(Outcome::Returns(together))
}

// Sets bits, and waits for all of others (`xEventGroupSync`).
fn sync(
    app: &Program,
    editing: &mut Editing,
    task: usize,
    group: usize,
    set: u32,
    bits: u32,
    wait: Operand,
) -> Result<Outcome, NoMemory>
    requires caller { IsCalling app.now editing.old.now task }
    requires group { group < length editing.old.now.objects.groups }
    requires register { IsOperand wait }
    ensures ok { IfOk result (DoesCall editing.old editing.new
        (sync_outcome (priorities_of app.now) editing.old.now task group set bits wait)
        (setting_cost editing.old.now + 1)) }
    ensures nothing { (was_given (task_at editing.old.now task).phase
        || (are_bad_bits set || is_bad_wish bits)) ≡ true → IsOk result }
    ensures err { OnErr result
        (GivesUp editing.old editing.new (setting_cost editing.old.now + 1)) }
{
    let phase = editing.state().phase(task);
    if let Some(bits) = phase.given_bits() {
        return Ok(Outcome::Returns(bits));
    }
    if are_bad_bits(set) || is_bad_wish(bits) {
        return Ok(Outcome::Fails(Cause::BadBits));
    }
    let wish = Wish {
        bits,
        wait_for: WaitFor::All,
        on_met: OnMet::Clear,
    };
    if phase.is_first() {
        meet(app, editing, task, group, set, wish, wait)
    } else {
        wish_for(editing, task, group, wish, wait)
    }
}

/// Does a call of an event group. One that is refused, that returns bits that were given, or that
/// clears, reads or waits and changes nothing, takes no memory.
pub fn call_group(
    app: &Program,
    editing: &mut Editing,
    task: usize,
    group: usize,
    call: GroupCall,
) -> Result<Outcome, NoMemory>
    requires caller { IsCalling app.now editing.old.now task }
    requires group { group < length editing.old.now.objects.groups }
    requires names { IsGroupCall call }
    ensures ok { IfOk result (DoesCall editing.old editing.new
        (group_outcome (priorities_of app.now) editing.old.now task group call)
        (group_call_cost editing.old.now call)) }
    ensures nothing { GroupCallChangesNothing editing.old.now task group call → IsOk result }
    ensures stays { OnOk result (PcStays editing.old.now editing.new.now task) }
    ensures err { OnErr result
        (GivesUp editing.old editing.new (group_call_cost editing.old.now call)) }
{
    match call {
        GroupCall::Set { bits } => {
            let bits = operand_value(editing, task, bits);
            set(app, editing, task, group, bits)
        }
        GroupCall::Clear { bits } => {
            let bits = operand_value(editing, task, bits);
            clear(editing, group, bits)
        }
        GroupCall::Get => Ok(Outcome::Returns(editing.state().group(group).bits())),
        GroupCall::Wait {
            bits,
            wait_for: which,
            on_met,
            wait,
        } => {
            let wish = Wish {
                bits: operand_value(editing, task, bits),
                wait_for: which,
                on_met,
            };
            wait_for(app, editing, task, group, wish, wait)
        }
        GroupCall::Sync { set, bits, wait } => {
            let set = operand_value(editing, task, set);
            let bits = operand_value(editing, task, bits);
            sync(app, editing, task, group, set, bits, wait)
        }
    }
}
