//! Records as bytes, and the way back by them.

ghost use Rattle.std.specs.Prelude.{◌≡◌, ◌+◌, ◌-◌, ◌<◌, ◌∷◌, ◌++◌, [], drop, length, take};
ghost use Rattle.std.specs.Prelude.{IfOk, OnOk};
ghost use Rattle.rd_packed.specs.Records.{last_of_all, records_packed};
ghost use Rattle.rd_state.specs.Change.{applied, inverse_of, the_change, Fits};
ghost use Rattle.rd_state.specs.Undoing.{CanUndo};

use crate::asserts::assert_same;
use rd_app::app::Program;
use rd_bytes::no_memory::NoMemory;
use rd_packed::packed::Packed;
use rd_state::change::Change;
use rd_state::state::State;
use rd_state::task_change::TaskChange;
use rd_state::undo::{Undo, act, each_change_is_undone};
use std::alloc::Global;
use std::process::Abort;
use std::test::Fail;

// Makes a change of a state, and answers the record that undoes it.
fn recorded(alloc: Global, state: &mut State, change: Change<'_>) -> Result<Undo, NoMemory>
    requires { Fits state.old (the_change change) }
    ensures leads_back { IfOk result (λ undo. CanUndo state.new undo) }
{
    each_change_is_undone();
    state.sizes();
    let mut undo = Undo::new(alloc);
    match act(state, &mut undo, change) {
        Ok(()) => Ok(undo),
        Err(error) => {
            undo.retire();
            Err(error)
        }
    }
}

// Goes back by the only record. The count of bytes read grows by all bytes that there are.
fn go_back_by_all(packed: &mut Packed, state: &mut State)
    requires one { length packed.old.records ≡ 1 }
    requires fits { CanUndo state.old (last_of_all packed.old.records) }
    ensures none { packed.new.records ≡ [] }
    ensures count { packed.new.read
        ≡ packed.old.read + length (records_packed packed.old.records) }
{
    packed.undo_last(state);
}

// Keeps a record by itself, and goes back by it. Answers whether these were all bytes, and how many
// records and bytes are left.
fn keep_and_go_back(
    alloc: Global,
    state: &mut State,
    undo: Undo,
    bytes: &[u8],
) -> (bool, usize, usize)
    requires { CanUndo state.old undo }
{
    let mut packed = Packed::new(alloc);
    let kept = if undo.bytes().len() < 1000 {
        packed.push(undo)
    } else {
        Err(undo)
    };
    let mut is_same = false;
    match kept {
        Ok(()) => {
            let len = packed.bytes();
            is_same = packed.read(0, len) == bytes;
            go_back_by_all(&mut packed, state);
        }
        Err(undo) => undo.retire(),
    }
    let left = (packed.len(), packed.bytes());
    packed.retire();
    (is_same, left.0, left.1)
}

// The kept record has these bytes, the two numbers at their end among them, and leads back to the
// state before.
fn packs(
    rt: &impl Abort,
    alloc: Global,
    state: &mut State,
    undo: Undo,
    before: &State,
    bytes: &[u8],
)
    requires { CanUndo state.old undo }
{
    let seen = keep_and_go_back(alloc, state, undo, bytes);
    assert_same(rt, seen, (true, 0, 0));
    assert!(rt; state.same(before));
}

#[test]
fn record_of_a_register(rt: HostRuntime) -> Result<(), Fail> {
    let alloc = rt.alloc();
    let mut state = State::boot(alloc, &Program::builtin(alloc)?)?;
    assert!(&rt; state.task_count() > 0);
    let (register, value) = (3, 9);
    let change = TaskChange::SetReg { register, value };
    let before = state.copy(alloc)?;
    let undo = recorded(alloc, &mut state, Change::Task { task: 0, change })?;
    let bytes = [0, 3, 0, 0, 0, 0, 5, 7, 0, 0, 0, 1, 0, 0, 0];
    packs(&rt, alloc, &mut state, undo, &before, &bytes);
    Ok(())
}

#[test]
fn record_of_data(rt: HostRuntime) -> Result<(), Fail> {
    let alloc = rt.alloc();
    let mut state = State::boot(alloc, &Program::builtin(alloc)?)?;
    assert!(&rt; state.task_count() > 0);
    let change = TaskChange::SetData { bytes: &[0x41] };
    recorded(alloc, &mut state, Change::Task { task: 0, change })?.retire();
    assert!(&rt; state.task_count() > 0);
    let change = TaskChange::SetData { bytes: &[] };
    let before = state.copy(alloc)?;
    assert!(&rt; state.task_count() > 0);
    let undo = recorded(alloc, &mut state, Change::Task { task: 0, change })?;
    let bytes = [0x41, 0, 1, 0, 8, 5, 0, 0, 0, 1, 0, 0, 0];
    packs(&rt, alloc, &mut state, undo, &before, &bytes);
    Ok(())
}

// Makes a change, and keeps the record that undoes it, if there is memory.
fn keeps(
    alloc: Global,
    packed: &mut Packed,
    state: &mut State,
    change: Change<'_>,
) -> Result<(), NoMemory>
    requires { Fits state.old (the_change change) }
    ensures state { OnOk result (state.new ≡ applied state.old (the_change change.entry)) }
    ensures records { OnOk result (packed.new.records
        ≡ packed.old.records ++ (inverse_of state.old (the_change change.entry) ∷ []) ∷ []) }
{
    let mut undo = Undo::new(alloc);
    let mut kept = act(state, &mut undo, change);
    if kept.is_ok() {
        kept = if undo.bytes().len() < 1000 {
            packed.append(undo.changes())
        } else {
            Err(NoMemory)
        };
    }
    undo.retire();
    kept
}

// Keeps so many of the last records. Answers how many there are then, and how many bytes.
fn left_of(packed: &mut Packed, n: usize) -> (usize, usize)
    ensures records { packed.new.records
        ≡ drop (length packed.old.records - n) packed.old.records }
{
    packed.keep_last(n);
    (packed.len(), packed.bytes())
}

// Goes back by the last record, which leads to this state.
fn leads_to(rt: &impl Abort, packed: &mut Packed, state: &mut State, before: &State)
    requires some { 0 < length packed.old.records }
    requires fits { CanUndo state.old (last_of_all packed.old.records) }
    ensures state { state.new ≡ before.now }
    ensures records { packed.new.records
        ≡ take (length packed.old.records - 1) packed.old.records }
{
    packed.undo_last(state);
    assert!(rt; state.same(before));
}

// Keeps the last two of three records and goes back by both, and keeps none of one more.
fn trims(
    rt: &impl Abort,
    alloc: Global,
    packed: &mut Packed,
    state: &mut State,
) -> Result<(), NoMemory>
    requires { packed.old.records ≡ [] }
{
    each_change_is_undone();
    let (register, value) = (3, 9);
    let change = TaskChange::SetReg { register, value };
    assert!(rt; state.task_count() > 0);
    keeps(alloc, packed, state, Change::Task { task: 0, change })?;
    let first = state.copy(alloc)?;
    let change = TaskChange::SetData { bytes: &[0x41] };
    assert!(rt; state.task_count() > 0);
    keeps(alloc, packed, state, Change::Task { task: 0, change })?;
    let second = state.copy(alloc)?;
    let change = TaskChange::SetData { bytes: &[] };
    assert!(rt; state.task_count() > 0);
    keeps(alloc, packed, state, Change::Task { task: 0, change })?;
    assert_same(rt, (packed.len(), packed.bytes()), (3, 40));
    assert_same(rt, left_of(packed, 2), (2, 25));
    assert_same(rt, left_of(packed, 5), (2, 25));
    leads_to(rt, packed, state, &second);
    leads_to(rt, packed, state, &first);
    assert_same(rt, left_of(packed, 5), (0, 0));
    let change = TaskChange::SetReg { register, value: 7 };
    assert!(rt; state.task_count() > 0);
    keeps(alloc, packed, state, Change::Task { task: 0, change })?;
    assert_same(rt, left_of(packed, 0), (0, 0));
    Ok(())
}

#[test]
fn last_records_are_kept(rt: HostRuntime) -> Result<(), Fail> {
    let alloc = rt.alloc();
    let mut state = State::boot(alloc, &Program::builtin(alloc)?)?;
    let mut packed = Packed::new(alloc);
    let result = trims(&rt, alloc, &mut packed, &mut state);
    packed.retire();
    result?;
    Ok(())
}
