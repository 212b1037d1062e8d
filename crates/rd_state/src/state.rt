//! The whole state of the target: what is read of it, and each primitive change of it.

ghost use Rattle.std.specs.Prelude.{◌≡◌, ◌<◌, ◌≤◌, ◌↔◌, length, All, IfOk, IsTrue};
ghost use Rattle.rd_state.specs.Boot.{before_scheduling};
ghost use Rattle.rd_state.specs.Change as changes;
ghost use Rattle.rd_state.specs.Change.{applied, inverse_of, the_change, Fits};
ghost use Rattle.rd_state.specs.Objects.{the_object_change, AreSizedObjects, IsMessageBufferFor};
ghost use Rattle.rd_state.specs.Objects.{IsGroupFor, IsQueueFor, IsQueueSetFor, IsStreamFor};
ghost use Rattle.rd_state.specs.Settled.{weakest_of, rank_of};
ghost use Rattle.rd_state.specs.Sizes.{IsSized, IsSizedPhase, IsTaskOrIdle};
ghost use Rattle.rd_state.specs.Snapshot.{hollow_state, numbers_of, task_at, queue_at};
ghost use Rattle.rd_state.specs.Snapshot.{core_at, group_at, message_at, queue_set_at, stream_at};
ghost use Rattle.rd_state.specs.Snapshot.{SameScheduling, SameObjects};
ghost use Rattle.rd_state.specs.TaskChanges.{the_task_change};
ghost use Rattle.rd_state.specs.Transfers.{change_of, CanTransfer, HasSink, HasSource};
ghost use Rattle.rd_state.specs.declared.transfer.Transfer.TheVariants as transfer;
ghost use Rattle.rd_state.specs.Waiting.{holder_at, waiting_at, HasHeld, HasList};

use crate::boot::{all_ready, new_tasks};
use crate::change::Change;
use crate::objects::{ObjectChange, Objects};
use crate::phase::{Held, Listed, Phase};
use crate::task::Task;
use crate::task_change::TaskChange;
use crate::transfer::{Sink, Source, Transfer};
use crate::whole::{all_same, copy_all};
use rd_app::app::Program;
use rd_app::both::both;
use rd_bytes::no_memory::NoMemory;
use rd_group::group::Group;
use rd_queue::queue::Queue;
use rd_queue::queue_set::QueueSet;
use rd_stream::message_buf::MessageBuf;
use rd_stream::stream_buf::StreamBuf;
use rd_wait::prio_list::PrioList;
use std::alloc::Global;
use std::marker::Model;

/// The whole state of the target. It changes by primitive changes alone.
pub struct State {
    tick: u32,
    turn: usize,
    cores: Vec<Option<usize>>,
    ready: PrioList,
    tasks: Vec<Task>,
    objects: Objects,
}

// (Written out, so that a drop of one is a call: no proof elsewhere has to look into its parts.)
impl Drop for State {
    fn drop(self) {
        let State {
            tick: _,
            turn: _,
            cores: _cores,
            ready: _ready,
            tasks: _tasks,
            objects: _objects,
        } = self;
    }
}

impl Model for State {
    ghost use Rattle.rd_state.specs.Snapshot.{Snapshot};

    ghost Value = { Snapshot };

    ghost use Rattle.rd_state.specs.Inside.{snapshot_of, HasSizes};

    ghost view = { snapshot_of };

    ghost invariant = { HasSizes };
}

// Whether the same tasks run on the cores.
fn same_cores(cores: &[Option<usize>], others: &[Option<usize>]) -> bool
    ensures { IsTrue result ↔ (cores.now ≡ others.now) }
{
    cores == others
}

impl State {
    /// A state of nothing, which takes no memory. It stands in for
    /// a state that is taken out for a while.
    pub fn hollow(alloc: Global) -> State
        ensures { result ≡ hollow_state }
    {
        State {
            tick: 0,
            turn: 0,
            cores: Vec::new(alloc),
            ready: PrioList::without_capacity(alloc),
            tasks: Vec::new(alloc),
            objects: Objects::none(alloc),
        }
    }

    // The state before anything is scheduled.
    pub(crate) fn before_scheduling(alloc: Global, app: &Program) -> Result<State, NoMemory>
        ensures { IfOk result (λ state. state ≡ before_scheduling app.now) }
    {
        app.limits();
        let priorities = app.priorities();
        let cores = vec![in alloc; None; app.cores()]?;
        let (ready, (tasks, objects)) = both(
            all_ready(alloc, priorities),
            both(
                new_tasks(alloc, priorities.len(), app.entries()),
                Objects::new(alloc, app),
            ),
        )?;
        Ok(State {
            tick: app.tick(),
            turn: 0,
            cores,
            ready,
            tasks,
            objects,
        })
    }

    /// An equal state.
    pub fn copy(&self, alloc: Global) -> Result<State, NoMemory>
        ensures { IfOk result (λ state. state ≡ self.now) }
    {
        let cores = Vec::from_slice(alloc, self.cores.as_slice())?;
        let ready = self.ready.copy(alloc)?;
        let (tasks, objects) = both(
            copy_all(alloc, self.tasks.as_slice()),
            self.objects.copy(alloc),
        )?;
        Ok(State {
            tick: self.tick,
            turn: self.turn,
            cores,
            ready,
            tasks,
            objects,
        })
    }

    // Whether time and turn are the same, and who runs and is ready.
    fn same_scheduling(&self, other: &State) -> bool
        ensures { IsTrue result ↔ SameScheduling self.now other.now }
    {
        self.tick == other.tick
            && self.turn == other.turn
            && same_cores(self.cores.as_slice(), other.cores.as_slice())
            && self.ready.as_slice() == other.ready.as_slice()
    }

    // Whether the tasks and the objects are equal.
    fn same_objects(&self, other: &State) -> bool
        ensures { IsTrue result ↔ SameObjects self.now other.now }
    {
        all_same(self.tasks.as_slice(), other.tasks.as_slice()) && self.objects.same(&other.objects)
    }

    /// Whether the other state is the same, to the last field.
    pub fn same(&self, other: &State) -> bool
        ensures { IsTrue result ↔ (self.now ≡ other.now) }
    {
        self.same_scheduling(other) && self.same_objects(other)
    }

    /// For contracts alone: the sizes that every state keeps.
    pub fn sizes(&self)
        ensures { IsSized self.now }
    {
        let _ = &self.turn;
    }

    /// The tick count (`xTaskGetTickCount`).
    pub fn tick(&self) -> u32
        ensures { result ≡ self.now.tick }
    {
        self.tick
    }

    /// The core from which the next move is chosen.
    pub fn turn(&self) -> usize
        ensures turn { result ≡ self.now.turn }
        ensures within { result ≤ length self.now.cores }
    {
        self.turn
    }

    /// The cores by number: the task on each, or none where it is idle.
    pub fn cores(&self) -> &[Option<usize>]
        ensures { result.now ≡ self.now.cores }
    {
        self.cores.as_slice()
    }

    /// The task on a core.
    pub fn core(&self, core: usize) -> Option<usize>
        requires { core < length self.now.cores }
        ensures core { result ≡ core_at self.now core }
        ensures task { IsTaskOrIdle (length self.now.tasks) result }
    {
        self.cores[core]
    }

    /// The tasks that are ready and not on a core, the first to run first.
    pub fn ready(&self) -> &PrioList
        ensures tasks { result.now.tasks ≡ self.now.ready }
        ensures members { All (λ task. task < length self.now.tasks) self.now.ready }
        ensures room { result.now.capacity ≡ length self.now.tasks }
    {
        &self.ready
    }

    /// How many tasks there are.
    pub fn task_count(&self) -> usize
        ensures { result ≡ length self.now.tasks }
    {
        self.tasks.len()
    }

    /// A task.
    pub fn task(&self, task: usize) -> &Task
        requires { task < length self.now.tasks }
        ensures { result.now ≡ task_at self.now task }
    {
        &self.tasks[task]
    }

    /// What a task does. A place where it waits is there, and a deadline is below 2^33.
    pub fn phase(&self, task: usize) -> Phase
        requires { task < length self.now.tasks }
        ensures phase { result ≡ (task_at self.now task).phase }
        ensures sized { IsSizedPhase (numbers_of self.now) result }
    {
        self.sizes();
        self.task(task).phase()
    }

    /// The objects, each kind by number.
    pub fn objects(&self) -> &Objects
        ensures objects { result.now ≡ self.now.objects }
        ensures sized { AreSizedObjects (length self.now.tasks) result.now }
    {
        self.sizes();
        &self.objects
    }

    /// How many queues there are.
    pub fn queue_count(&self) -> usize
        ensures { result ≡ length self.now.objects.queues }
    {
        self.objects.queue_count()
    }

    /// A queue.
    pub fn queue(&self, queue: usize) -> &Queue
        requires { queue < length self.now.objects.queues }
        ensures queue { result.now ≡ queue_at self.now queue }
        ensures sized { IsQueueFor (length self.now.tasks)
            (length self.now.objects.queue_sets) result.now }
    {
        self.objects.queue(queue)
    }

    /// A queue set.
    pub fn queue_set(&self, queue_set: usize) -> &QueueSet
        requires { queue_set < length self.now.objects.queue_sets }
        ensures queue_set { result.now ≡ queue_set_at self.now queue_set }
        ensures sized { IsQueueSetFor (length self.now.tasks)
            (length self.now.objects.queues) result.now }
    {
        self.objects.queue_set(queue_set)
    }

    /// A stream buffer.
    pub fn stream(&self, stream: usize) -> &StreamBuf
        requires { stream < length self.now.objects.streams }
        ensures stream { result.now ≡ stream_at self.now stream }
        ensures sized { IsStreamFor (length self.now.tasks) result.now }
    {
        self.objects.stream(stream)
    }

    /// A message buffer.
    pub fn message(&self, message: usize) -> &MessageBuf
        requires { message < length self.now.objects.messages }
        ensures message { result.now ≡ message_at self.now message }
        ensures sized { IsMessageBufferFor (length self.now.tasks) result.now }
    {
        self.objects.message(message)
    }

    /// An event group.
    pub fn group(&self, group: usize) -> &Group
        requires { group < length self.now.objects.groups }
        ensures group { result.now ≡ group_at self.now group }
        ensures sized { IsGroupFor (length self.now.tasks) result.now }
    {
        self.objects.group(group)
    }

    /// Whom the place of a buffer names, if anybody.
    pub fn holder(&self, held: Held) -> Option<usize>
        requires { HasHeld self.now held }
        ensures holder { result ≡ holder_at self.now held }
        ensures task { IsTaskOrIdle (length self.now.tasks) result }
    {
        match held {
            Held::Stream { stream, side } => self.stream(stream).holder(side),
            Held::Message { message, side } => self.message(message).holder(side),
        }
    }

    /// The tasks that wait in a list, the first to be served first.
    pub fn waiting(&self, place: Listed) -> &[usize]
        requires { HasList self.now place }
        ensures tasks { result.now ≡ waiting_at self.now place }
        ensures members { All (λ task. task < length self.now.tasks) (waiting_at self.now place) }
        ensures few { length result.now ≤ length self.now.tasks }
    {
        match place {
            Listed::Queue { queue, list } => self.queue(queue).waiting(list).as_slice(),
            Listed::QueueSet { queue_set } => self.queue_set(queue_set).waiting().as_slice(),
            Listed::Group { group } => self.group(group).waiting().as_slice(),
        }
    }

    #[inline(always)]
    fn set_tick(&mut self, tick: u32)
        requires { Fits self.old (changes.SetTick tick) }
        ensures { self.new ≡ applied self.old (changes.SetTick tick) }
    {
        self.tick = tick;
    }

    #[inline(always)]
    fn set_turn(&mut self, turn: usize)
        requires { Fits self.old (changes.SetTurn turn) }
        ensures { self.new ≡ applied self.old (changes.SetTurn turn) }
    {
        self.turn = turn;
    }

    #[inline(always)]
    fn set_core(&mut self, core: usize, task: Option<usize>)
        requires { Fits self.old (changes.SetCore core task) }
        ensures { self.new ≡ applied self.old (changes.SetCore core task) }
    {
        self.cores[core] = task;
    }

    #[inline(always)]
    fn insert_ready(&mut self, index: usize, task: usize)
        requires { Fits self.old (changes.InsReady index task) }
        ensures { self.new ≡ applied self.old (changes.InsReady index task) }
    {
        self.ready.insert_at(index, task);
    }

    #[inline(always)]
    fn delete_ready(&mut self, index: usize)
        requires { Fits self.old (changes.DelReady index) }
        ensures { self.new ≡ applied self.old (changes.DelReady index) }
    {
        self.ready.remove_at(index);
    }

    #[inline(always)]
    pub(crate) fn change_task(&mut self, task: usize, change: TaskChange<'_>)
        requires { Fits self.old (changes.Task task (the_task_change change)) }
        ensures { self.new
            ≡ applied self.old (changes.Task task (the_task_change change.entry)) }
    {
        let target = &mut self.tasks[task];
        target.apply(change);
    }

    #[inline(always)]
    pub(crate) fn change_object(&mut self, change: ObjectChange<'_>)
        requires { Fits self.old (changes.Object (the_object_change change)) }
        ensures { self.new ≡ applied self.old (changes.Object (the_object_change change.entry)) }
    {
        self.objects.apply(change);
    }

    /// Makes a change. It takes no memory.
    #[inline(always)]
    pub fn apply(&mut self, change: Change<'_>)
        requires { Fits self.old (the_change change) }
        ensures { self.new ≡ applied self.old (the_change change.entry) }
    {
        match change {
            Change::SetTick { tick } => self.set_tick(tick),
            Change::SetTurn { turn } => self.set_turn(turn),
            Change::SetCore { core, task } => self.set_core(core, task),
            Change::InsReady { index, task } => self.insert_ready(index, task),
            Change::DelReady { index } => self.delete_ready(index),
            Change::Task { task, change } => self.change_task(task, change),
            Change::Object { change } => self.change_object(change),
        }
    }

    #[inline(always)]
    fn transfer_from_data(&mut self, task: usize, sink: Sink)
        requires { CanTransfer self.old (transfer.FromData task sink) }
        ensures { self.new ≡ applied self.old (change_of self.old (transfer.FromData task sink)) }
    {
        let bytes = self.tasks[task].bytes();
        self.objects.sink(sink, bytes);
    }

    #[inline(always)]
    fn transfer_to_data(&mut self, source: Source, task: usize)
        requires { CanTransfer self.old (transfer.ToData source task) }
        ensures { self.new ≡ applied self.old (change_of self.old (transfer.ToData source task)) }
    {
        let (front, back) = self.objects.bytes_at(source);
        let target = &mut self.tasks[task];
        target.set_halves(front, back);
    }

    /// Makes the change that a transfer stands for, with no copy of the bytes but the one that
    /// stays. It takes no memory.
    #[inline(always)]
    pub fn transfer(&mut self, transfer: Transfer)
        requires { CanTransfer self.old transfer }
        ensures { self.new ≡ applied self.old (change_of self.old transfer) }
    {
        match transfer {
            Transfer::FromData { task, sink } => self.transfer_from_data(task, sink),
            Transfer::ToData { source, task } => self.transfer_to_data(source, task),
        }
    }

    /// The change that undoes what comes of a task's data to a sink, made at this state, which
    /// lends it its bytes. It takes no memory.
    #[inline(always)]
    pub(crate) fn inverse_of_sink(&self, task: usize, sink: Sink) -> ObjectChange<'_>
        requires { CanTransfer self.now (transfer.FromData task sink) }
        ensures { changes.Object (the_object_change result)
            ≡ inverse_of self.now (change_of self.now (transfer.FromData task sink)) }
    {
        let bytes = self.task(task).bytes();
        self.objects.inverse_of_sink(sink, bytes)
    }

    /// The change that undoes `change`, made at this state, which lends it its bytes. It takes no
    /// memory.
    #[inline(always)]
    pub fn inverse_of(&self, change: Change<'_>) -> Change<'_>
        requires { Fits self.now (the_change change) }
        ensures { the_change result ≡ inverse_of self.now (the_change change.entry) }
    {
        match change {
            Change::SetTick { .. } => Change::SetTick { tick: self.tick },
            Change::SetTurn { .. } => Change::SetTurn { turn: self.turn },
            Change::SetCore { core, .. } => Change::SetCore {
                core,
                task: self.core(core),
            },
            Change::InsReady { index, .. } => Change::DelReady { index },
            Change::DelReady { index } => Change::InsReady {
                index,
                task: self.ready.as_slice()[index],
            },
            Change::Task { task, change } => Change::Task {
                task,
                change: self.task(task).inverse_of(change),
            },
            Change::Object { change } => Change::Object {
                change: self.objects.inverse_of(change),
            },
        }
    }
}
