//! The scheduler: who runs, once the ready list or a core has changed.

ghost use Rattle.std.specs.Prelude.{◌≡◌, ◌+◌, ◌*◌, ◌-◌, ◌<◌, ◌≤◌, length, slice_index};
ghost use Rattle.std.specs.Prelude.{Ok, false, true, IfOk, IsOk, OnOk, OnErr};
ghost use Rattle.rd_wait.specs.Joined.{joined};
ghost use Rattle.rd_state.specs.EditingView.{room_for, GivesUp, Reaches};
ghost use Rattle.rd_state.specs.Settled.{settled, settled_in, rotated, weakest_of, rank_of};
ghost use Rattle.rd_state.specs.Settled.{head_of, running_on, with_head_on, after_one_round};
ghost use Rattle.rd_state.specs.Settled.{lineup_of, shares_core, with_lineup, IsSettled};
ghost use Rattle.rd_state.specs.Settled.{SchedulingSettles};
ghost use Rattle.rd_state.specs.Sizes.{IsTaskOrIdle};

use crate::change::Change;
use crate::editing::Editing;
use crate::state::State;
use rd_bytes::no_memory::NoMemory;

/// How hard a core is to take: an idle one not at all, a busy one as its task's priority says.
fn rank_of(priorities: &[u8], running: Option<usize>) -> usize
    requires { IsTaskOrIdle (length priorities.now) running }
    ensures { result ≡ rank_of priorities.now running }
{
    match running {
        None => 0,
        Some(task) => usize::from(priorities[task]) + 1,
    }
}

impl State {
    /// The core that is easiest to take: an idle one, else the one whose task has the lowest
    /// priority; the lowest of those where several are. And how hard that is to take.
    fn weakest_core(&self, priorities: &[u8]) -> (usize, usize)
        requires cores { 0 < length self.now.cores }
        requires priorities { length priorities.now ≡ length self.now.tasks }
        ensures weakest { result.0 ≡ weakest_of priorities.now self.now.cores }
        ensures within { result.0 < length self.now.cores }
        ensures rank { result.1 ≡ rank_of priorities.now (running_on self.now.cores result.0) }
    {
        let mut weakest = 0;
        let mut lowest = rank_of(priorities, self.core(0));
        for core in 1..self.cores().len() {
            let rank = rank_of(priorities, self.core(core));
            if rank < lowest {
                weakest = core;
                lowest = rank;
            }
        }
        (weakest, lowest)
    }
}

impl Editing {
    /// Joins a task to the ready list, at the index of its priority.
    #[inline(always)]
    pub fn join_ready(&mut self, priorities: &[u8], task: usize) -> Result<(), NoMemory>
        requires task { task < length self.old.now.tasks }
        requires room { length self.old.now.ready < length self.old.now.tasks }
        requires priorities { length priorities.now ≡ length self.old.now.tasks }
        ensures ok { OnOk result (Reaches self.old self.new
            (record self.old.now { ready = joined priorities.now self.old.now.ready task }) 1) }
        ensures short { OnErr result (self.old.room < room_for 1) }
        ensures err { OnErr result (self.new ≡ self.old) }
    {
        let index = self.state().ready().index_for(priorities, priorities[task]);
        self.change(Change::InsReady { index, task })
    }

    // The head of the ready list takes the core, and who ran there joins the list.
    fn take_core(&mut self, priorities: &[u8], core: usize, head: usize) -> Result<(), NoMemory>
        requires core { core < length self.old.now.cores }
        requires some { 0 < length self.old.now.ready }
        requires head { head ≡ head_of self.old.now.ready }
        requires priorities { length priorities.now ≡ length self.old.now.tasks }
        ensures ok { OnOk result (Reaches self.old self.new
            (with_lineup self.old.now (with_head_on priorities.now (lineup_of self.old.now) core)) 3) }
        ensures err { OnErr result (GivesUp self.old self.new 3) }
    {
        let running = self.state().core(core);
        self.change(Change::DelReady { index: 0 })?;
        if let Some(displaced) = running {
            self.join_ready(priorities, displaced)?;
        }
        let task = Some(head);
        self.change(Change::SetCore { core, task })
    }

    /// The head of the ready list takes the weakest core, if it outranks who
    /// runs there. Answers whether it did.
    fn run_head(&mut self, priorities: &[u8]) -> Result<bool, NoMemory>
        requires cores { 0 < length self.old.now.cores }
        requires priorities { length priorities.now ≡ length self.old.now.tasks }
        ensures ok { OnOk result
            (Reaches self.old self.new (settled_in priorities.now 1 self.old.now) 3) }
        ensures settled { IsSettled priorities.now self.old.now → result ≡ Ok false }
        ensures still { result ≡ Ok false
            → after_one_round priorities.now (lineup_of self.old.now) ≡ lineup_of self.old.now }
        ensures err { OnErr result (GivesUp self.old self.new 3) }
    {
        let Some(head) = self.state().ready().first() else {
            return Ok(false);
        };
        let (core, rank) = self.state().weakest_core(priorities);
        if rank > usize::from(priorities[head]) {
            return Ok(false);
        }
        self.take_core(priorities, core, head)?;
        Ok(true)
    }

    /// Lets heads of the ready list take cores, for at most `rounds` rounds.
    fn settle_in(&mut self, priorities: &[u8], rounds: usize) -> Result<(), NoMemory>
        requires cores { 0 < length self.old.now.cores }
        requires priorities { length priorities.now ≡ length self.old.now.tasks }
        ensures ok { OnOk result
            (Reaches self.old self.new (settled_in priorities.now rounds self.old.now)
            (3 * rounds)) }
        ensures settled { IsSettled priorities.now self.old.now → IsOk result }
        ensures err { OnErr result (GivesUp self.old self.new (3 * rounds)) }
    {
        if rounds == 0 {
            return Ok(());
        }
        if self.run_head(priorities)? {
            self.settle_in(priorities, rounds - 1)
        } else {
            Ok(())
        }
    }

    /// Schedules: ready tasks take idle cores and displace tasks of lower priority, until none can.
    /// Where none can to begin with, no memory is taken; where nothing has called for it since the
    /// move began in a settled state, nobody is looked at.
    pub fn settle(&mut self, priorities: &[u8]) -> Result<(), NoMemory>
        requires cores { 0 < length self.old.now.cores }
        requires priorities { length priorities.now ≡ length self.old.now.tasks }
        requires calm { self.old.outset.calm ≡ true
            → IsSettled priorities.now self.old.outset.state }
        ensures ok { OnOk result (Reaches self.old self.new (settled priorities.now self.old.now)
            (3 * length self.old.now.cores)) }
        ensures settled { IsSettled priorities.now self.old.now → IsOk result }
        ensures err { OnErr result (GivesUp self.old self.new (3 * length self.old.now.cores)) }
    {
        if self.is_calm() {
            return Ok(());
        }
        let rounds = self.state().cores().len();
        self.settle_in(priorities, rounds)
    }

    /// Lets tasks of one priority take turns: where the head of the ready list has the
    /// priority of the task on the core, it takes the core (`configUSE_TIME_SLICING`).
    /// Where it hasn't, no memory is taken.
    pub fn rotate(&mut self, priorities: &[u8], core: usize) -> Result<(), NoMemory>
        requires core { core < length self.old.now.cores }
        requires priorities { length priorities.now ≡ length self.old.now.tasks }
        ensures ok { OnOk result
            (Reaches self.old self.new (rotated priorities.now core self.old.now) 3) }
        ensures stays { shares_core priorities.now (lineup_of self.old.now) core ≡ false
            → IsOk result }
        ensures err { OnErr result (GivesUp self.old self.new 3) }
    {
        let Some(head) = self.state().ready().first() else {
            return Ok(());
        };
        let running = self.state().core(core);
        if rank_of(priorities, running) != usize::from(priorities[head]) + 1 {
            return Ok(());
        }
        self.take_core(priorities, core, head)
    }
}

/// A law: scheduling ends with no ready task above a running one and no core idle while one is
/// ready, and a state that is scheduled isn't changed by scheduling it again.
pub fn scheduling_settles()
    ensures { SchedulingSettles }
{}
