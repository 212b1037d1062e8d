//! Conditions on the target: what one looks for, with names bound to numbers.

ghost use Rattle.std.specs.Prelude.{◌≡◌};
ghost use Rattle.rd_condition.specs.Conditions.{amount_of, compares, has_ended, has_failed};
ghost use Rattle.rd_condition.specs.Conditions.{holds, is_named};
ghost use Rattle.rd_condition.specs.Conditions.{HasAmount, HasCondition};

use rd_state::phase::Phase;
use rd_state::state::State;

/// How an amount is compared with a number.
#[derive(Clone, Copy)]
pub enum Comparison {
    /// `=`: it is that number.
    Equal,
    /// `<`: it is less.
    Less,
    /// `>`: it is more.
    Greater,
}

/// What a phase is called, wherever its task waits and until when.
#[derive(Clone, Copy)]
pub enum PhaseName {
    /// `run`: the task goes on with its script.
    Run,
    /// `again`: it was woken and will try its call again.
    Again,
    /// `given`: it was given the bits of an event group.
    Given,
    /// `wait`: it waits.
    Wait,
    /// `ended`: its script has ended.
    Ended,
    /// `failed`: its call failed.
    Failed,
}

/// An amount that can be compared. Objects, tasks, registers and entries go by number.
#[derive(Clone, Copy)]
pub enum Amount {
    /// `count Q`: how many items the queue has (`uxQueueMessagesWaiting`).
    Items { queue: usize },
    /// `bytes B`: how many bytes the stream buffer has (`xStreamBufferBytesAvailable`).
    Bytes { stream: usize },
    /// `msgs M`: how many messages the message buffer has.
    Messages { message: usize },
    /// `bits G`: the bits of the event group (`xEventGroupGetBits`).
    Bits { group: usize },
    /// `reg K N`: a register of the task.
    Register { task: usize, register: usize },
    /// `pc K`: the instruction that the task stands at.
    Pc { task: usize },
    /// `note K N`: the value of a notification entry of the task.
    Value { task: usize, index: usize },
    /// `tick`: the tick count (`xTaskGetTickCount`).
    Tick,
}

/// A condition on the target.
#[derive(Clone, Copy)]
pub enum Condition {
    /// The amount compares so with the bound.
    Compares {
        amount: Amount,
        comparison: Comparison,
        bound: u32,
    },
    /// The task's phase is called so.
    InPhase {
        task: usize,
        name: PhaseName,
    },
}

impl Comparison {
    /// Whether an amount compares so with the bound.
    pub fn compares(self, amount: usize, bound: usize) -> bool
        ensures { result ≡ compares self amount bound }
    {
        match self {
            Comparison::Equal => amount == bound,
            Comparison::Less => amount < bound,
            Comparison::Greater => amount > bound,
        }
    }
}

impl PhaseName {
    /// Whether the phase is called so.
    pub fn names(self, phase: Phase) -> bool
        ensures { result ≡ is_named self phase }
    {
        match self {
            PhaseName::Run => phase.is_first(),
            PhaseName::Again => phase.tries_again(),
            PhaseName::Given => phase.given_bits().is_some(),
            PhaseName::Wait => phase.waits_at().is_some(),
            PhaseName::Ended => has_ended(phase),
            PhaseName::Failed => has_failed(phase),
        }
    }
}

// Whether the script of a task in this phase has ended.
fn has_ended(phase: Phase) -> bool
    ensures { result ≡ has_ended phase }
{
    match phase {
        Phase::Ended => true,
        Phase::Run
        | Phase::Again { .. }
        | Phase::Given { .. }
        | Phase::Wait { .. }
        | Phase::Failed { .. } => false,
    }
}

// Whether its call failed.
fn has_failed(phase: Phase) -> bool
    ensures { result ≡ has_failed phase }
{
    match phase {
        Phase::Failed { .. } => true,
        Phase::Run
        | Phase::Again { .. }
        | Phase::Given { .. }
        | Phase::Wait { .. }
        | Phase::Ended => false,
    }
}

impl Amount {
    /// How much it is in this state, which has what is named.
    pub fn of(self, state: &State) -> usize
        requires { HasAmount state.now self }
        ensures { result ≡ amount_of state.now self }
    {
        match self {
            Amount::Items { queue } => state.queue(queue).count(),
            Amount::Bytes { stream } => state.stream(stream).len(),
            Amount::Messages { message } => state.message(message).count(),
            Amount::Bits { group } => state.group(group).bits() as usize,
            Amount::Register { task, register } => state.task(task).register(register) as usize,
            Amount::Pc { task } => state.task(task).pc(),
            Amount::Value { task, index } => {
                state.task(task).entries().entry(index).value as usize
            }
            Amount::Tick => state.tick() as usize,
        }
    }
}

impl Condition {
    /// Whether the condition holds in this state, which has what is named. Each valid state of an
    /// application that has it does.
    pub fn holds(self, state: &State) -> bool
        requires { HasCondition state.now self }
        ensures { result ≡ holds state.now self }
    {
        match self {
            Condition::Compares {
                amount,
                comparison,
                bound,
            } => comparison.compares(amount.of(state), bound as usize),
            Condition::InPhase { task, name } => name.names(state.phase(task)),
        }
    }
}
