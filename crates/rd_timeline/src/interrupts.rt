//! Interrupts that are made by themselves.

ghost use Rattle.std.specs.Prelude.{◌≡◌, ◌≢◌, ◌≤◌, ◌+◌, ◌↔◌, ◌⊎◌, IfErr, IfOk, IsErrOf, Ok};
ghost use Rattle.std.specs.Prelude.{OnErr, OnOk, false, length};
ghost use Rattle.rd_app.specs.Profiles.{has_interrupts};
ghost use Rattle.rd_interrupts.specs.Interrupts.{isr_answer};
ghost use Rattle.rd_moves.specs.Interrupts.{IsInterruptOf};
ghost use Rattle.rd_timeline.specs.Course.{by_interrupt, CanGo, HasGrown, IsAsItWas, IsFull};
ghost use Rattle.rd_timeline.specs.Course.{LacksRoom};
ghost use Rattle.rd_timeline.specs.History.{state_after};
ghost use Rattle.rd_timeline.specs.LogView.{bytes_of};
ghost use Rattle.rd_timeline.specs.Recorded.{RecordsMoves};
ghost use Rattle.rd_timeline.specs.declared.logged.TheConstants.{MAX_KEPT_BYTES};
ghost use Rattle.rd_calls.specs.Step.{step};
ghost use Rattle.rd_timeline.specs.Runs.{moved_on, moves_of};

use crate::timeline::Timeline;
use rd_calls::play::move_answer;
use rd_moves::carried::{Carried, Lent};
use rd_moves::interrupt::Interrupt;
use rd_moves::moves::Move;
use rd_refusal::refusal::Refusal;

impl Timeline {
    /// Makes an interrupt: it is laid on the moves done, and the moves undone are forgotten, also
    /// where it answers 0. Answers what it answered: 1 (`pdPASS`), or 0 where its item found no
    /// space (`errQUEUE_FULL`) or its notification left the entry alone (`pdFAIL`). A refusal leaves
    /// the timeline as it was: `MovesFull` where the moves done are at their limit, else `NoIsr`
    /// where the application has profile 1, else `NoMemory` where a growth was refused. There is no
    /// other.
    pub fn isr(&mut self, interrupt: Interrupt) -> Result<u32, Refusal>
        requires named { IsInterruptOf self.old.app interrupt }
        ensures answer { IfOk result (λ answer. answer ≡ isr_answer self.old.target interrupt) }
        ensures moves { OnOk result
            (moves_of self.new ≡ moved_on (moves_of self.old) (by_interrupt interrupt)) }
        ensures step { OnOk result
            (step self.old.app self.old.target (by_interrupt interrupt) ≡ Ok self.new.target) }
        ensures app { OnOk result (self.new.app ≡ self.old.app) }
        ensures limit { OnOk result (self.new.limit ≡ self.old.limit) }
        ensures recorded { OnOk result (RecordsMoves self.old self.new) }
        ensures leads { OnOk result (state_after self.new.app self.new.done ≡ Ok self.new.target) }
        ensures ahead { OnOk result
            (bytes_of self.old.log + MAX_KEPT_BYTES ≤ self.new.room.bytes) }
        ensures read { OnOk result (self.new.read ≡ self.old.read) }
        ensures moves_full { IsErrOf result Refusal.MovesFull ↔ IsFull self.old }
        ensures no_isr { IsErrOf result Refusal.NoIsr
            ↔ ((length self.old.done ≢ self.old.limit)
            × (has_interrupts self.old.app.profile ≡ false)) }
        ensures no_memory { IsErrOf result Refusal.NoMemory
            → CanGo self.old (by_interrupt interrupt) }
        ensures short { IsErrOf result Refusal.NoMemory
            → LacksRoom self.old (by_interrupt interrupt) }
        ensures refusals { IfErr result (λ refusal. (refusal ≡ Refusal.MovesFull)
            ⊎ (refusal ≡ Refusal.NoIsr) ⊎ (refusal ≡ Refusal.NoMemory)) }
        ensures grows { HasGrown self.old.room self.new.room }
        ensures err { OnErr result (IsAsItWas self.old self.new) }
    {
        self.by_invariant();
        let carried = Carried::Interrupt { interrupt };
        let action = Move::Carried {
            carried: Lent::new(&carried),
        };
        let answer = move_answer(self.app(), self.target(), &action).unwrap();
        self.go(&action)?;
        Ok(answer)
    }
}
