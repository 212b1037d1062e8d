//! Claims as words.

ghost use Rattle.std.specs.Prelude.{◌≡◌, ◌≢◌, ◌<◌, ◌∷◌, ℕ, List, [], codes, length};
ghost use Rattle.std.specs.Prelude.{IfErr, IfNone, IfOk, IfSome, IsErrOf};
ghost use Rattle.rd_app.specs.Application.{Application};
ghost use Rattle.rd_condition.specs.Conditions.{IsAmountOf};
ghost use Rattle.rd_condition.specs.declared.condition.Condition.TheVariants as condition;
ghost use Rattle.rd_goal.specs.declared.claim.Claim.TheVariants as claim;
ghost use Rattle.rd_goal.specs.Claims.{IsClaimOf};
ghost use Rattle.rd_goal.specs.Reading.{IsLast, IsRefusal, Reads, ReadsAbout, ReadsAmount};
ghost use Rattle.rd_goal.specs.Reading.{IsWhyNot, ReadsBehind, ReadsClaim, ReadsPlace, has_bits};
ghost use Rattle.rd_goal.specs.declared.reading.NoGoal.TheVariants.{Ends};
ghost use Rattle.rd_goal.specs.declared.reading.Wanted.TheVariants.{Claim as ClaimWanted};
ghost use Rattle.rd_goal.specs.Written.{IsAlone, IsNoneOf, Named, claim_words, list_word};
ghost use Rattle.rd_goal.specs.Written.{message_word, opening_words, place_words, side_word};
ghost use Rattle.rd_goal.specs.Written.{stream_word};
ghost use Rattle.rd_state.specs.declared.phase.Held.TheVariants as held;
ghost use Rattle.rd_state.specs.declared.phase.Listed.TheVariants as listed;
ghost use Rattle.rd_state.specs.declared.phase.Place.TheVariants as sort;
ghost use Rattle.rd_text.specs.declared.kind.Kind.TheVariants as kind;

use crate::claim::Claim;
use crate::reading::{NoGoal, Wanted};
use crate::words::GoalReader;
use rd_condition::condition::{Amount, Condition, PhaseName};
use rd_queue::waiting_list::WaitingList;
use rd_state::phase::{Held, Listed, Place};
use rd_stream::side::Side;

// The claim that compares this amount, of the words behind it.
#[tactic(auto, using(crate::proofs::WordLaws::reads_more))]
fn compared(amount: Amount, reader: &mut GoalReader<'_, '_>) -> Result<Claim, NoGoal>
    requires { IsAmountOf reader.old.source.app.runs amount }
    ensures claim { IfOk result (IsClaimOf reader.old.source.app.runs) }
    ensures read { IfOk result (ReadsAbout amount reader.old reader.new) }
    ensures wrong { IfErr result (IsRefusal reader.old.source) }
    ensures source { reader.new.source ≡ reader.old.source }
{
    let comparison = reader.comparison()?;
    let bound = reader.number()?;
    Ok(Claim::Holds {
        condition: Condition::Compares {
            amount,
            comparison,
            bound,
        },
    })
}

// The claim that compares this amount, or some of its bits.
fn masked(amount: Amount, reader: &mut GoalReader<'_, '_>) -> Result<Claim, NoGoal>
    requires { IsAmountOf reader.old.source.app.runs amount }
    ensures claim { IfOk result (IsClaimOf reader.old.source.app.runs) }
    ensures read { IfOk result (ReadsAbout amount reader.old reader.new) }
    ensures wrong { IfErr result (IsRefusal reader.old.source) }
    ensures source { reader.new.source ≡ reader.old.source }
{
    if !reader.takes(b"&") {
        return compared(amount, reader);
    }
    let mask = reader.number()?;
    let comparison = reader.comparison()?;
    let bound = reader.number()?;
    Ok(Claim::Masked {
        amount,
        mask,
        comparison,
        bound,
    })
}

// The claim that compares a register with a number or with another register.
fn against(amount: Amount, reader: &mut GoalReader<'_, '_>) -> Result<Claim, NoGoal>
    requires { IsAmountOf reader.old.source.app.runs amount }
    ensures claim { IfOk result (IsClaimOf reader.old.source.app.runs) }
    ensures read { IfOk result (ReadsAbout amount reader.old reader.new) }
    ensures wrong { IfErr result (IsRefusal reader.old.source) }
    ensures source { reader.new.source ≡ reader.old.source }
{
    let comparison = reader.comparison()?;
    if reader.takes(b"reg") {
        let other = register(reader)?;
        return Ok(Claim::Among {
            amount,
            comparison,
            other,
        });
    }
    let bound = reader.number()?;
    Ok(Claim::Holds {
        condition: Condition::Compares {
            amount,
            comparison,
            bound,
        },
    })
}

// A register, behind `reg`.
fn register(reader: &mut GoalReader<'_, '_>) -> Result<Amount, NoGoal>
    ensures amount { IfOk result (IsAmountOf reader.old.source.app.runs) }
    ensures read { IfOk result (ReadsAmount (codes "reg") reader.old reader.new) }
    ensures wrong { IfErr result (IsRefusal reader.old.source) }
    ensures source { reader.new.source ≡ reader.old.source }
{
    let task = reader.task()?;
    let register = reader.register()?;
    Ok(Amount::Register { task, register })
}

// The claim that compares a register, or some of its bits.
#[tactic(auto, using(crate::proofs::ClaimLaws::about_behind))]
fn register_claim(reader: &mut GoalReader<'_, '_>) -> Result<Claim, NoGoal>
    ensures claim { IfOk result (IsClaimOf reader.old.source.app.runs) }
    ensures read { IfOk result (ReadsBehind (codes "reg") reader.old reader.new) }
    ensures wrong { IfErr result (IsRefusal reader.old.source) }
    ensures source { reader.new.source ≡ reader.old.source }
{
    let amount = register(reader)?;
    if reader.is_ahead(b"&") {
        masked(amount, reader)
    } else {
        against(amount, reader)
    }
}

// The value of a notification entry, behind `note`.
fn value(reader: &mut GoalReader<'_, '_>) -> Result<Amount, NoGoal>
    ensures amount { IfOk result (IsAmountOf reader.old.source.app.runs) }
    ensures read { IfOk result (ReadsAmount (codes "note") reader.old reader.new) }
    ensures wrong { IfErr result (IsRefusal reader.old.source) }
    ensures source { reader.new.source ≡ reader.old.source }
{
    let task = reader.task()?;
    let index = reader.index()?;
    Ok(Amount::Value { task, index })
}

// A side of a stream buffer.
fn of_stream(side: Side, reader: &mut GoalReader<'_, '_>) -> Result<Place, NoGoal>
    ensures read { IfOk result (λ place. (stream : ℕ)
        × (place ≡ sort.Held (held.Stream stream side))
        × Reads (Named kind.Stream stream ∷ []) reader.old reader.new) }
    ensures wrong { IfErr result (IsRefusal reader.old.source) }
    ensures source { reader.new.source ≡ reader.old.source }
{
    let stream = reader.stream()?;
    Ok(Place::Held {
        held: Held::Stream { stream, side },
    })
}

// A side of a message buffer.
fn of_message(side: Side, reader: &mut GoalReader<'_, '_>) -> Result<Place, NoGoal>
    ensures read { IfOk result (λ place. (message : ℕ)
        × (place ≡ sort.Held (held.Message message side))
        × Reads (Named kind.Message message ∷ []) reader.old reader.new) }
    ensures wrong { IfErr result (IsRefusal reader.old.source) }
    ensures source { reader.new.source ≡ reader.old.source }
{
    let message = reader.message()?;
    Ok(Place::Held {
        held: Held::Message { message, side },
    })
}

// A side of the buffer of whichever kind has that name.
fn of_buffer(side: Side, reader: &mut GoalReader<'_, '_>) -> Result<Place, NoGoal>
    ensures read { IfOk result (ReadsPlace (side_word side) reader.old reader.new) }
    ensures wrong { IfErr result (IsRefusal reader.old.source) }
    ensures source { reader.new.source ≡ reader.old.source }
{
    if reader.names_stream()? {
        of_stream(side, reader)
    } else {
        of_message(side, reader)
    }
}

// One of a queue's lists.
fn of_queue(list: WaitingList, reader: &mut GoalReader<'_, '_>) -> Result<Place, NoGoal>
    ensures read { IfOk result (ReadsPlace (list_word list) reader.old reader.new) }
    ensures wrong { IfErr result (IsRefusal reader.old.source) }
    ensures source { reader.new.source ≡ reader.old.source }
{
    let queue = reader.queue()?;
    Ok(Place::Listed {
        list: Listed::Queue { queue, list },
    })
}

// A queue set.
fn of_queue_set(reader: &mut GoalReader<'_, '_>) -> Result<Place, NoGoal>
    ensures read { IfOk result (ReadsPlace (codes "select") reader.old reader.new) }
    ensures wrong { IfErr result (IsRefusal reader.old.source) }
    ensures source { reader.new.source ≡ reader.old.source }
{
    let queue_set = reader.queue_set()?;
    Ok(Place::Listed {
        list: Listed::QueueSet { queue_set },
    })
}

// An event group.
fn of_group(reader: &mut GoalReader<'_, '_>) -> Result<Place, NoGoal>
    ensures read { IfOk result (ReadsPlace (codes "group") reader.old reader.new) }
    ensures wrong { IfErr result (IsRefusal reader.old.source) }
    ensures source { reader.new.source ≡ reader.old.source }
{
    let group = reader.group()?;
    Ok(Place::Listed {
        list: Listed::Group { group },
    })
}

// A notification entry.
fn of_entry(reader: &mut GoalReader<'_, '_>) -> Result<Place, NoGoal>
    ensures read { IfOk result (ReadsPlace (codes "note") reader.old reader.new) }
    ensures wrong { IfErr result (IsRefusal reader.old.source) }
    ensures source { reader.new.source ≡ reader.old.source }
{
    let index = reader.index()?;
    Ok(Place::Entry { index })
}

// The side of a stream buffer that this word is.
fn stream_side_of(word: &[u8]) -> Option<Side>
    ensures said { IfSome result (λ side. word.now ≡ stream_word side) }
    ensures other { IfNone result ((side : Side) → word.now ≢ stream_word side) }
{
    match word {
        b"sread" => Some(Side::Reader),
        b"swrite" => Some(Side::Writer),
        _ => None,
    }
}

// The side of a message buffer that this word is.
fn message_side_of(word: &[u8]) -> Option<Side>
    ensures said { IfSome result (λ side. word.now ≡ message_word side) }
    ensures other { IfNone result ((side : Side) → word.now ≢ message_word side) }
{
    match word {
        b"mread" => Some(Side::Reader),
        b"mwrite" => Some(Side::Writer),
        _ => None,
    }
}

// The place that begins with this word, which says which kind of buffer it is.
fn of_one_kind(word: &[u8], reader: &mut GoalReader<'_, '_>) -> Result<Place, NoGoal>
    requires last { IsLast reader.old word.now }
    requires other { IsNoneOf place_words word.now }
    ensures read { IfOk result (ReadsPlace word.now reader.old reader.new) }
    ensures wrong { IfErr result (IsRefusal reader.old.source) }
    ensures source { reader.new.source ≡ reader.old.source }
{
    if let Some(side) = stream_side_of(word) {
        return of_stream(side, reader);
    }
    match message_side_of(word) {
        Some(side) => of_message(side, reader),
        None => Err(reader.wanted(Wanted::Place)),
    }
}

// The place that begins with this word, if one does.
fn place(word: &[u8], reader: &mut GoalReader<'_, '_>) -> Result<Place, NoGoal>
    requires { IsLast reader.old word.now }
    ensures read { IfOk result (ReadsPlace word.now reader.old reader.new) }
    ensures wrong { IfErr result (IsRefusal reader.old.source) }
    ensures source { reader.new.source ≡ reader.old.source }
{
    match word {
        b"recv" => of_queue(WaitingList::Receiving, reader),
        b"send" => of_queue(WaitingList::Sending, reader),
        b"select" => of_queue_set(reader),
        b"read" => of_buffer(Side::Reader, reader),
        b"write" => of_buffer(Side::Writer, reader),
        b"group" => of_group(reader),
        b"note" => of_entry(reader),
        _ => of_one_kind(word, reader),
    }
}

// The claim that a task waits, wherever or there.
fn waits(reader: &mut GoalReader<'_, '_>) -> Result<Claim, NoGoal>
    ensures claim { IfOk result (IsClaimOf reader.old.source.app.runs) }
    ensures read { IfOk result (ReadsBehind (codes "waits") reader.old reader.new) }
    ensures wrong { IfErr result (IsRefusal reader.old.source) }
    ensures source { reader.new.source ≡ reader.old.source }
{
    let task = reader.task()?;
    match reader.operand() {
        Some(word) => {
            let place = place(word, reader)?;
            Ok(Claim::Waits { task, place })
        }
        None => Ok(in_phase(task, PhaseName::Wait)),
    }
}

// The claim that some task's call has failed, or this one's.
fn failed(reader: &mut GoalReader<'_, '_>) -> Result<Claim, NoGoal>
    ensures claim { IfOk result (IsClaimOf reader.old.source.app.runs) }
    ensures read { IfOk result (ReadsBehind (codes "failed") reader.old reader.new) }
    ensures wrong { IfErr result (IsRefusal reader.old.source) }
    ensures source { reader.new.source ≡ reader.old.source }
{
    if reader.is_at_operand() {
        let task = reader.task()?;
        Ok(in_phase(task, PhaseName::Failed))
    } else {
        Ok(Claim::SomeFailed)
    }
}

// The claim that a task's phase is called so.
fn in_phase(task: usize, name: PhaseName) -> Claim
    ensures { result ≡ claim.Holds (condition.InPhase task name) }
{
    Claim::Holds {
        condition: Condition::InPhase { task, name },
    }
}

// The claim that a task stands at an instruction.
fn at(reader: &mut GoalReader<'_, '_>) -> Result<Claim, NoGoal>
    ensures claim { IfOk result (IsClaimOf reader.old.source.app.runs) }
    ensures read { IfOk result (ReadsBehind (codes "at") reader.old reader.new) }
    ensures wrong { IfErr result (IsRefusal reader.old.source) }
    ensures source { reader.new.source ≡ reader.old.source }
{
    let task = reader.task()?;
    let pc = reader.instruction(task)?;
    Ok(Claim::At { task, pc })
}

// The amount, but for a register, that begins with this word.
fn amount(word: &[u8], reader: &mut GoalReader<'_, '_>) -> Result<Amount, NoGoal>
    requires last { IsLast reader.old word.now }
    requires other { IsNoneOf opening_words word.now × IsNoneOf claim_words word.now }
    ensures amount { IfOk result (IsAmountOf reader.old.source.app.runs) }
    ensures read { IfOk result (ReadsAmount word.now reader.old reader.new) }
    ensures wrong { IfErr result (IsRefusal reader.old.source) }
    ensures source { reader.new.source ≡ reader.old.source }
{
    match word {
        b"count" => {
            let queue = reader.queue()?;
            Ok(Amount::Items { queue })
        }
        b"bytes" => {
            let stream = reader.stream()?;
            Ok(Amount::Bytes { stream })
        }
        b"msgs" => {
            let message = reader.message()?;
            Ok(Amount::Messages { message })
        }
        b"bits" => {
            let group = reader.group()?;
            Ok(Amount::Bits { group })
        }
        b"pc" => {
            let task = reader.task()?;
            Ok(Amount::Pc { task })
        }
        b"note" => value(reader),
        b"tick" => Ok(Amount::Tick),
        _ => Err(reader.wanted(Wanted::Claim)),
    }
}

// Whether a claim may compare some bits of the amount.
fn has_bits(amount: Amount) -> bool
    ensures { result ≡ has_bits amount }
{
    match amount {
        Amount::Bits { .. } | Amount::Value { .. } | Amount::Register { .. } => true,
        Amount::Items { .. }
        | Amount::Bytes { .. }
        | Amount::Messages { .. }
        | Amount::Pc { .. }
        | Amount::Tick => false,
    }
}

// The claim that begins with this word and compares an amount, but for a register.
#[tactic(auto, using(crate::proofs::ClaimLaws::about_behind))]
fn of_amount(word: &[u8], reader: &mut GoalReader<'_, '_>) -> Result<Claim, NoGoal>
    requires last { IsLast reader.old word.now }
    requires other { IsNoneOf opening_words word.now × IsNoneOf claim_words word.now }
    ensures claim { IfOk result (IsClaimOf reader.old.source.app.runs) }
    ensures read { IfOk result (ReadsBehind word.now reader.old reader.new) }
    ensures wrong { IfErr result (IsRefusal reader.old.source) }
    ensures source { reader.new.source ≡ reader.old.source }
{
    let amount = amount(word, reader)?;
    if has_bits(amount) {
        masked(amount, reader)
    } else {
        compared(amount, reader)
    }
}

// The claim that a task's phase is called so.
fn in_named_phase(reader: &mut GoalReader<'_, '_>) -> Result<Claim, NoGoal>
    ensures claim { IfOk result (IsClaimOf reader.old.source.app.runs) }
    ensures read { IfOk result (ReadsBehind (codes "phase") reader.old reader.new) }
    ensures wrong { IfErr result (IsRefusal reader.old.source) }
    ensures source { reader.new.source ≡ reader.old.source }
{
    let task = reader.task()?;
    let name = reader.phase()?;
    Ok(in_phase(task, name))
}

// The claim that the task's script has ended.
fn ended(reader: &mut GoalReader<'_, '_>) -> Result<Claim, NoGoal>
    ensures claim { IfOk result (IsClaimOf reader.old.source.app.runs) }
    ensures read { IfOk result (ReadsBehind (codes "ended") reader.old reader.new) }
    ensures wrong { IfErr result (IsRefusal reader.old.source) }
    ensures source { reader.new.source ≡ reader.old.source }
{
    let task = reader.task()?;
    Ok(in_phase(task, PhaseName::Ended))
}

// The claim that the task is on a core.
fn runs(reader: &mut GoalReader<'_, '_>) -> Result<Claim, NoGoal>
    ensures claim { IfOk result (IsClaimOf reader.old.source.app.runs) }
    ensures read { IfOk result (ReadsBehind (codes "runs") reader.old reader.new) }
    ensures wrong { IfErr result (IsRefusal reader.old.source) }
    ensures source { reader.new.source ≡ reader.old.source }
{
    let task = reader.task()?;
    Ok(Claim::Runs { task })
}

// The claim about all tasks that this word is, if it is one.
fn of_all(word: &[u8]) -> Option<Claim>
    ensures named { IfSome result (λ claim. (app : Application) → IsClaimOf app claim) }
    ensures said { IfSome result (IsAlone word.now) }
    ensures other { IfNone result (IsNoneOf (codes "finished" ∷ codes "asleep" ∷ []) word.now) }
{
    match word {
        b"finished" => Some(Claim::Finished),
        b"asleep" => Some(Claim::Asleep),
        _ => None,
    }
}

// The claim that begins with this word.
#[tactic(auto, using(crate::proofs::ClaimLaws::behind_alone))]
fn begun_by(word: &[u8], reader: &mut GoalReader<'_, '_>) -> Result<Claim, NoGoal>
    requires last { IsLast reader.old word.now }
    requires other { IsNoneOf opening_words word.now }
    ensures claim { IfOk result (IsClaimOf reader.old.source.app.runs) }
    ensures read { IfOk result (ReadsBehind word.now reader.old reader.new) }
    ensures wrong { IfErr result (IsRefusal reader.old.source) }
    ensures source { reader.new.source ≡ reader.old.source }
{
    match word {
        b"reg" => register_claim(reader),
        b"phase" => in_named_phase(reader),
        b"at" => at(reader),
        b"waits" => waits(reader),
        b"ended" => ended(reader),
        b"runs" => runs(reader),
        b"failed" => failed(reader),
        _ => match of_all(word) {
            Some(claim) => Ok(claim),
            None => of_amount(word, reader),
        },
    }
}

/// The claim that the next words are.
#[tactic(auto, using(crate::proofs::ClaimLaws::behind_first))]
pub(crate) fn claim(reader: &mut GoalReader<'_, '_>) -> Result<Claim, NoGoal>
    requires { (word : List ℕ) (rest : List (List ℕ)) → reader.old.ahead ≡ word ∷ rest
        → IsNoneOf opening_words word }
    ensures claim { IfOk result (IsClaimOf reader.old.source.app.runs) }
    ensures read { IfOk result (ReadsClaim reader.old reader.new) }
    ensures wrong { IfErr result (IsWhyNot reader.old.source) }
    ensures ends { IsErrOf result (Ends ClaimWanted) → reader.old.ahead ≡ [] }
    ensures source { reader.new.source ≡ reader.old.source }
{
    let word = reader.next(Wanted::Claim)?;
    begun_by(word, reader)
}
