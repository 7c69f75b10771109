//! A helper's execution and wrap-up of the list of the head's call.
ghost use Rattle.std.specs.Prelude.{◌≡◌, ℕ, Option, ◌<◌, ◌≤◌, IsTrue};
ghost use Rattle.cas_executor.specs.FastRuns.{IsShort};
ghost use Rattle.fast_slow_engine.specs.Doings.{bare_work, work_of};
ghost use Rattle.fast_slow_engine.specs.HelpTable.{CanWork, Executes, Reads, WrapsUp, given_turn, given_work, work_fed, work_request, work_turn, wrapped_work};
ghost use Rattle.fast_slow_engine.specs.declared.help.WorkTurn.{WorkTurn as Turned};
ghost use Rattle.normal_traits.specs.declared.form.Wrapped.{Wrapped as WrappedUp};
ghost use Rattle.arrayvec.specs.ArrayVec.{ArrayVec};

use crate::doing::Task;
use crate::help::WorkTurn;
use crate::help_words::{again_word, announced_op, named_block, stop_of, told_word, wrapping_word};
use crate::plays::Plays;
use cas_executor::{Execution, SlowRun};
use lin_report::Op;
use normal_traits::{List, Normalized, Wrapped};
use step_memory::Seen;
use word_fields::{RecordPhase, RecordWord};

/// Goes on by what has come of a wrap-up that is in this state.
fn wrapped<C: Normalized>(
    wrapped: Wrapped,
    wrap: C::Wrap,
    word: u64,
    task: &mut Task<C::Search, C::Wrap>,
)
    requires goes { wrapped ≡ WrappedUp.Going → C.form.wraps wrap }
    ensures work { (stores : ArrayVec (ℕ × ℕ)) → work_of task.new stores ≡ wrapped_work wrapped wrap word }
    ensures can { (stores : ArrayVec (ℕ × ℕ)) → CanWork C.form (work_of task.new stores) }
{
    *task = match wrapped {
        Wrapped::Going => Task::Wrap(wrap),
        Wrapped::Done(outcome) => Task::Advance(told_word(word, outcome)),
        Wrapped::Restart => Task::Advance(again_word(word)),
    };
}

/// A block was read: its list is executed, or wrapped up.
fn use_block<C: Normalized>(
    op: Op,
    list: List,
    word: u64,
    task: &mut Task<C::Search, C::Wrap>,
) -> WorkTurn
    requires list { IsShort list.items }
    ensures work { result ≡ Turned.Going → (stores : ArrayVec (ℕ × ℕ)) → work_of task.new stores ≡ given_work C.form op list.items word }
    ensures turn { result ≡ given_turn C.form op word }
    ensures can { result ≡ Turned.Going → (stores : ArrayVec (ℕ × ℕ)) → CanWork C.form (work_of task.new stores) }
{
    if RecordWord::unpack(word).phase == RecordPhase::Executing {
        *task = Task::Execute(SlowRun::new(named_block(word), list));
        return WorkTurn::Going;
    }
    if !C::serves(op) {
        return WorkTurn::Again;
    }
    let (wrap, begun) = C::begin_wrap(op, &list, stop_of(word, &list));
    wrapped::<C>(begun, wrap, word, task);
    WorkTurn::Going
}

/// A step of the read of a block.
#[inline(always)]
pub fn read<C: Normalized, P: Plays>(
    task: &mut Task<C::Search, C::Wrap>,
    word: u64,
    port: &mut P,
) -> (WorkTurn, Seen)
    requires reads { Reads (bare_work task.old) }
    requires can { CanWork C.form (bare_work task.old) }
    requires plays { P.can port.old (work_request C.form (bare_work task.old) 0 word) }
    ensures made { (stores : ArrayVec (ℕ × ℕ)) (head : ℕ) → P.makes port.old (work_request C.form (work_of task.old stores) head word) port.new result.1 }
    ensures work { result.0 ≡ Turned.Going → (stores : ArrayVec (ℕ × ℕ)) (head cap : ℕ) (hand : Option ℕ) → work_of task.new stores ≡ work_fed C.form (work_of task.old stores) head word hand cap result.1 }
    ensures turn { (stores : ArrayVec (ℕ × ℕ)) (head : ℕ) → result.0 ≡ work_turn C.form (work_of task.old stores) head word result.1 }
    ensures can { result.0 ≡ Turned.Going → (stores : ArrayVec (ℕ × ℕ)) → CanWork C.form (work_of task.new stores) }
{
    let Task::Read(read) = task else {
        unreachable!()
    };
    let seen = port.play(read.request());
    match read.feed(seen) {
        None => (WorkTurn::Going, seen),
        Some((op, value, list)) => {
            let turn = use_block::<C>(announced_op(op, value), list, word, task);
            (turn, seen)
        }
    }
}

/// A step of an execution.
#[inline(always)]
pub fn execute<C: Normalized, P: Plays>(
    task: &mut Task<C::Search, C::Wrap>,
    word: u64,
    port: &mut P,
) -> Seen
    requires executes { Executes (bare_work task.old) }
    requires can { CanWork C.form (bare_work task.old) }
    requires plays { P.can port.old (work_request C.form (bare_work task.old) 0 word) }
    ensures made { (stores : ArrayVec (ℕ × ℕ)) (head : ℕ) → P.makes port.old (work_request C.form (work_of task.old stores) head word) port.new result }
    ensures work { (stores : ArrayVec (ℕ × ℕ)) (head cap : ℕ) (hand : Option ℕ) → work_of task.new stores ≡ work_fed C.form (work_of task.old stores) head word hand cap result }
    ensures can { (stores : ArrayVec (ℕ × ℕ)) → CanWork C.form (work_of task.new stores) }
{
    let Task::Execute(run) = task else {
        unreachable!()
    };
    let seen = port.play(run.request());
    if let Execution::Stopped(stop) = run.feed(seen) {
        *task = Task::Advance(wrapping_word(word, stop));
    }
    seen
}

/// A step of a wrap-up.
#[inline(always)]
pub fn wrap_up<C: Normalized, P: Plays>(
    task: &mut Task<C::Search, C::Wrap>,
    word: u64,
    port: &mut P,
) -> Seen
    requires wraps { WrapsUp (bare_work task.old) }
    requires can { CanWork C.form (bare_work task.old) }
    requires plays { P.can port.old (work_request C.form (bare_work task.old) 0 word) }
    ensures made { (stores : ArrayVec (ℕ × ℕ)) (head : ℕ) → P.makes port.old (work_request C.form (work_of task.old stores) head word) port.new result }
    ensures work { (stores : ArrayVec (ℕ × ℕ)) (head cap : ℕ) (hand : Option ℕ) → work_of task.new stores ≡ work_fed C.form (work_of task.old stores) head word hand cap result }
    ensures can { (stores : ArrayVec (ℕ × ℕ)) → CanWork C.form (work_of task.new stores) }
{
    let Task::Wrap(wrap) = task else {
        unreachable!()
    };
    let seen = port.play(C::wrap_request(wrap));
    match C::feed_wrap(wrap, seen) {
        Wrapped::Going => {}
        Wrapped::Done(outcome) => *task = Task::Advance(told_word(word, outcome)),
        Wrapped::Restart => *task = Task::Advance(again_word(word)),
    }
    seen
}
