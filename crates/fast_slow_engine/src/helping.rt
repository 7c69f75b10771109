//! The steps of helping the call of a head.
ghost use Rattle.std.specs.Prelude.{◌≡◌, ℕ, Option, ◌+◌, ◌<◌, ◌≤◌, ◌^◌, ◌&&◌, if◌then◌else◌, IsTrue, true, false, Some, None, length};
ghost use Rattle.arrayvec.specs.ArrayVec.{ArrayVec};
ghost use Rattle.fast_slow_engine.specs.Doings.{bare_work, help_of, helping_of, work_of};
ghost use Rattle.fast_slow_engine.specs.Hands.{block_of};
ghost use Rattle.fast_slow_engine.specs.HelpTable.{CanHelp, CanWork, Fills, LooksUp, first_work, help_fed, help_request, helping_ends, helping_hand, helping_met, work_fed, work_hand, work_request, work_turn};
ghost use Rattle.word_fields.specs.Records.{packed_record, record_of, record_phase};
ghost use Rattle.node_arena.specs.MemoryMap.{record_place};
ghost use Rattle.step_memory.specs.declared.steps.Request.TheVariants.{Exchange};
ghost use Rattle.fast_slow_engine.specs.HelpWords.{is_executing};
ghost use Rattle.fast_slow_engine.specs.declared.help.Helping.{Helping};
ghost use Rattle.fast_slow_engine.specs.declared.help.Work.{Work as Does};
ghost use Rattle.fast_slow_engine.specs.declared.phases.Generating.{Generating as Stage};
ghost use Rattle.step_memory.specs.declared.steps.Seen.{Seen};
ghost use Rattle.word_fields.specs.Records.{record_number};
ghost use Rattle.fast_slow_engine.specs.declared.help.WorkTurn.{WorkTurn as Turned};

use crate::doing::{Aid, Aiding, Task};
use crate::executing::{execute, read, wrap_up};
use crate::help::WorkTurn;
use crate::help_words::{announced_op, executing_word, named_block};
use crate::phases::Generating;
use crate::plays::Plays;
use crate::requests::{record_exchange, store_of};
use crate::searching::search;
use cas_executor::BlockRead;
use help_queue::Removing;
use help_queue::gather::leads;
use help_queue::heads::{is_other, removal_of};
use lin_report::Op;
use node_arena::places::QUEUE;
use node_arena::{op_place, record_place, value_place};
use normal_traits::{Normalized, Stores};
use step_memory::{Request, Seen};
use word_fields::{OpWord, RecordPhase, RecordWord, ValueWord};

/// The seat that is helped, and its record as it was loaded.
#[derive(Clone, Copy, Debug, PartialEq, Eq)]
pub struct Helped {
    pub head: u32,
    pub word: u64,
}

/// After the load of the record. Values of these sizes are written where they are made, in a function of their own, so
/// that no other step makes room for them.
#[inline(always)]
fn meet<S: Drop, W: Drop>(word: u64, aid: &mut Aid<S, W>)
    requires head { aid.old.head < aid.old.seats }
    requires few { aid.old.seats ≤ 8 }
    ensures at { (stores : ArrayVec (ℕ × ℕ)) → helping_of aid.new.at stores ≡ helping_met word aid.old.head aid.old.seats }
    ensures head { aid.new.head ≡ aid.old.head }
    ensures seats { aid.new.seats ≡ aid.old.seats }
{
    aid.at = match removal_of(word, aid.head, aid.seats) {
        Some(removal) => Aiding::Remove(removal),
        None => Aiding::Known {
            record: word,
            task: Task::Head,
        },
    };
}

/// The record, which was this word, is loaded again.
fn read_again<S: Drop, W: Drop>(word: u64, aid: &mut Aid<S, W>)
    ensures at { (stores : ArrayVec (ℕ × ℕ)) → helping_of aid.new.at stores ≡ Helping.Record (Some (record_number word)) }
    ensures head { aid.new.head ≡ aid.old.head }
    ensures seats { aid.new.seats ≡ aid.old.seats }
{
    aid.at = Aiding::Record(Some(RecordWord::unpack(word).number));
}

/// What is done first where the seat is the head: a list that stands is read, any other call's operation is loaded.
#[inline(always)]
fn begin_work<C: Normalized>(word: u64, task: &mut Task<C::Search, C::Wrap>)
    ensures work { (stores : ArrayVec (ℕ × ℕ)) → work_of task.new stores ≡ first_work C.form (record_phase word) word }
    ensures can { (stores : ArrayVec (ℕ × ℕ)) → CanWork C.form (work_of task.new stores) }
{
    *task = match RecordWord::unpack(word).phase {
        RecordPhase::Executing | RecordPhase::Wrapping => {
            Task::Read(BlockRead::new(named_block(word)))
        }
        _ => Task::Op,
    };
}

/// The search of the call's operation begins.
fn begin_search<C: Normalized>(op: Op, task: &mut Task<C::Search, C::Wrap>)
    requires { IsTrue (C.form.object.serves op) }
    ensures work { (stores : ArrayVec (ℕ × ℕ)) → work_of task.new stores ≡ Does.Generate op (C.form.begin_of op) Stage.Search }
    ensures can { (stores : ArrayVec (ℕ × ℕ)) → CanWork C.form (work_of task.new stores) }
{
    *task = Task::Generate {
        op,
        search: C::begin(op),
        at: Generating::Search,
    };
}

/// A store into the block in hand. After the last one the record is to name the block.
#[inline(always)]
fn fill<C: Normalized, P: Plays>(
    task: &mut Task<C::Search, C::Wrap>,
    stores: &Stores,
    word: u64,
    hand: Option<u32>,
    port: &mut P,
) -> Seen
    requires fills { Fills (work_of task.old stores.now) }
    requires can { CanWork C.form (work_of task.old stores.now) }
    requires small { block_of hand < 2 ^ 17 }
    requires plays { P.can port.old (work_request C.form (work_of task.old stores.now) 0 word) }
    ensures made { (head : ℕ) → P.makes port.old (work_request C.form (work_of task.old stores.now) head word) port.new result }
    ensures work { (head cap : ℕ) → work_of task.new stores.now ≡ work_fed C.form (work_of task.old stores.now) head word hand cap result }
    ensures can { CanWork C.form (work_of task.new stores.now) }
{
    let Task::Fill(made) = task else {
        unreachable!()
    };
    let seen = port.play(store_of(stores, *made));
    if *made as usize + 1 == stores.len() {
        *task = Task::Advance(executing_word(word, hand.unwrap_or(0)));
    } else {
        *made += 1;
    }
    seen
}

/// Looks whether the seat is the head, or loads the call's operation.
#[inline(always)]
fn look_up<C: Normalized, P: Plays>(
    task: &mut Task<C::Search, C::Wrap>,
    helped: Helped,
    port: &mut P,
) -> (WorkTurn, Seen)
    requires head { helped.head < 8 }
    requires looks { LooksUp (bare_work task.old) }
    requires plays { P.can port.old (work_request C.form (bare_work task.old) helped.head helped.word) }
    ensures made { P.makes port.old (work_request C.form (bare_work task.old) helped.head helped.word) port.new result.1 }
    ensures work { result.0 ≡ Turned.Going → (stores : ArrayVec (ℕ × ℕ)) (cap : ℕ) (hand : Option ℕ) → work_of task.new stores ≡ work_fed C.form (work_of task.old stores) helped.head helped.word hand cap result.1 }
    ensures turn { (stores : ArrayVec (ℕ × ℕ)) → result.0 ≡ work_turn C.form (work_of task.old stores) helped.head helped.word result.1 }
    ensures can { result.0 ≡ Turned.Going → (stores : ArrayVec (ℕ × ℕ)) → CanWork C.form (work_of task.new stores) }
{
    let number = RecordWord::unpack(helped.word).number;
    match task {
        Task::Head => {
            let seen = port.play(Request::Load { at: QUEUE });
            if !leads(seen.before, helped.head) {
                return (WorkTurn::Over, seen);
            }
            begin_work::<C>(helped.word, task);
            (WorkTurn::Going, seen)
        }
        Task::Op => {
            let seen = port.play(Request::Load {
                at: op_place(helped.head),
            });
            if OpWord::unpack(seen.before).number != number {
                return (WorkTurn::Again, seen);
            }
            *task = Task::Value(seen.before);
            (WorkTurn::Going, seen)
        }
        Task::Value(op) => {
            let seen = port.play(Request::Load {
                at: value_place(helped.head),
            });
            let op = announced_op(*op, seen.before);
            if ValueWord::unpack(seen.before).number != number || !C::serves(op) {
                return (WorkTurn::Again, seen);
            }
            begin_search::<C>(op, task);
            (WorkTurn::Going, seen)
        }
        _ => unreachable!(),
    }
}

/// The exchange of the record to another word. A block that the record names from then on is no longer in hand.
#[inline(always)]
fn advance<P: Plays>(to: u64, helped: Helped, hand: &mut Option<u32>, port: &mut P) -> Seen
    requires head { helped.head < 8 }
    requires plays { P.can port.old (Exchange (record_place helped.head) (packed_record (record_of helped.word)) to) }
    requires small { block_of hand.old < 2 ^ 17 }
    ensures made { P.makes port.old (Exchange (record_place helped.head) (packed_record (record_of helped.word)) to) port.new result }
    ensures hand { hand.new ≡ (if result.won && is_executing (record_phase to) then None else hand.old) }
    ensures small { block_of hand.new < 2 ^ 17 }
{
    let seen = port.play(record_exchange(helped.head, helped.word, to));
    if seen.won && RecordWord::unpack(to).phase == RecordPhase::Executing {
        *hand = None;
    }
    seen
}

/// A step of the work.
#[inline(always)]
fn work_on<C: Normalized, P: Plays>(
    task: &mut Task<C::Search, C::Wrap>,
    stores: &mut Stores,
    helped: Helped,
    hand: &mut Option<u32>,
    cap: u32,
    port: &mut P,
) -> (WorkTurn, Seen)
    requires head { helped.head < 8 }
    requires can { CanWork C.form (work_of task.old stores.old) }
    requires small { block_of hand.old < 2 ^ 17 }
    requires blocks { cap ≤ 65536 }
    requires plays { P.can port.old (work_request C.form (work_of task.old stores.old) helped.head helped.word) }
    ensures made { P.makes port.old (work_request C.form (work_of task.old stores.old) helped.head helped.word) port.new result.1 }
    ensures work { result.0 ≡ Turned.Going → work_of task.new stores.new ≡ work_fed C.form (work_of task.old stores.old) helped.head helped.word hand.old cap result.1 }
    ensures turn { result.0 ≡ work_turn C.form (work_of task.old stores.old) helped.head helped.word result.1 }
    ensures hand { hand.new ≡ work_hand (work_of task.old stores.old) hand.old cap result.1 }
    ensures can { result.0 ≡ Turned.Going → CanWork C.form (work_of task.new stores.new) }
    ensures small { block_of hand.new < 2 ^ 17 }
{
    match task {
        Task::Head | Task::Op | Task::Value(_) => look_up::<C, P>(task, helped, port),
        Task::Generate { .. } => search::<C, P>(task, stores, helped, hand, cap, port),
        Task::Fill(_) => {
            let seen = fill::<C, P>(task, stores, helped.word, *hand, port);
            (WorkTurn::Going, seen)
        }
        Task::Advance(to) => (WorkTurn::Again, advance(*to, helped, hand, port)),
        Task::Read(_) => read::<C, P>(task, helped.word, port),
        Task::Execute(_) => (WorkTurn::Going, execute::<C, P>(task, helped.word, port)),
        Task::Wrap(_) => (WorkTurn::Going, wrap_up::<C, P>(task, helped.word, port)),
    }
}

/// Makes a step of helping. Whether helping ends, and what the step saw.
#[inline(always)]
pub fn help_on<C: Normalized, P: Plays>(
    aid: &mut Aid<C::Search, C::Wrap>,
    stores: &mut Stores,
    hand: &mut Option<u32>,
    cap: u32,
    port: &mut P,
) -> (bool, Seen)
    requires can { CanHelp C.form (help_of aid.old stores.old) }
    requires small { block_of hand.old < 2 ^ 17 }
    requires blocks { cap ≤ 65536 }
    requires plays { P.can port.old (help_request C.form (help_of aid.old stores.old)) }
    ensures made { P.makes port.old (help_request C.form (help_of aid.old stores.old)) port.new result.1 }
    ensures ends { result.0 ≡ helping_ends C.form (helping_of aid.old.at stores.old) aid.old.head result.1 }
    ensures help { result.0 ≡ false → help_of aid.new stores.new ≡ help_fed C.form (help_of aid.old stores.old) hand.old cap result.1 }
    ensures hand { hand.new ≡ helping_hand (helping_of aid.old.at stores.old) hand.old cap result.1 }
    ensures can { result.0 ≡ false → CanHelp C.form (help_of aid.new stores.new) }
    ensures small { block_of hand.new < 2 ^ 17 }
{
    let head = aid.head;
    match &mut aid.at {
        Aiding::Record(known) => {
            let seen = port.play(Request::Load {
                at: record_place(head),
            });
            if is_other(*known, RecordWord::unpack(seen.before).number) {
                return (true, seen);
            }
            meet(seen.before, aid);
            (false, seen)
        }
        Aiding::Known { record, task } => {
            let word = *record;
            match work_on::<C, P>(task, stores, Helped { head, word }, hand, cap, port) {
                (WorkTurn::Going, seen) => (false, seen),
                (WorkTurn::Again, seen) => {
                    read_again(word, aid);
                    (false, seen)
                }
                (WorkTurn::Over, seen) => (true, seen),
            }
        }
        Aiding::Remove(remove) => {
            let seen = port.play(remove.request());
            (remove.feed(seen) == Removing::Gone, seen)
        }
    }
}
