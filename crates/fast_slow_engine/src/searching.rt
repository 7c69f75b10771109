//! A helper's search for the list of the head's call, with its claim.
ghost use Rattle.std.specs.Prelude.{◌≡◌, ℕ, ◌+◌, ◌<◌, ◌≤◌, ◌^◌, ◌++◌, IsTrue, Some, None, length};
ghost use Rattle.fast_slow_engine.specs.Doings.{work_of};
ghost use Rattle.fast_slow_engine.specs.Hands.{block_of};
ghost use Rattle.fast_slow_engine.specs.HelpTable.{CanName, CanWork, IsAtStep, Generates, filling_in, work_fed, work_hand, work_request, work_turn};
ghost use Rattle.fast_slow_engine.specs.declared.help.WorkTurn.{WorkTurn as Turned};
ghost use Rattle.fast_slow_engine.specs.declared.phases.Generating.{Generating as Stage};

use crate::doing::Task;
use crate::help::WorkTurn;
use crate::help_words::told_word;
use crate::helping::Helped;
use crate::phases::Generating;
use crate::plays::Plays;
use crate::stores::{store_entry, store_notes};
use lin_report::{Outcome, Reply};
use node_arena::places::CLAIMS;
use normal_traits::{Found, Normalized, Stores};
use step_memory::{Request, Seen};
use word_fields::RecordWord;

/// Names the list of a search that is ready, with the block in hand, which is filled first.
fn name<C: Normalized>(
    task: &mut Task<C::Search, C::Wrap>,
    stores: &mut Stores,
    helped: Helped,
    hand: Option<u32>,
)
    requires head { helped.head < 8 }
    requires can { CanName C.form (work_of task.old stores.old) }
    requires small { block_of hand < 2 ^ 17 }
    ensures work { work_of task.new stores.new ≡ filling_in C.form (work_of task.old stores.old) helped.head helped.word hand }
    ensures can { CanWork C.form (work_of task.new stores.new) }
{
    let Task::Generate { op, search, .. } = task else {
        unreachable!()
    };
    let op = *op;
    let block = hand.unwrap_or(0);
    let list = C::list(search, op, block);
    let number = RecordWord::unpack(helped.word).number;
    let length = list.len() as u32;
    store_notes(stores, block, helped.head, number, op, length);
    store_entry(stores, block, 0, &list);
    store_entry(stores, block, 1, &list);
    C::stores(search, op, block, stores);
    *task = Task::Fill(0);
}

/// A step of the generator.
fn feed_generator<C: Normalized>(
    task: &mut Task<C::Search, C::Wrap>,
    stores: &mut Stores,
    helped: Helped,
    hand: Option<u32>,
    seen: Seen,
) -> WorkTurn
    requires head { helped.head < 8 }
    requires can { CanWork C.form (work_of task.old stores.old) }
    requires searches { IsAtStep Stage.Search (work_of task.old stores.old) }
    requires small { block_of hand < 2 ^ 17 }
    ensures work { result ≡ Turned.Going → (cap : ℕ) → work_of task.new stores.new ≡ work_fed C.form (work_of task.old stores.old) helped.head helped.word hand cap seen }
    ensures turn { result ≡ work_turn C.form (work_of task.old stores.old) helped.head helped.word seen }
    ensures can { result ≡ Turned.Going → CanWork C.form (work_of task.new stores.new) }
{
    let Task::Generate { search, at, .. } = task else {
        unreachable!()
    };
    match C::feed(search, seen) {
        Found::Going => {}
        Found::Ready if hand.is_none() => *at = Generating::LookForBlock,
        Found::Ready => name::<C>(task, stores, helped, hand),
        Found::Answer(outcome) => *task = Task::Advance(told_word(helped.word, outcome)),
        Found::Contended => return WorkTurn::Again,
    }
    WorkTurn::Going
}

/// A step of a search with its claim.
#[inline(always)]
pub fn search<C: Normalized, P: Plays>(
    task: &mut Task<C::Search, C::Wrap>,
    stores: &mut Stores,
    helped: Helped,
    hand: &mut Option<u32>,
    cap: u32,
    port: &mut P,
) -> (WorkTurn, Seen)
    requires head { helped.head < 8 }
    requires generates { Generates (work_of task.old stores.old) }
    requires can { CanWork C.form (work_of task.old stores.old) }
    requires small { block_of hand.old < 2 ^ 17 }
    requires blocks { cap ≤ 65536 }
    requires plays { P.can port.old (work_request C.form (work_of task.old stores.old) helped.head helped.word) }
    ensures made { P.makes port.old (work_request C.form (work_of task.old stores.old) helped.head helped.word) port.new result.1 }
    ensures work { result.0 ≡ Turned.Going → work_of task.new stores.new ≡ work_fed C.form (work_of task.old stores.old) helped.head helped.word hand.old cap result.1 }
    ensures turn { result.0 ≡ work_turn C.form (work_of task.old stores.old) helped.head helped.word result.1 }
    ensures hand { hand.new ≡ work_hand (work_of task.old stores.old) hand.old cap result.1 }
    ensures can { result.0 ≡ Turned.Going → CanWork C.form (work_of task.new stores.new) }
    ensures small { block_of hand.new < 2 ^ 17 }
{
    let Task::Generate { search, at, .. } = task else {
        unreachable!()
    };
    let seen = match *at {
        Generating::Search => {
            let seen = port.play(C::request(search));
            let turn = feed_generator::<C>(task, stores, helped, *hand, seen);
            return (turn, seen);
        }
        Generating::LookForBlock => port.play(Request::Load { at: CLAIMS }),
        Generating::Claim => port.play(Request::Add { at: CLAIMS, by: 1 }),
    };
    if seen.before >= u64::from(cap) {
        *task = Task::Advance(told_word(helped.word, Outcome::Plain(Reply::Exhausted)));
    } else if *at == Generating::LookForBlock {
        *at = Generating::Claim;
    } else {
        *hand = Some(seen.before as u32 + 1);
        name::<C>(task, stores, helped, *hand);
    }
    (WorkTurn::Going, seen)
}
