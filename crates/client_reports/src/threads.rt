//! Runs command files, each in a thread of its own, and makes the text of the report.
ghost use Rattle.std.specs.Prelude.{◌≤◌, All, IfOk, IsPermutation, length, map};
ghost use Rattle.std.specs.List.Sorted.{IsNonDecreasingBy};
ghost use Rattle.lin_report.specs.CommandFiles.{IsCommandFile};
ghost use Rattle.lin_report.specs.Object.{object_of};
ghost use Rattle.client_reports.specs.Forms.{form_of};
ghost use Rattle.client_reports.specs.Running.{IsThreaded};

use crate::clients::at_client;
use crate::running::{Replayed, any_exhausted, commands_of, runs_can_be_written};
use fast_slow_engine::Setup;
use lin_report::{Client, NoMemory, Op, Receipt, report_room, write_report};
use normal_traits::Normalized;
use std::alloc::Global;
use std::sync::Wait;
use std::thread::Threads;
use table_tries::Whole;
use thread_laws::laws::threads_meet_headline;
use thread_runs::run::run_whole;
use thread_runs::{Gate, Tries};

/// Puts lines in rising order of begin. They come seat by seat, those of each seat in order, and std's stable sort merges what
/// is in order already. It takes memory; where there is none, the lines are sorted in place.
fn sort_by_begin(lines: &mut Vec<Receipt>)
    ensures same { IsPermutation lines.old.items lines.new.items }
    ensures order { IsNonDecreasingBy (λ line. line.begin) lines.new.items }
{
    let Ok(()) = lines.sort_by_key(|line| line.begin) else {
        lines.sort_unstable_by_key(|line| line.begin);
        return;
    };
}

/// The report of a structure's run with threads. All memory that the run and its report need is taken before the first
/// thread starts.
fn threaded<
    C: Normalized + Send + Sync,
    T: Tries<C> + Send + Sync,
    R: Threads + Wait + Sync,
    G: Gate + Sync,
>(
    rt: &R,
    alloc: Global,
    cap: u32,
    limit: u32,
    commands: Vec<Vec<Op>>,
    gate: &G,
) -> Result<Replayed, NoMemory>
    requires cap { (1 ≤ cap) × (cap ≤ 65536) }
    requires limit { limit ≤ 255 }
    requires some { 1 ≤ length commands.items }
    requires few { length commands.items ≤ 8 }
    requires commands { All (λ ops. IsCommandFile C.form.object ops.items) commands.items }
    ensures { IfOk result (λ made. IsThreaded C.form cap limit (map (λ ops. ops.items) commands.items) made.text.items made.exhausted) }
{
    let setup = Setup {
        seats: commands.len() as u32,
        cap,
        limit,
    };
    let mut text = report_room(alloc, commands_of(&commands))?;
    let (mut lines, _) = run_whole::<R, C, T, G>(rt, alloc, setup, commands, gate)?;
    sort_by_begin(&mut lines);
    threads_meet_headline::<C>();
    runs_can_be_written::<C>();
    write_report(&mut text, &lines, &[], None);
    let exhausted = any_exhausted(&lines);
    Ok(Replayed { text, exhausted })
}

/// The report of the run with threads of a client.
pub fn make_thread_report<R: Threads + Wait + Sync, G: Gate + Sync>(
    rt: &R,
    alloc: Global,
    client: Client,
    cap: u32,
    limit: u32,
    commands: Vec<Vec<Op>>,
    gate: &G,
) -> Result<Replayed, NoMemory>
    requires cap { (1 ≤ cap) × (cap ≤ 65536) }
    requires limit { limit ≤ 255 }
    requires some { 1 ≤ length commands.items }
    requires few { length commands.items ≤ 8 }
    requires commands { All (λ ops. IsCommandFile (object_of client) ops.items) commands.items }
    ensures { IfOk result (λ made. IsThreaded (form_of client) cap limit (map (λ ops. ops.items) commands.items) made.text.items made.exhausted) }
{
    at_client!(client, threaded[Whole, R, G](rt, alloc, cap, limit, commands, gate))
}
