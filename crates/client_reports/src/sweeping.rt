//! Runs command files again and again, each time with a first seat that stops one step later, and makes the text of the
//! lines.
ghost use Rattle.std.specs.Prelude.{◌≡◌, ◌+◌, ◌≤◌, ◌++◌, max, All, IfOk, length, map, vec_len, vec_capacity};
ghost use Rattle.std.specs.List.{list_any};
ghost use Rattle.lin_report.specs.CommandFiles.{IsCommandFile};
ghost use Rattle.lin_report.specs.Object.{object_of};
ghost use Rattle.lin_report.specs.Room.{Appends, HasRoom};
ghost use Rattle.lin_report.specs.Text.{reply_is_exhausted};
ghost use Rattle.run_laws.specs.Files.{FilesFit};
ghost use Rattle.client_reports.specs.Forms.{form_of};
ghost use Rattle.client_reports.specs.Sweeps.{IsSwept, longest, stop_line, stop_run, stop_start};

use crate::clients::at_client;
use crate::loading::ROUNDS_OF_A_CALL;
use crate::running::{Replayed, any_exhausted, runs_can_be_written};
use command_line::{Message, push_named};
use event_core::Core;
use fast_slow_engine::Setup;
use lin_report::laws::report_text_fits;
use lin_report::{Client, NoMemory, Op, report_room, write_summary};
use normal_traits::Normalized;
use run_reports::headline::files_meet_headline;
use schedule_runs::laws::steps_run_in_order;
use schedule_runs::run_past_stop;
use std::alloc::Global;

/// The room of a line is that of the lines of so many calls.
const CALLS_OF_A_LINE: u32 = 3;

/// The greater of two numbers.
fn greater(one: u32, other: u32) -> u32
    ensures { result ≡ max one other }
{
    if one < other { other } else { one }
}

/// How many commands the longest file has.
fn longest(files: &[Vec<Op>]) -> u32
    requires short { All (λ file. length file.items ≤ 65535) files.now }
    ensures longest { result ≡ longest (map (λ file. file.items) files.now) }
    ensures short { result ≤ 65535 }
{
    let mut longest = 0;
    for file in files {
        longest = greater(longest, file.len() as u32);
    }
    longest
}

/// Puts bytes last. It takes no memory.
fn append(text: &mut Vec<u8>, bytes: &[u8])
    requires { HasRoom text.old (length bytes.now) }
    ensures { Appends text.old text.new bytes.now }
{
    for byte in bytes {
        text.push_reserved(*byte);
    }
}

/// Puts the beginning of a line last.
fn start_line(text: &mut Vec<u8>, steps: u32)
    requires room { HasRoom text.old 64 }
    ensures items { text.new.items ≡ text.old.items ++ stop_start steps }
    ensures len { vec_len text.new ≤ vec_len text.old + 64 }
    ensures capacity { vec_capacity text.new ≡ vec_capacity text.old }
{
    let mut start = Message::new();
    push_named(&mut start, "stop ", steps);
    start.push_str(" ");
    append(text, start.as_str().as_bytes());
}

/// Makes the run in which the first seat stops after so many steps, and puts its line last. Whether a call of it found no
/// block left.
fn add_stop<C: Normalized>(
    core: &mut Core<C>,
    text: &mut Vec<u8>,
    seats: u32,
    rounds: u32,
    steps: u32,
) -> bool
    requires seats { core.old.setup.seats ≡ seats }
    requires files { FilesFit C.form.object core.old.setup core.old.files }
    requires room { HasRoom text.old 192 }
    ensures setup { core.new.setup ≡ core.old.setup }
    ensures files { core.new.files ≡ core.old.files }
    ensures text { text.new.items ≡ text.old.items ++ stop_line steps (stop_run C.form core.old.setup core.old.files rounds steps) }
    ensures len { vec_len text.new ≤ vec_len text.old + 192 }
    ensures capacity { vec_capacity text.new ≡ vec_capacity text.old }
    ensures exhausted { result ≡ list_any (λ r. reply_is_exhausted r.reply) (stop_run C.form core.old.setup core.old.files rounds steps).report.receipts }
{
    core.reset();
    run_past_stop(core, seats, 0, steps, rounds);
    core.sort_by_begin();
    let pending = core.pending();
    steps_run_in_order::<C>();
    runs_can_be_written::<C>();
    report_text_fits();
    let overtaken = core.greatest_overtaken();
    start_line(text, steps);
    write_summary(text, core.receipts(), pending.as_slice(), Some(overtaken));
    any_exhausted(core.receipts())
}

/// The lines of a structure's runs. All memory of the runs and of the text is taken before the first run is made.
fn lines_of<C: Normalized>(
    alloc: Global,
    cap: u32,
    limit: u32,
    most: u32,
    commands: Vec<Vec<Op>>,
) -> Result<Replayed, NoMemory>
    requires cap { (1 ≤ cap) × (cap ≤ 65536) }
    requires limit { limit ≤ 255 }
    requires most { most ≤ 255 }
    requires some { 1 ≤ length commands.items }
    requires few { length commands.items ≤ 8 }
    requires commands { All (λ ops. IsCommandFile C.form.object ops.items) commands.items }
    ensures { IfOk result (λ made. IsSwept C.form cap limit most (map (λ ops. ops.items) commands.items) made.text.items made.exhausted) }
{
    let setup = Setup {
        seats: commands.len() as u32,
        cap,
        limit,
    };
    let rounds = longest(&commands) * ROUNDS_OF_A_CALL;
    let mut text = report_room(alloc, CALLS_OF_A_LINE * (most + 1))?;
    let mut core = Core::<C>::new(alloc, setup, commands)?;
    files_meet_headline::<C>();
    let mut exhausted = false;
    for steps in 0..most + 1 {
        exhausted |= add_stop(&mut core, &mut text, setup.seats, rounds, steps);
    }
    Ok(Replayed { text, exhausted })
}

/// The lines of the runs of a client.
pub fn make_lines(
    alloc: Global,
    client: Client,
    cap: u32,
    limit: u32,
    most: u32,
    commands: Vec<Vec<Op>>,
) -> Result<Replayed, NoMemory>
    requires cap { (1 ≤ cap) × (cap ≤ 65536) }
    requires limit { limit ≤ 255 }
    requires most { most ≤ 255 }
    requires some { 1 ≤ length commands.items }
    requires few { length commands.items ≤ 8 }
    requires commands { All (λ ops. IsCommandFile (object_of client) ops.items) commands.items }
    ensures { IfOk result (λ made. IsSwept (form_of client) cap limit most (map (λ ops. ops.items) commands.items) made.text.items made.exhausted) }
{
    at_client!(client, lines_of[](alloc, cap, limit, most, commands))
}
