//! Runs the command files of a replay by its schedule and makes the text of the report.
ghost use Rattle.std.specs.Prelude.{◌≡◌, ◌<◌, ◌≤◌, All, IfOk, length, map, sum_by};
ghost use Rattle.std.specs.List.{list_any};
ghost use Rattle.lin_report.specs.declared.calls.Op.{Op};
ghost use Rattle.lin_report.specs.Text.{reply_is_exhausted};
ghost use Rattle.lin_report.specs.CommandFiles.{IsCommandFile};
ghost use Rattle.lin_report.specs.Object.{object_of};
ghost use Rattle.client_reports.specs.Writable.{RunsCanBeWritten};
ghost use Rattle.client_reports.specs.Forms.{form_of};
ghost use Rattle.client_reports.specs.Runs.{IsDriven};

use crate::clients::at_client;
use crate::judging::Scripts;
use event_core::Core;
use fast_slow_engine::Setup;
use lin_report::{Client, NoMemory, Op, Receipt, Reply, report_room, write_report};
use normal_traits::Normalized;
use run_reports::headline::files_meet_headline;
use schedule_runs::drive;
use schedule_runs::laws::runs_in_order;
use std::alloc::Global;

/// The text of a report, or of its summary, and whether a call of it found no block left.
#[derive(Drop)]
pub struct Replayed {
    pub text: Vec<u8>,
    pub exhausted: bool,
}

/// How many commands there are in all files.
pub fn commands_of(files: &[Vec<Op>]) -> u32
    requires few { length files.now ≤ 8 }
    requires short { All (λ file. length file.items ≤ 65535) files.now }
    ensures count { result ≡ sum_by length (map (λ file. file.items) files.now) }
    ensures few { result ≤ 524280 }
{
    let mut commands = 0;
    for file in files {
        commands += file.len() as u32;
    }
    commands
}

/// Whether a call was answered that it found no block left.
pub fn any_exhausted(receipts: &[Receipt]) -> bool
    ensures { result ≡ list_any (λ r. reply_is_exhausted r.reply) receipts.now }
{
    receipts
        .iter()
        .any(|receipt| matches!(receipt.reply, Reply::Exhausted))
}

/// Every run over command files can be written, in any order of the seats.
pub fn runs_can_be_written<C: Normalized>()
    ensures { RunsCanBeWritten C.form }
{}

/// The report of a structure's run. All memory of the run and of the report is taken before the run is made.
pub fn report_of<C: Normalized>(
    alloc: Global,
    cap: u32,
    limit: u32,
    scripts: Scripts,
) -> Result<Replayed, NoMemory>
    requires cap { (1 ≤ cap) × (cap ≤ 65536) }
    requires limit { limit ≤ 255 }
    requires some { 1 ≤ length scripts.commands.items }
    requires few { length scripts.commands.items ≤ 8 }
    requires seats { All (λ entry. entry.seat < length scripts.commands.items) scripts.schedule.items }
    requires commands { All (λ ops. IsCommandFile C.form.object ops.items) scripts.commands.items }
    ensures { IfOk result (λ made. IsDriven C.form cap limit scripts.schedule.items (map (λ ops. ops.items) scripts.commands.items) made.text.items made.exhausted) }
{
    let setup = Setup {
        seats: scripts.commands.len() as u32,
        cap,
        limit,
    };
    let mut text = report_room(alloc, commands_of(&scripts.commands))?;
    let mut core = Core::<C>::new(alloc, setup, scripts.commands)?;
    drive(&mut core, &scripts.schedule);
    core.sort_by_begin();
    let pending = core.pending();
    runs_in_order::<C>();
    runs_can_be_written::<C>();
    files_meet_headline::<C>();
    let overtaken = core.greatest_overtaken();
    write_report(
        &mut text,
        core.receipts(),
        pending.as_slice(),
        Some(overtaken),
    );
    let exhausted = any_exhausted(core.receipts());
    Ok(Replayed { text, exhausted })
}

/// The report of the run of a client.
pub fn make_report(
    alloc: Global,
    client: Client,
    cap: u32,
    limit: u32,
    scripts: Scripts,
) -> Result<Replayed, NoMemory>
    requires cap { (1 ≤ cap) × (cap ≤ 65536) }
    requires limit { limit ≤ 255 }
    requires some { 1 ≤ length scripts.commands.items }
    requires few { length scripts.commands.items ≤ 8 }
    requires seats { All (λ entry. entry.seat < length scripts.commands.items) scripts.schedule.items }
    requires commands { All (λ ops. IsCommandFile (object_of client) ops.items) scripts.commands.items }
    ensures { IfOk result (λ made. IsDriven (form_of client) cap limit scripts.schedule.items (map (λ ops. ops.items) scripts.commands.items) made.text.items made.exhausted) }
{
    at_client!(client, report_of[](alloc, cap, limit, scripts))
}
