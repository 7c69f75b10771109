//! The report of a replay from bytes in memory: nothing is read or written.
ghost use Rattle.std.specs.Prelude.{◌≡◌, ◌≤◌, ◌⊎◌, ℕ, List, Err, map, length, IfOk, IfErr, IsOkUnless};
ghost use Rattle.lin_report.specs.declared.calls.Op.{Op};
ghost use Rattle.script_reader.specs.declared.causes.Refusal.{Refusal};
ghost use Rattle.script_reader.specs.declared.schedules.ScheduleEntry.{ScheduleEntry};
ghost use Rattle.client_reports.specs.Judging.{Accepts, IsFirstRefused, IsReason, files_of_bytes};
ghost use Rattle.client_reports.specs.Runs.{MakesReplayOfBytes};
ghost use Rattle.client_reports.specs.declared.no_report.NoReport.TheVariants as no;

use crate::judging::judge_files;
use crate::no_report::NoReport;
use crate::running::{Replayed, make_report};
use lin_report::Client;
use std::alloc::Global;

/// Runs command files, one seat for each, step by step as a schedule says, over so many blocks and with this
/// contention limit, and makes the text of the report. A file that the grammar refuses has none: the first such
/// file is told, of which the schedule is number 0.
pub fn replay_of_bytes(
    alloc: Global,
    client: Client,
    cap: u32,
    limit: u32,
    schedule: &[u8],
    files: &[&[u8]],
) -> Result<Replayed, NoReport>
    requires cap { (1 ≤ cap) × (cap ≤ 65536) }
    requires limit { limit ≤ 255 }
    requires some { 1 ≤ length files.now }
    requires few { length files.now ≤ 8 }
    // All files are accepted, and the text is that of the report of their run, which meets the headline.
    ensures report { IfOk result (λ made. MakesReplayOfBytes client cap limit schedule.now (map (λ file. file.now) files.now) made.text.items made.exhausted) }
    // The file that is told is the first that is refused.
    ensures refused { IfErr result (IsReason client (length files.now) (files_of_bytes schedule.now (map (λ file. file.now) files.now))) }
    // Where all are accepted there is a report, and where one is refused first it is told, unless there was no
    // memory.
    ensures accepted { (entries : List ScheduleEntry) (commands : List (List Op)) → Accepts client (length files.now) (files_of_bytes schedule.now (map (λ file. file.now) files.now)) entries commands → IsOkUnless result no.NoMemory }
    ensures first { (file : ℕ) (refusal : Refusal) → IsFirstRefused client (length files.now) (files_of_bytes schedule.now (map (λ file. file.now) files.now)) 0 file refusal → (result ≡ Err (no.Refused file refusal)) ⊎ (result ≡ Err no.NoMemory) }
{
    let scripts = judge_files(alloc, client, schedule, files)?;
    let made = make_report(alloc, client, cap, limit, scripts)?;
    Ok(made)
}
