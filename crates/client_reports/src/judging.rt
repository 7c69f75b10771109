//! Judges the bytes of the files of a replay.
ghost use Rattle.std.specs.Prelude.{◌≡◌, ◌<◌, ◌≤◌, ◌+◌, ℕ, List, map, length, IfOk, IfErr, All};
ghost use Rattle.lin_report.specs.CommandFiles.{IsCommandFile};
ghost use Rattle.lin_report.specs.Object.{object_of};
ghost use Rattle.script_reader.specs.Schedules.{schedule_outcome};
ghost use Rattle.script_reader.specs.Scripts.{script_outcome};
ghost use Rattle.client_reports.specs.Judging.{Accepts, IsJudged, IsReason, files_of_bytes};

use crate::no_report::NoReport;
use lin_report::{Client, Op};
use script_reader::{ScheduleEntry, ScriptFault, read_schedule, read_script};
use std::alloc::Global;

/// What the files of a replay say.
#[derive(Drop)]
pub struct Scripts {
    pub schedule: Vec<ScheduleEntry>,
    pub commands: Vec<Vec<Op>>,
}

/// The entries of a schedule for so many seats.
pub fn judge_schedule(
    alloc: Global,
    bytes: &[u8],
    seats: u32,
) -> Result<Vec<ScheduleEntry>, NoReport>
    requires some { 1 ≤ seats }
    requires few { seats ≤ 8 }
    ensures judged { IsJudged (schedule_outcome seats bytes.now) 0 result }
    ensures seats { IfOk result (λ entries. All (λ entry. entry.seat < seats) entries.items) }
{
    match read_schedule(alloc, bytes, seats) {
        Ok(entries) => Ok(entries),
        Err(ScriptFault::Refused(refusal)) => Err(NoReport::Refused { file: 0, refusal }),
        Err(ScriptFault::NoMemory) => Err(NoReport::NoMemory),
    }
}

/// The commands of the command file with this number.
pub fn judge_commands(
    alloc: Global,
    bytes: &[u8],
    client: Client,
    file: u32,
) -> Result<Vec<Op>, NoReport>
    ensures judged { IsJudged (script_outcome client bytes.now) file result }
    ensures commands { IfOk result (λ ops. IsCommandFile (object_of client) ops.items) }
{
    match read_script(alloc, bytes, client) {
        Ok(ops) => Ok(ops),
        Err(ScriptFault::Refused(refusal)) => Err(NoReport::Refused { file, refusal }),
        Err(ScriptFault::NoMemory) => Err(NoReport::NoMemory),
    }
}

/// Judges the files of a replay from their bytes, in order up to the first that is refused.
pub fn judge_files(
    alloc: Global,
    client: Client,
    schedule: &[u8],
    files: &[&[u8]],
) -> Result<Scripts, NoReport>
    requires some { 1 ≤ length files.now }
    requires few { length files.now ≤ 8 }
    ensures accepts { IfOk result (λ s. Accepts client (length files.now) (files_of_bytes schedule.now (map (λ file. file.now) files.now)) s.schedule.items (map (λ ops. ops.items) s.commands.items)) }
    ensures count { IfOk result (λ s. length s.commands.items ≡ length files.now) }
    ensures seats { IfOk result (λ s. All (λ entry. entry.seat < length files.now) s.schedule.items) }
    ensures commands { IfOk result (λ s. All (λ ops. IsCommandFile (object_of client) ops.items) s.commands.items) }
    ensures refused { IfErr result (IsReason client (length files.now) (files_of_bytes schedule.now (map (λ file. file.now) files.now))) }
{
    let entries = judge_schedule(alloc, schedule, files.len() as u32)?;
    let Ok(mut commands) = Vec::with_capacity(alloc, files.len()) else {
        return Err(NoReport::NoMemory);
    };
    for bytes in files {
        let file = commands.len() as u32 + 1;
        let ops = judge_commands(alloc, bytes, client, file)?;
        commands.push_reserved(ops);
    }
    Ok(Scripts {
        schedule: entries,
        commands,
    })
}
