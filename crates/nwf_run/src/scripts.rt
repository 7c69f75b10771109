//! Reads the files of a replay or of a run in order and judges each before the next one is opened.
ghost use Rattle.std.specs.Prelude.{◌≡◌, ◌<◌, ◌≤◌, ◌+◌, ◌∷◌, ◌⊎◌, ℕ, List, IsTrue, IfOk, IfErr, IsSomeAnd, All, length, map, take};
ghost use Rattle.lin_report.specs.CommandFiles.{IsCommandFile};
ghost use Rattle.lin_report.specs.Object.{object_of};
ghost use Rattle.script_reader.specs.Schedules.{schedule_outcome};
ghost use Rattle.script_reader.specs.Scripts.{script_outcome};
ghost use Rattle.nwf_run.specs.Said.{said, said_run};
ghost use Rattle.client_reports.specs.Judging.{Accepts, SayFirst};
ghost use Rattle.nwf_run.specs.Reading.{FaultsAsTold, FileReads, OpensUntil, StopsReading, files_by_name};
ghost use Rattle.nwf_run.specs.declared.stops.Stop.TheVariants as stop;

use crate::stops::Stop;
use crate::words::{ReplayWords, RunWords};
use client_reports::{Scripts, judge_commands, judge_schedule};
use lin_report::{Client, Op};
use script_reader::ScheduleEntry;
use std::alloc::Global;
use whole_files::{Files, ReadError, read_file};

/// The greatest length of a schedule or a command file, in bytes.
const FILE_LIMIT: u32 = 1_048_576;

/// The bytes of the file with this number.
fn read_bytes<F: Files>(
    alloc: Global,
    files: &mut F,
    name: &str,
    file: u32,
) -> Result<Vec<u8>, Stop>
    ensures bytes { IfOk result (λ bytes. IsTrue (F.tells files.old) → IsSomeAnd (F.held files.old name.now) (λ held. bytes.items ≡ take (FILE_LIMIT + 1) held)) }
    ensures stop { IfErr result (λ why. (why ≡ stop.ReadFault file) ⊎ (why ≡ stop.NoMemory)) }
    ensures faults { FaultsAsTold (F.faults files.old) (F.faults files.new) result }
    ensures tells { F.tells files.new ≡ F.tells files.old }
    ensures held { (n : List ℕ) → F.held files.new n ≡ F.held files.old n }
    ensures opened { F.opened files.new ≡ (name.now, F.faults files.old) ∷ F.opened files.old }
{
    match read_file(alloc, files, name, FILE_LIMIT) {
        Ok(bytes) => Ok(bytes),
        Err(ReadError::Fault) => Err(Stop::ReadFault { file }),
        Err(ReadError::NoMemory) => Err(Stop::NoMemory),
    }
}

/// The entries of the schedule for so many seats.
fn read_entries<F: Files>(
    alloc: Global,
    files: &mut F,
    name: &str,
    seats: u32,
) -> Result<Vec<ScheduleEntry>, Stop>
    requires some { 1 ≤ seats }
    requires few { seats ≤ 8 }
    ensures reads { FileReads (F.tells files.old) (schedule_outcome seats) 0 (F.held files.old name.now) result }
    ensures seats { IfOk result (λ entries. All (λ entry. entry.seat < seats) entries.items) }
    ensures faults { FaultsAsTold (F.faults files.old) (F.faults files.new) result }
    ensures tells { F.tells files.new ≡ F.tells files.old }
    ensures held { (n : List ℕ) → F.held files.new n ≡ F.held files.old n }
    ensures opened { F.opened files.new ≡ (name.now, F.faults files.old) ∷ F.opened files.old }
{
    let bytes = read_bytes(alloc, files, name, 0)?;
    match judge_schedule(alloc, &bytes, seats) {
        Ok(entries) => Ok(entries),
        Err(why) => Err(Stop::from(why)),
    }
}

/// The commands of the command file with this number.
fn read_commands<F: Files>(
    alloc: Global,
    files: &mut F,
    name: &str,
    client: Client,
    file: u32,
) -> Result<Vec<Op>, Stop>
    ensures reads { FileReads (F.tells files.old) (script_outcome client) file (F.held files.old name.now) result }
    ensures commands { IfOk result (λ ops. IsCommandFile (object_of client) ops.items) }
    ensures faults { FaultsAsTold (F.faults files.old) (F.faults files.new) result }
    ensures tells { F.tells files.new ≡ F.tells files.old }
    ensures held { (n : List ℕ) → F.held files.new n ≡ F.held files.old n }
    ensures opened { F.opened files.new ≡ (name.now, F.faults files.old) ∷ F.opened files.old }
{
    let bytes = read_bytes(alloc, files, name, file)?;
    match judge_commands(alloc, &bytes, client, file) {
        Ok(ops) => Ok(ops),
        Err(why) => Err(Stop::from(why)),
    }
}

/// Reads the command files, of which the first has number 1.
pub fn read_command_files<F: Files>(
    alloc: Global,
    words: &RunWords<'_>,
    files: &mut F,
) -> Result<Vec<Vec<Op>>, Stop>
    requires few { length words.now.files.now ≤ 8 }
    ensures says { IfOk result (λ read. IsTrue (F.tells files.old) → SayFirst words.now.client (length (said_run words.now).files) (files_by_name (F.held files.old) (said_run words.now)) (map (λ ops. ops.items) read.items)) }
    ensures count { IfOk result (λ read. length read.items ≡ length words.now.files.now) }
    ensures commands { IfOk result (λ read. All (λ ops. IsCommandFile (object_of words.now.client) ops.items) read.items) }
    ensures stops { IfErr result (StopsReading (F.tells files.old) (F.held files.old) (said_run words.now)) }
    ensures faults { FaultsAsTold (F.faults files.old) (F.faults files.new) result }
    ensures opened { OpensUntil (said_run words.now) (F.faults files.old) (F.opened files.old) (F.opened files.new) result }
    ensures held { (n : List ℕ) → F.held files.new n ≡ F.held files.old n }
{
    let Ok(mut commands) = Vec::with_capacity(alloc, words.files.len()) else {
        return Err(Stop::NoMemory);
    };
    for name in words.files {
        let file = commands.len() as u32 + 1;
        let ops = read_commands(alloc, files, name.as_str(), words.client, file)?;
        commands.push_reserved(ops);
    }
    Ok(commands)
}

/// Reads the schedule and then the command files, of which the first has number 1.
pub fn read_scripts<F: Files>(
    alloc: Global,
    words: &ReplayWords<'_>,
    files: &mut F,
) -> Result<Scripts, Stop>
    requires some { 1 ≤ length words.now.files.now }
    requires few { length words.now.files.now ≤ 8 }
    ensures accepts { IfOk result (λ s. IsTrue (F.tells files.old) → Accepts words.now.client (length (said words.now).files) (files_by_name (F.held files.old) (said words.now)) s.schedule.items (map (λ ops. ops.items) s.commands.items)) }
    ensures count { IfOk result (λ s. length s.commands.items ≡ length words.now.files.now) }
    ensures seats { IfOk result (λ s. All (λ entry. entry.seat < length words.now.files.now) s.schedule.items) }
    ensures commands { IfOk result (λ s. All (λ ops. IsCommandFile (object_of words.now.client) ops.items) s.commands.items) }
    ensures stops { IfErr result (StopsReading (F.tells files.old) (F.held files.old) (said words.now)) }
    ensures faults { FaultsAsTold (F.faults files.old) (F.faults files.new) result }
    ensures opened { OpensUntil (said words.now) (F.faults files.old) (F.opened files.old) (F.opened files.new) result }
    ensures held { (n : List ℕ) → F.held files.new n ≡ F.held files.old n }
{
    let schedule = read_entries(alloc, files, words.schedule, words.files.len() as u32)?;
    let listed = RunWords {
        client: words.client,
        cap: words.cap,
        limit: words.limit,
        files: words.files,
    };
    let commands = read_command_files(alloc, &listed, files)?;
    Ok(Scripts { schedule, commands })
}
