//! Runs of the queue over one or two command files, and of any structure by a schedule.
ghost use Rattle.std.specs.Prelude.{◌≡◌, ◌<◌, ◌≤◌, IfSome, length};

use event_core::Core;
use fast_slow_engine::Setup;
use lin_report::Client;
use ms_queue::MsQueue;
use normal_traits::Normalized;
use schedule_runs::drive;
use script_reader::{read_schedule, read_script};
use std::alloc::Global;

/// The failures after which a call would ask for help.
const LIMIT: u32 = 3;

/// The run of one seat over a command file, where it is one of the queue.
pub fn one_file(alloc: Global, file: &[u8], cap: u32) -> Option<Core<MsQueue>>
    requires some_block { 1 ≤ cap }
    requires few_blocks { cap ≤ 65536 }
    ensures seats { IfSome result (λ core. length core.files ≡ 1) }
{
    let commands = read_script(alloc, file, Client::Queue).ok()?;
    let files = vec![in alloc; commands].ok()?;
    let setup = Setup {
        seats: 1,
        cap,
        limit: LIMIT,
    };
    Core::new(alloc, setup, files).ok()
}

/// The run of two seats over a command file each, where both are of the queue.
pub fn two_files(alloc: Global, first: &[u8], second: &[u8], cap: u32) -> Option<Core<MsQueue>>
    requires some_block { 1 ≤ cap }
    requires few_blocks { cap ≤ 65536 }
    ensures seats { IfSome result (λ core. length core.files ≡ 2) }
{
    let first_commands = read_script(alloc, first, Client::Queue).ok()?;
    let second_commands = read_script(alloc, second, Client::Queue).ok()?;
    let files = vec![in alloc; first_commands, second_commands].ok()?;
    let setup = Setup {
        seats: 2,
        cap,
        limit: LIMIT,
    };
    Core::new(alloc, setup, files).ok()
}

/// Makes so many steps of a seat.
pub fn make_steps(core: &mut Core<MsQueue>, seat: u32, count: u32)
    requires { seat < length core.old.files }
    ensures { core.new.files ≡ core.old.files }
{
    for _ in 0..count {
        core.step(seat);
    }
}

/// Drives a run of so many seats by a schedule. Whether it is one.
pub fn drive_seats<C: Normalized>(
    alloc: Global,
    core: &mut Core<C>,
    seats: u32,
    schedule: &[u8],
) -> bool
    requires some { 1 ≤ seats }
    requires few { seats ≤ 8 }
    requires files { length core.old.files ≡ seats }
    ensures { core.new.files ≡ core.old.files }
{
    let Ok(entries) = read_schedule(alloc, schedule, seats) else {
        return false;
    };
    drive(core, &entries);
    true
}
