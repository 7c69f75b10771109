//! The command files of a seed.
ghost use Rattle.std.specs.Prelude.{◌≡◌, ◌*◌, [], map, vec_capacity, IfOk};
ghost use Rattle.generated_files.specs.Generated.{command_after, command_of, file_after, generated_files};
ghost use Rattle.generated_files.specs.Numbers.{number_after};

use crate::numbers::Numbers;
use lin_report::calls::{ADD, DEL, GET, HAS, PUT, REM, SET, TAKE};
use lin_report::{Client, NoMemory, Op};
use std::alloc::Global;

/// Keys of generated commands are below this.
const KEYS: u64 = 64;

/// Values of generated commands are below this.
const VALUES: u64 = 1_048_576;

/// The command that three draws make.
fn command(client: Client, kind: u64, second: u64, third: u64) -> Op
    ensures { result ≡ command_of client kind second third }
{
    let key = (second % KEYS) as u32;
    let (code, key, value) = match client {
        Client::Queue => match kind % 2 {
            0 => (PUT, 0, (second % VALUES) as u32),
            _ => (TAKE, 0, 0),
        },
        Client::List | Client::Buckets => match kind % 3 {
            0 => (ADD, key, 0),
            1 => (DEL, key, 0),
            _ => (HAS, key, 0),
        },
        Client::Tree => match kind % 3 {
            0 => (SET, key, (third % VALUES) as u32),
            1 => (REM, key, 0),
            _ => (GET, key, 0),
        },
    };
    Op { code, key, value }
}

/// The next command. It takes three draws, also those that it doesn't need.
fn next_command(client: Client, numbers: &mut Numbers) -> Op
    ensures command { result ≡ command_after client numbers.old.newest 0 }
    ensures drawn { numbers.new.newest ≡ number_after numbers.old.newest 3 }
{
    let kind = numbers.draw();
    let second = numbers.draw();
    let third = numbers.draw();
    command(client, kind, second, third)
}

/// The next file, of so many commands.
fn next_file(
    alloc: Global,
    client: Client,
    numbers: &mut Numbers,
    calls: u32,
) -> Result<Vec<Op>, NoMemory>
    ensures file { IfOk result (λ file. file.items ≡ file_after client numbers.old.newest calls) }
    ensures drawn { IfOk result (λ _. numbers.new.newest ≡ number_after numbers.old.newest (3 * calls)) }
{
    let mut file = room_for(alloc, calls as usize)?;
    for _ in 0..calls {
        file.push_reserved(next_command(client, numbers));
    }
    Ok(file)
}

/// An empty vector with room for so many.
fn room_for<T: Drop>(alloc: Global, count: usize) -> Result<Vec<T>, NoMemory>
    ensures items { IfOk result (λ room. room.items ≡ []) }
    ensures capacity { IfOk result (λ room. vec_capacity room ≡ count) }
{
    Vec::with_capacity(alloc, count).map_err(|_| NoMemory)
}

/// The files of a seed: one for each seat, of so many calls.
pub fn generate(
    alloc: Global,
    client: Client,
    seed: u32,
    seats: u32,
    calls: u32,
) -> Result<Vec<Vec<Op>>, NoMemory>
    ensures files { IfOk result (λ files. map (λ file. file.items) files.items ≡ generated_files client seed seats calls) }
{
    let mut numbers = Numbers::of_seed(seed);
    let mut files = room_for(alloc, seats as usize)?;
    for _ in 0..seats {
        files.push_reserved(next_file(alloc, client, &mut numbers, calls)?);
    }
    Ok(files)
}
