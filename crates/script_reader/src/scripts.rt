//! Command files: one command a line, of one client.
ghost use Rattle.std.specs.Prelude.{◌≡◌, ◌≤◌, ◌∷◌, ℕ, List, All, IsTrue, IfOk, vec_len};
ghost use Rattle.lin_report.specs.Object.{is_command};
ghost use Rattle.script_reader.specs.WordList.{AreWords};
ghost use Rattle.script_reader.specs.Outcomes.{FILE_LIMIT, ReadsAs};
ghost use Rattle.script_reader.specs.Scripts.{queue_command, set_command, list_command, map_command, command_named, op_of, op_from_words, command_of, COMMAND_LIMIT, GREATEST_VALUE, script_outcome};
ghost use Rattle.script_reader.specs.Faults.{IsOutcomeOf};

use crate::causes::{Cause, ScriptFault};
use crate::grammar::{Grammar, MAX_BYTES, read_file};
use crate::numbers::number_up_to;
use crate::words::Words;
use lin_report::calls::{ADD, DEL, GET, HAS, MIN, PEEK, PUT, REM, SET, TAKE};
use lin_report::{Client, Op};
use std::alloc::Global;

/// The most lines with words of a command file.
const MAX_COMMANDS: usize = 65_535;
/// The greatest key.
const MAX_KEY: u32 = 1_048_575;

/// The numbers that follow the word of a command.
#[derive(Clone, Copy)]
pub enum Numbers {
    NoNumber,
    OneValue,
    OneKey,
    KeyAndValue,
}

fn queue_command(word: &[u8]) -> Option<(u8, Numbers)>
    ensures { result ≡ queue_command word.now }
{
    match word {
        b"put" => Some((PUT, Numbers::OneValue)),
        b"take" => Some((TAKE, Numbers::NoNumber)),
        b"peek" => Some((PEEK, Numbers::NoNumber)),
        _ => None,
    }
}

fn set_command(word: &[u8]) -> Option<(u8, Numbers)>
    ensures { result ≡ set_command word.now }
{
    match word {
        b"add" => Some((ADD, Numbers::OneKey)),
        b"del" => Some((DEL, Numbers::OneKey)),
        b"has" => Some((HAS, Numbers::OneKey)),
        _ => None,
    }
}

fn list_command(word: &[u8]) -> Option<(u8, Numbers)>
    ensures { result ≡ list_command word.now }
{
    match word {
        b"min" => Some((MIN, Numbers::NoNumber)),
        _ => set_command(word),
    }
}

fn map_command(word: &[u8]) -> Option<(u8, Numbers)>
    ensures { result ≡ map_command word.now }
{
    match word {
        b"set" => Some((SET, Numbers::KeyAndValue)),
        b"rem" => Some((REM, Numbers::OneKey)),
        b"get" => Some((GET, Numbers::OneKey)),
        _ => None,
    }
}

/// The command that a word names, and the numbers that it takes.
pub fn command_named(client: Client, word: &[u8]) -> Option<(u8, Numbers)>
    ensures { result ≡ command_named client word.now }
{
    match client {
        Client::Queue => queue_command(word),
        Client::List => list_command(word),
        Client::Buckets => set_command(word),
        Client::Tree => map_command(word),
    }
}

/// An operation from its numbers, where both are in range.
fn op_of(code: u8, key: Option<u32>, value: Option<u32>) -> Result<Op, Cause>
    ensures { result ≡ op_of code key value }
{
    match (key, value) {
        (Some(key), Some(value)) => Ok(Op { code, key, value }),
        _ => Err(Cause::BadNumber),
    }
}

/// An operation from the words of a line, the first of which has named the command.
fn op_from_words(code: u8, numbers: Numbers, words: Words<'_>) -> Result<Op, Cause>
    ensures { (word : List ℕ) (list : List (List ℕ)) → AreWords words.entry (word ∷ list) → result ≡ op_from_words code numbers list }
{
    match (numbers, words) {
        (Numbers::NoNumber, Words::One(_)) => op_of(code, Some(0), Some(0)),
        (Numbers::OneValue, Words::Two(_, value)) => {
            op_of(code, Some(0), number_up_to(u32::MAX, value))
        }
        (Numbers::OneKey, Words::Two(_, key)) => op_of(code, number_up_to(MAX_KEY, key), Some(0)),
        (Numbers::KeyAndValue, Words::Three(_, key, value)) => op_of(
            code,
            number_up_to(MAX_KEY, key),
            number_up_to(u32::MAX, value),
        ),
        _ => Err(Cause::BadCommand),
    }
}

/// The commands of a client.
#[derive(Clone, Copy)]
struct Commands {
    client: Client,
}

impl Grammar for Commands {
    type Entry = Op;

    ghost entry_of = { λ commands. command_of commands.client };

    ghost limit = { COMMAND_LIMIT };

    ghost most = { FILE_LIMIT };

    fn limit(&self) -> usize {
        MAX_COMMANDS
    }

    fn max_bytes(&self) -> u32 {
        MAX_BYTES
    }

    fn entry(&self, words: Words<'_>) -> Result<Op, Cause> {
        let (Words::One(word) | Words::Two(word, _) | Words::Three(word, _, _)) = words else {
            return Err(Cause::BadCommand);
        };
        match command_named(self.client, word) {
            Some((code, numbers)) => op_from_words(code, numbers, words),
            None => Err(Cause::BadCommand),
        }
    }
}

/// The commands of a file for a client, or the first line at fault.
pub fn read_script(alloc: Global, bytes: &[u8], client: Client) -> Result<Vec<Op>, ScriptFault>
    ensures outcome { ReadsAs result (script_outcome client bytes.now) }

    // The outcome, told of single lines: none is at fault, or the refusal names the first that is.
    ensures lines { IsOutcomeOf FILE_LIMIT (command_of client) COMMAND_LIMIT bytes.now (script_outcome client bytes.now) }
    ensures commands { IfOk result (λ v. All (λ op. IsTrue (is_command client op)) v.items) }
    ensures values { IfOk result (λ v. All (λ op. op.value ≤ GREATEST_VALUE) v.items) }
    ensures count { IfOk result (λ v. vec_len v ≤ COMMAND_LIMIT) }
{
    read_file(alloc, &Commands { client }, bytes)
}
