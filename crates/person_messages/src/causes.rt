//! What the causes of a refusal mean, by the kind of file.
use crate::file_words::FileKind;
use lin_report::Client;

/// What the commands of a client are.
fn commands_text(client: Option<Client>) -> &'static str {
    match client {
        Some(Client::Queue) => "the line is no command of a queue: these are put V, take and peek",
        Some(Client::List) => {
            "the line is no command of a list: these are add K, del K, has K and min"
        }
        Some(Client::Tree) => {
            "the line is no command of a tree: these are set K V, rem K and get K"
        }
        Some(Client::Buckets) => {
            "the line is no command of buckets: these are add K, del K and has K"
        }
        None => "the line is no command of the client",
    }
}

/// What is wrong with a number.
fn numbers_text(kind: FileKind) -> &'static str {
    match kind {
        FileKind::Schedule => {
            "a number isn't made of digits alone or is out of range: an entry gives 1 to 16384 steps"
        }
        FileKind::Order => {
            "a number isn't made of digits alone or is out of range: NUMBER is 1 to 65535"
        }
        FileKind::Commands | FileKind::Report => {
            "a number isn't made of digits alone or is out of range: a key K is at most 1048575, a value V at most 4294967295"
        }
    }
}

/// What the words of a line have to be.
fn words_text(kind: FileKind, client: Option<Client>) -> &'static str {
    match kind {
        FileKind::Schedule => {
            "an entry is SEAT SPAN: a seat, and a number of steps, `end` or `exchange`"
        }
        FileKind::Order => "an entry is SEAT NUMBER: a seat, and the number of a call of it",
        FileKind::Commands | FileKind::Report => commands_text(client),
    }
}

/// How many lines with words there may be.
fn lines_text(kind: FileKind) -> &'static str {
    match kind {
        FileKind::Schedule => "a schedule has at most 4096 lines with words",
        FileKind::Order => "an order has at most 524280 lines with words",
        FileKind::Commands | FileKind::Report => "a command file has at most 65535 commands",
    }
}

/// How long a file may be.
fn length_text(kind: FileKind) -> &'static str {
    match kind {
        FileKind::Report => "the file is too long: a report has at most 33554048 bytes",
        FileKind::Order => "the file is too long: an order has at most 4194304 bytes",
        FileKind::Commands | FileKind::Schedule =>
            "the file is too long: it may have 1048576 bytes",
    }
}

/// What a cause means in a file of a kind.
pub fn cause_text(cause: u32, kind: FileKind, client: Option<Client>) -> &'static str {
    match cause {
        1 => words_text(kind, client),
        2 => numbers_text(kind),
        3 => "the line has over 64 bytes",
        4 => lines_text(kind),
        5 => length_text(kind),
        6 if matches!(kind, FileKind::Order) => "there is no such seat: seats are 0 to 7",
        6 => "the seat has no command file: the first file is that of seat 0",
        7 => "the line isn't one that a report of this client may have here",
        _ => "docs/formats.md tells the causes",
    }
}
