//! The line of a call, put last word by word.
ghost use Rattle.std.specs.Prelude.{◌≡◌, ℕ, ◌++◌, ◌∷◌, [], ◌^◌, ◌<◌, length, IsTrue, None};
ghost use Rattle.std.specs.Fmt.{decimal};
ghost use Rattle.lin_report.specs.Room.{HasRoom, Appends};
ghost use Rattle.lin_report.specs.Calls.{answered_call, pending_call};
ghost use Rattle.lin_report.specs.Text.{SPACE, NEWLINE, spaced, command_words, reply_words, path_word, call_line};

use crate::calls::{
    ADD, DEL, GET, HAS, Op, PEEK, PUT, Path, PendingCall, REM, Receipt, Reply, SET, TAKE,
};
use crate::report::bytes::{append, append_decimal};

/// Puts a space and a word last.
pub(super) fn append_word(room: &mut Vec<u8>, word: &[u8])
    requires { HasRoom room.old (length (SPACE ∷ word.now)) }
    ensures { Appends room.old room.new (SPACE ∷ word.now) }
{
    append(room, b" ");
    append(room, word);
}

/// Puts a space and a number last.
pub(super) fn append_number(room: &mut Vec<u8>, number: u64)
    requires { HasRoom room.old (length (SPACE ∷ decimal number)) }
    ensures { Appends room.old room.new (SPACE ∷ decimal number) }
{
    append(room, b" ");
    append_decimal(room, number);
}

/// Puts a name and a number last.
#[tactic(auto, unfolding(crate::specs::Text::spaced))]
pub(super) fn append_named(room: &mut Vec<u8>, name: &[u8], number: u64)
    requires { HasRoom room.old (length (spaced (name.now ∷ decimal number ∷ []))) }
    ensures { Appends room.old room.new (spaced (name.now ∷ decimal number ∷ [])) }
{
    append_word(room, name);
    append_number(room, number);
}

#[tactic(auto, unfolding(crate::specs::Text::spaced, crate::specs::Text::command_words))]
fn append_command(room: &mut Vec<u8>, op: Op)
    requires { HasRoom room.old (length (spaced (command_words op))) }
    ensures { Appends room.old room.new (spaced (command_words op)) }
{
    let key = u64::from(op.key);
    let value = u64::from(op.value);
    match op.code {
        PUT => append_named(room, b"put", value),
        TAKE => append_word(room, b"take"),
        ADD => append_named(room, b"add", key),
        DEL => append_named(room, b"del", key),
        HAS => append_named(room, b"has", key),
        SET => {
            append_named(room, b"set", key);
            append_number(room, value);
        }
        REM => append_named(room, b"rem", key),
        GET => append_named(room, b"get", key),
        PEEK => append_word(room, b"peek"),
        _ => append_word(room, b"min"),
    }
}

#[tactic(auto, unfolding(crate::specs::Text::spaced, crate::specs::Text::reply_words))]
fn append_reply(room: &mut Vec<u8>, reply: Reply)
    requires { HasRoom room.old (length (spaced (reply_words reply))) }
    ensures { Appends room.old room.new (spaced (reply_words reply)) }
{
    match reply {
        Reply::Yes => append_word(room, b"yes"),
        Reply::No => append_word(room, b"no"),
        Reply::Done => append_word(room, b"done"),
        Reply::Value(value) => append_named(room, b"value", u64::from(value)),
        Reply::Empty => append_word(room, b"empty"),
        Reply::Absent => append_word(room, b"absent"),
        Reply::Exhausted => append_word(room, b"exhausted"),
    }
}

#[tactic(auto, unfolding(crate::specs::Text::path_word))]
fn append_path(room: &mut Vec<u8>, path: Path)
    requires { HasRoom room.old (length (SPACE ∷ path_word path ++ NEWLINE ∷ [])) }
    ensures { Appends room.old room.new (SPACE ∷ path_word path ++ NEWLINE ∷ []) }
{
    match path {
        Path::Fast => append(room, b" fast\n"),
        Path::Slow => append(room, b" slow\n"),
    }
}

/// Puts the seat, the number and the command of a call last.
#[tactic(auto, unfolding(crate::specs::Text::spaced))]
fn append_request(room: &mut Vec<u8>, seat: u32, number: u32, op: Op)
    requires { HasRoom room.old (length (decimal seat ++ spaced (decimal number ∷ command_words op))) }
    ensures { Appends room.old room.new (decimal seat ++ spaced (decimal number ∷ command_words op)) }
{
    append_decimal(room, u64::from(seat));
    append_number(room, u64::from(number));
    append_command(room, op);
}

/// Puts the line of an answered call last.
#[tactic(auto, using(crate::proofs::LinePieces::length_answered))]
pub(super) fn append_receipt(room: &mut Vec<u8>, receipt: &Receipt)
    requires { HasRoom room.old (length (call_line (answered_call receipt.now))) }
    ensures { Appends room.old room.new (call_line (answered_call receipt.now)) }
{
    append_request(room, receipt.seat, receipt.number, receipt.op);
    append_reply(room, receipt.reply);
    append_number(room, receipt.begin);
    append_number(room, receipt.end);
    append_path(room, receipt.path);
}

/// Puts the line of a pending call last.
#[tactic(auto, using(crate::proofs::LinePieces::length_pending))]
pub(super) fn append_pending(room: &mut Vec<u8>, call: &PendingCall)
    requires { HasRoom room.old (length (call_line (pending_call call.now))) }
    ensures { Appends room.old room.new (call_line (pending_call call.now)) }
{
    append_request(room, call.seat, call.number, call.op);
    append_word(room, b"pending");
    append_number(room, call.begin);
    append_word(room, b"-");
    append_path(room, call.path);
}
