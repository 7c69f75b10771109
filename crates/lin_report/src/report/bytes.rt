//! Bytes and numbers put last in a vector that has room for them.
ghost use Rattle.std.specs.Prelude.{◌≡◌, ◌+◌, ◌/◌, ◌%◌, ◌<◌, ◌++◌, ◌∷◌, [], length};
ghost use Rattle.std.specs.Fmt.{decimal};
ghost use Rattle.lin_report.specs.Room.{HasRoom, Appends};

/// Puts bytes last.
pub(super) fn append(room: &mut Vec<u8>, bytes: &[u8])
    requires { HasRoom room.old (length bytes.now) }
    ensures { Appends room.old room.new bytes.now }
{
    for byte in bytes {
        room.push_reserved(*byte);
    }
}

/// Puts two digits last, the first of which may be 0.
fn append_pair(room: &mut Vec<u8>, pair: u32)
    requires pair { pair < 100 }
    requires room { HasRoom room.old 2 }
    ensures { Appends room.old room.new ((48 + pair / 10) ∷ (48 + pair % 10) ∷ []) }
{
    room.push_reserved(b'0' + (pair / 10) as u8);
    room.push_reserved(b'0' + (pair % 10) as u8);
}

/// Puts a number of one or two digits last.
#[tactic(auto, using(std::proofs::lemmas::Fmt::decimal_digit, crate::proofs::Digits::decimal_two))]
fn append_first(room: &mut Vec<u8>, number: u32)
    requires number { number < 100 }
    requires room { HasRoom room.old (length (decimal number)) }
    ensures { Appends room.old room.new (decimal number) }
{
    if number < 10 {
        room.push_reserved(b'0' + number as u8);
    } else {
        append_pair(room, number);
    }
}

/// Puts a number of up to four digits last.
fn append_short(room: &mut Vec<u8>, number: u32)
    requires number { number < 10000 }
    requires room { HasRoom room.old (length (decimal number)) }
    ensures { Appends room.old room.new (decimal number) }
{
    if number < 100 {
        append_first(room, number);
    } else {
        append_first(room, number / 100);
        append_pair(room, number % 100);
    }
}

/// Puts the decimal digits of a number last, four at a time behind those that come first.
pub(super) fn append_decimal(room: &mut Vec<u8>, number: u64)
    requires { HasRoom room.old (length (decimal number)) }
    ensures { Appends room.old room.new (decimal number) }
{
    if number < 10_000 {
        append_short(room, number as u32);
    } else {
        let last = (number % 10_000) as u32;
        append_decimal(room, number / 10_000);
        append_pair(room, last / 100);
        append_pair(room, last % 100);
    }
}
