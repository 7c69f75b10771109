//! The lines that are written in place of a result, in room that needs no memory.
ghost use Rattle.std.specs.Prelude.{◌≡◌, ◌≤◌, ◌+◌, ◌++◌, decimal, length};
ghost use Rattle.arrayvec.specs.ArrayString.{array_string_len};
ghost use Rattle.command_line.specs.Lines.{NO_MEMORY_LINE, USAGE_LINE, refused_line, unread_line};

use arrayvec::ArrayString;
use itoa::Buffer;

/// The most bytes of a message.
const MESSAGE_ROOM: usize = 160;

/// A message, in room that needs no memory.
pub type Message = ArrayString<MESSAGE_ROOM>;

/// Puts a name and a number last.
pub fn push_named(text: &mut Message, name: &str, number: u32)
    requires { array_string_len text.old + length name.now + 40 ≤ 160 }
    ensures bytes { text.new.bytes ≡ text.old.bytes ++ name.now ++ decimal number }
    ensures len { array_string_len text.new ≤ array_string_len text.old + length name.now + 40 }
{
    text.push_str(name);
    text.push_str(Buffer::new().format(number));
}

/// The line that says that the words are none that are served.
pub fn usage_line() -> Message
    ensures { result.bytes ≡ USAGE_LINE }
{
    let mut text = Message::new();
    text.push_str("nwf: usage\n");
    text
}

/// The line that says that a file is refused, at which line of it, and for which cause.
pub fn refused_line(file: u32, line: u32, cause: u32) -> Message
    ensures { result.bytes ≡ refused_line file line cause }
{
    let mut text = Message::new();
    push_named(&mut text, "nwf: refused file ", file);
    push_named(&mut text, " line ", line);
    push_named(&mut text, " cause ", cause);
    text.push_str("\n");
    text
}

/// The line that says that a file couldn't be read.
pub fn unread_line(file: u32) -> Message
    ensures { result.bytes ≡ unread_line file }
{
    let mut text = Message::new();
    push_named(&mut text, "nwf: read fault file ", file);
    text.push_str("\n");
    text
}

/// The line that says that there was no memory.
pub fn no_memory_line() -> Message
    ensures { result.bytes ≡ NO_MEMORY_LINE }
{
    let mut text = Message::new();
    text.push_str("nwf: no memory\n");
    text
}
