//! What is written of a verdict.
ghost use Rattle.std.specs.Prelude.{◌≡◌, ◌≤◌, ◌+◌, ◌++◌, decimal, length};
ghost use Rattle.arrayvec.specs.ArrayString.{array_string_len};
ghost use Rattle.report_check.specs.Sayings.{verdict_text};

use crate::verdicts::{Verdict, reason_number};
use arrayvec::ArrayString;
use itoa::Buffer;

/// The most bytes of the line.
const LINE_ROOM: usize = 160;

/// A line, in room that needs no memory.
pub type VerdictLine = ArrayString<LINE_ROOM>;

/// Puts a name and a number last.
fn push_named(text: &mut VerdictLine, name: &str, number: u32)
    requires { array_string_len text.old + length name.now + 40 ≤ 160 }
    ensures bytes { text.new.bytes ≡ text.old.bytes ++ name.now ++ decimal number }
    ensures len { array_string_len text.new ≤ array_string_len text.old + length name.now + 40 }
{
    text.push_str(name);
    text.push_str(Buffer::new().format(number));
}

/// The line that tells a verdict. It takes no memory.
pub fn verdict_line(verdict: Verdict) -> VerdictLine
    ensures { result.bytes ≡ verdict_text verdict }
{
    let mut text = VerdictLine::new();
    match verdict {
        Verdict::Legal => text.push_str("legal"),
        Verdict::NotLegal(objection) => {
            push_named(&mut text, "not legal place ", objection.place);
            push_named(&mut text, " reason ", reason_number(objection.reason));
        }
    }
    text.push_str("\n");
    text
}
