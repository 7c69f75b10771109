//! What calls tell by the reply of their lines.
ghost use Rattle.std.specs.Prelude.{◌≡◌};
ghost use Rattle.wait_free.specs.Answers.{change_answer, is_yes, value_told};

use crate::refused::Refused;
use lin_report::Reply;

/// Whether the reply is yes.
pub fn is_yes(reply: Reply) -> bool
    ensures { result ≡ is_yes reply }
{
    match reply {
        Reply::Yes => true,
        _ => false,
    }
}

/// The value that the reply tells, if it tells one.
pub fn value_told(reply: Reply) -> Option<u32>
    ensures { result ≡ value_told reply }
{
    match reply {
        Reply::Value(value) => Some(value),
        _ => None,
    }
}

/// What a call tells by which a key joins or leaves: whether it did, or that no block was left.
pub fn change_answer(reply: Reply) -> Result<bool, Refused>
    ensures { result ≡ change_answer reply }
{
    match reply {
        Reply::Exhausted => Err(Refused::Full),
        _ => Ok(is_yes(reply)),
    }
}
