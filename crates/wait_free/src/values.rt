//! What the calls tell by which a value joins or leaves.
ghost use Rattle.std.specs.Prelude.{◌≡◌};
ghost use Rattle.wait_free.specs.Answers.{put_answer, take_answer};

use crate::answers::value_told;
use crate::refused::Refused;
use lin_report::Reply;

/// What a put tells: that it was done, or that no block was left.
pub fn put_answer(reply: Reply) -> Result<(), Refused>
    ensures { result ≡ put_answer reply }
{
    match reply {
        Reply::Exhausted => Err(Refused::Full),
        _ => Ok(()),
    }
}

/// What a take tells: the value that left, or that there was none, or that no block was left.
pub fn take_answer(reply: Reply) -> Result<Option<u32>, Refused>
    ensures { result ≡ take_answer reply }
{
    match reply {
        Reply::Exhausted => Err(Refused::Full),
        _ => Ok(value_told(reply)),
    }
}
