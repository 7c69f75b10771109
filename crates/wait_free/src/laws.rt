//! What answers tell.
ghost use Rattle.wait_free.specs.Telling.{AnswersTellReplies};

/// The answer of a call loses nothing: no two replies that its operation may be given are told alike, of those to `least`
/// where a number that they tell is a key.
pub fn answers_tell_replies()
    ensures { AnswersTellReplies }
{}
