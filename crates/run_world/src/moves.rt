//! What a move does to the client's world.
ghost use Rattle.run_world.specs.Moves.{WorldOpens, WorldWords, WorldGrows, OthersStay};

use normal_traits::Normalized;

/// The world of a run that made no move is the client's opening world.
pub fn world_opens<C: Normalized>()
    ensures { WorldOpens C.form }
{}

/// The words of the world after a move are those before it, with what the request of the move leaves at its
/// place.
pub fn world_words<C: Normalized>()
    ensures { WorldWords C.form }
{}

/// Changes and won exchanges come in front of the others alone, and a used block stays used.
pub fn world_grows<C: Normalized>()
    ensures { WorldGrows C.form }
{}

/// A move of another seat leaves what is known of a seat.
pub fn others_stay<C: Normalized>()
    ensures { OthersStay C.form }
{}
