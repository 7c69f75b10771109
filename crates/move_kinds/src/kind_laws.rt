//! What is so of every kind of move, of any structure in normalized form.
ghost use Rattle.move_kinds.specs.KindLaws.{KindsKeepBlocks, KindsKeepSpare, KindsLeave, KindsKeepContents, HelpersChangeNamed, KindsKeepTelling, RecordsKept, OwnersKept};

use normal_traits::Normalized;

/// A move of any kind is an allowed step of the client, and what holds of all blocks holds after it.
pub fn kinds_keep_blocks<C: Normalized>()
    ensures { KindsKeepBlocks C.form }
{}

/// A spare block in another hand than the mover's stays spare.
pub fn kinds_keep_spare<C: Normalized>()
    ensures { KindsKeepSpare C.form }
{}

/// A helper with such a block in hand finds after a move of another seat all that it rests on: the offers that stood
/// stand, their blocks go on as blocks do and keep their notes, and the block in hand stays as it was.
pub fn kinds_leave<C: Normalized>()
    ensures { KindsLeave C.form }
{}

/// A block that a record has named goes on to hold the operation and the list that it was named with.
pub fn kinds_keep_contents<C: Normalized>()
    ensures { KindsKeepContents C.form }
{}

/// A helper changes the object only for a call whose record is in Executing, and only by the list that it names.
pub fn helpers_change_named<C: Normalized>()
    ensures { HelpersChangeNamed C.form }
{}

/// What the record of a call tells stays so where a move makes no change for it but that of the list it names.
pub fn kinds_keep_telling<C: Normalized>()
    ensures { KindsKeepTelling C.form }
{}

/// While the record of a seat is that of the seat's call, a move of any kind makes no change of the call but of the list
/// that the record names; and what the record tells stays so, unless the move is an exchange of that record.
pub fn records_kept<C: Normalized>()
    ensures { RecordsKept C.form }
{}

/// Each list that took effect is of a call that was not announced, or named by the record of its call, or dead, or has
/// made its change: a move of any kind keeps that.
pub fn owners_kept<C: Normalized>()
    ensures { OwnersKept C.form }
{}
