//! Laws of the help queue in every run of the whole phase table, for any client whose requests leave its words.
ghost use Rattle.run_queue.specs.QueueLaws.{MembersHold, HelpedHold, GathersHold, RemovalsHold, EntriesHold, OwnersHold, OutcomesHold, AdvancesHold, VersionsRise, OneWordEach, RecordsGoOn};
ghost use Rattle.run_queue.specs.HeldBlocks.{NamesAreClaimed, ClaimsKeepQueue};
ghost use Rattle.run_queue.specs.Rounds.{RoundsFit};

use normal_traits::Normalized;

/// Who is in the queue word, and which seats are not, by what their machines do.
pub fn members_hold<C: Normalized>()
    ensures { MembersHold C.form }
{}

/// The record that a helper has found at the head is still the record of the head, or has gone on.
pub fn helped_hold<C: Normalized>()
    ensures { HelpedHold C.form }
{}

/// What a gather knows while the queue word over which it goes still stands.
pub fn gathers_hold<C: Normalized>()
    ensures { GathersHold C.form }
{}

/// A removal that gathers has the head with the completed call that it removes.
pub fn removals_hold<C: Normalized>()
    ensures { RemovalsHold C.form }
{}

/// An owner enters by its second exchange: it wins it, or loses it against a word that holds the owner.
pub fn entries_hold<C: Normalized>()
    ensures { EntriesHold C.form }
{}

/// An open record is that of the call which its seat makes and has published; a call that is collected is
/// completed.
pub fn owners_hold<C: Normalized>()
    ensures { OwnersHold C.form }
{}

/// A record exchange that wins goes from the word that was loaded, of the head, for the call that its seat makes.
pub fn advances_hold<C: Normalized>()
    ensures { AdvancesHold C.form }
{}

/// A move leaves the queue word, or raises its version by one.
pub fn versions_rise<C: Normalized>()
    ensures { VersionsRise C.form }
{}

/// Two queue words of a run with one version are the same.
pub fn one_word_each<C: Normalized>()
    ensures { OneWordEach C.form }
{}

/// Records only go on.
pub fn records_go_on<C: Normalized>()
    ensures { RecordsGoOn C.form }
{}

/// Where fewer blocks were named than a round can count, the rounds of all records fit.
pub fn rounds_hold<C: Normalized>()
    ensures { RoundsFit C.form }
{}

/// The blocks that were named, and those in hand, are at most those that were claimed.
pub fn names_are_claimed<C: Normalized>()
    ensures { NamesAreClaimed C.form }
{}

/// Where no more blocks are claimed than there are, and the client's requests leave the words of the queue, these laws
/// hold.
pub fn claims_keep_queue<C: Normalized>()
    ensures { ClaimsKeepQueue C.form }
{}

/// A published call ends with the outcome of its record, which is completed with its number.
pub fn outcomes_hold<C: Normalized>()
    ensures { OutcomesHold C.form }
{}
