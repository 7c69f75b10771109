//! Forms of the queue and of the list with one mistake each: none has the laws of a client.
#![tactic(auto)]

ghost use Rattle.normal_traits.specs.Laws.{Laws};
ghost use Rattle.refuted_forms.specs.ListForms.{list_from_a_set_bit, list_past_a_mark};
ghost use Rattle.refuted_forms.specs.QueueForms.{queue_of_one_cause, queue_that_restarts, queue_without_a_look};

/// A take that answers `empty` where the tail names the head's node, without a look at the node's next word,
/// misses a value whose put hasn't moved the tail yet.
pub fn empty_without_a_look()
    ensures { ¬ Laws queue_without_a_look }
{}

/// A wrap-up that restarts after its list's entry made the change would have the change made twice.
pub fn restart_after_the_change()
    ensures { ¬ Laws queue_that_restarts }
{}

/// Where the link of a node and the move of the tail to it have one cause, causes don't tell won exchanges
/// apart.
pub fn one_cause_for_two()
    ensures { ¬ Laws queue_of_one_cause }
{}

/// An add that names its list from a word whose bit is set exchanges a word that an undecided list may still
/// own.
pub fn offered_from_a_set_bit()
    ensures { ¬ Laws list_from_a_set_bit }
{}

/// A search that goes by a marked node as if the set had its key would link a node behind it, where no path
/// leads.
pub fn searched_past_a_mark()
    ensures { ¬ Laws list_past_a_mark }
{}
