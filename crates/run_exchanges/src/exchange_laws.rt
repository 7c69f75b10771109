//! The exchanges of a run that were won, by its own calls and by helpers, and the journal that tells them.
ghost use Rattle.run_exchanges.specs.Exchanges.{JournalsTell, ExchangesOnce};
ghost use Rattle.run_exchanges.specs.Journals.{JournalsObey, WinsOnce};

use normal_traits::Normalized;

/// The journal of a run tells exactly the exchanges that were won at versioned places of the client, in order, by the run's
/// moves and words. One that a list made is the exchange of its entry, won by a move of the list's call, or by a helper that
/// works on the block which the record of this call names; and no entry of a list made two. Any other exchange that was won
/// at such a place but cleared the bit that a helper had set there.
pub fn journals_tell<C: Normalized>()
    ensures { JournalsTell C.form }
{}

/// At one place no word stands before two of the won exchanges, each raises the version by one, and there are at
/// most eight for each block.
pub fn exchanges_once<C: Normalized>()
    ensures { ExchangesOnce C.form }
{}

/// The same of the journal, in which no two have one cause, each of a block of the run and of one of eight kinds.
pub fn journals_obey<C: Normalized>()
    ensures { JournalsObey C.form }
{}

/// Each exchange of a list takes effect at most once, however many helpers execute the list and however late they are.
pub fn wins_once<C: Normalized>()
    ensures { WinsOnce C.form }
{}
