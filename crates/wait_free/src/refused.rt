//! Why a call was refused.

use handles::Spent;

/// Why a call that may change its structure was refused. Either way the structure is as it was.
#[derive(Clone, Copy, Debug, PartialEq, Eq)]
pub enum Refused {
    /// The call needed a block and none was left. The line of the call says so: the handle has made one call more.
    Full,
    /// The handle has made 65,535 calls, as many as its seat can number. No call was made.
    Spent,
}

impl From<Spent> for Refused {
    ghost use Rattle.std.specs.Prelude.{◌≡◌};
    ghost use Rattle.wait_free.specs.declared.refused.Refused.{Refused};

    ghost from_gives = { λ _ refused. refused ≡ Refused.Spent };

    fn from(_spent: Spent) -> Refused {
        Refused::Spent
    }
}
