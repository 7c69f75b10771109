//! Owner words: the call for which a block was offered.
ghost use Rattle.std.specs.Prelude.{◌≡◌, ◌<◌};
ghost use Rattle.word_fields.specs.Owners.{owner_seat, owner_number, owner_word};

use crate::field::Field;

/// The seat.
pub type OwnerSeat = Field<0, 3>;
/// The number of its call.
pub type OwnerNumber = Field<3, 16>;

/// The owner word of call NUMBER of a seat.
#[tactic(auto, unfolding(crate::specs::Owners::owner_word, crate::specs::Owners::owner_seat, crate::specs::Owners::owner_number, crate::specs::Fields::field_of, crate::specs::Fields::with_field))]
pub fn pack_owner(seat: u32, number: u16) -> u64
    requires { seat < 8 }
    ensures word { result ≡ owner_word seat number }
    ensures seat { owner_seat result ≡ seat }
    ensures number { owner_number result ≡ number }
{
    OwnerNumber::put(OwnerSeat::put(0, u64::from(seat)), u64::from(number))
}
