//! Record words: how far the published call of a seat has come.
ghost use Rattle.std.specs.Prelude.{ℕ, ◌<◌, ◌^◌};

use crate::field::Field;

/// The phase, by its number.
pub type PhaseNumber = Field<0, 3>;
/// The number of the call.
pub type RecordNumber = Field<3, 16>;
/// How often the call's list was made anew.
pub type RecordRound = Field<19, 17>;
/// What the phase needs.
pub type RecordPayload = Field<36, 24>;

/// Where a published call is. The phases follow one another in this order.
#[derive(Clone, Copy, Debug, PartialEq, Eq)]
pub enum RecordPhase {
    /// No call was published yet.
    Idle,
    /// The call's list is to be made.
    Generate,
    /// A block has the list, and its entries are tried.
    Executing,
    /// The list has stopped, and the call's answer is to be found.
    Wrapping,
    /// The call has its answer.
    Completed,
}

impl RecordPhase {
    ghost use Rattle.std.specs.Prelude.{◌≡◌};
    ghost use Rattle.word_fields.specs.Records.{phase_of, phase_number};

    /// The phase that a number stands for. A number above 4 is read as Idle.
    pub fn from_number(number: u64) -> Self
        ensures { result ≡ phase_of number }
    {
        match number {
            1 => RecordPhase::Generate,
            2 => RecordPhase::Executing,
            3 => RecordPhase::Wrapping,
            4 => RecordPhase::Completed,
            _ => RecordPhase::Idle,
        }
    }

    /// The number that stands for the phase.
    pub fn number(&self) -> u64
        ensures { result ≡ phase_number self.now }
    {
        match self {
            RecordPhase::Idle => 0,
            RecordPhase::Generate => 1,
            RecordPhase::Executing => 2,
            RecordPhase::Wrapping => 3,
            RecordPhase::Completed => 4,
        }
    }
}

/// A record word by its fields.
#[derive(Clone, Copy, Debug, PartialEq, Eq)]
pub struct RecordWord {
    pub phase: RecordPhase,
    pub number: u16,
    pub round: u32,
    pub payload: u32,
    pub ghost number_in_range: { number < 2 ^ 16 },
    pub ghost round_in_range: { round < 2 ^ 17 },
    pub ghost payload_in_range: { payload < 2 ^ 24 },
}

#[tactic(auto, unfolding(crate::specs::Records::record_word, crate::specs::Records::record_phase, crate::specs::Records::record_number, crate::specs::Records::record_round, crate::specs::Records::record_payload, crate::specs::Fields::field_of, crate::specs::Fields::with_field))]
impl RecordWord {
    ghost use Rattle.std.specs.Prelude.{◌≡◌};
    ghost use Rattle.word_fields.specs.declared.records.RecordWord.{RecordWord};
    ghost use Rattle.word_fields.specs.Records.{record_of, packed_record};

    /// The fields of a word.
    pub fn unpack(word: u64) -> Self
        ensures { result ≡ record_of word }
    {
        RecordWord {
            phase: RecordPhase::from_number(PhaseNumber::get(word)),
            number: RecordNumber::get(word) as u16,
            round: RecordRound::get(word) as u32,
            payload: RecordPayload::get(word) as u32,
        }
    }

    /// The word with these fields.
    pub fn pack(&self) -> u64
        ensures word { result ≡ packed_record self.now }
        ensures read_back { record_of result ≡ self.now }
        ensures told_apart { (v : RecordWord) → packed_record v ≡ result → v ≡ self.now }
    {
        let phase = PhaseNumber::put(0, self.phase.number());
        let number = RecordNumber::put(phase, u64::from(self.number));
        let round = RecordRound::put(number, u64::from(self.round));
        RecordPayload::put(round, u64::from(self.payload))
    }
}
