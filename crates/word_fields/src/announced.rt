//! Op words and value words: the call that a seat announces.
ghost use Rattle.std.specs.Prelude.{ℕ, ◌<◌, ◌^◌};

use crate::field::Field;

/// The command's code.
pub type OpCode = Field<0, 4>;
/// The number of the call.
pub type OpNumber = Field<4, 16>;
/// The key.
pub type OpKey = Field<20, 20>;

/// The number of the call whose value it is.
pub type ValueNumber = Field<0, 16>;
/// The value.
pub type AnnouncedValue = Field<16, 32>;

/// An op word by its fields: the command of call NUMBER, and its key.
#[derive(Clone, Copy, Debug, PartialEq, Eq)]
pub struct OpWord {
    pub code: u8,
    pub number: u16,
    pub key: u32,
    pub ghost code_in_range: { code < 2 ^ 4 },
    pub ghost number_in_range: { number < 2 ^ 16 },
    pub ghost key_in_range: { key < 2 ^ 20 },
}

#[tactic(auto, unfolding(crate::specs::Announced::op_word, crate::specs::Announced::op_code, crate::specs::Announced::op_number, crate::specs::Announced::op_key, crate::specs::Fields::field_of, crate::specs::Fields::with_field))]
impl OpWord {
    ghost use Rattle.std.specs.Prelude.{◌≡◌};
    ghost use Rattle.word_fields.specs.declared.announced.OpWord.{OpWord};
    ghost use Rattle.word_fields.specs.Announced.{op_of, packed_op};

    /// The fields of a word.
    pub fn unpack(word: u64) -> Self
        ensures { result ≡ op_of word }
    {
        OpWord {
            code: OpCode::get(word) as u8,
            number: OpNumber::get(word) as u16,
            key: OpKey::get(word) as u32,
        }
    }

    /// The word with these fields.
    pub fn pack(&self) -> u64
        ensures word { result ≡ packed_op self.now }
        ensures read_back { op_of result ≡ self.now }
        ensures told_apart { (v : OpWord) → packed_op v ≡ result → v ≡ self.now }
    {
        let code = OpCode::put(0, u64::from(self.code));
        let number = OpNumber::put(code, u64::from(self.number));
        OpKey::put(number, u64::from(self.key))
    }
}

/// A value word by its fields: the value of call NUMBER.
#[derive(Clone, Copy, Debug, PartialEq, Eq)]
pub struct ValueWord {
    pub number: u16,
    pub value: u32,
    pub ghost number_in_range: { number < 2 ^ 16 },
    pub ghost value_in_range: { value < 2 ^ 32 },
}

#[tactic(auto, unfolding(crate::specs::Announced::value_word, crate::specs::Announced::value_number, crate::specs::Announced::announced_value, crate::specs::Fields::field_of, crate::specs::Fields::with_field))]
impl ValueWord {
    ghost use Rattle.std.specs.Prelude.{◌≡◌};
    ghost use Rattle.word_fields.specs.declared.announced.ValueWord.{ValueWord};
    ghost use Rattle.word_fields.specs.Announced.{value_of, packed_value};

    /// The fields of a word.
    pub fn unpack(word: u64) -> Self
        ensures { result ≡ value_of word }
    {
        ValueWord {
            number: ValueNumber::get(word) as u16,
            value: AnnouncedValue::get(word) as u32,
        }
    }

    /// The word with these fields.
    pub fn pack(&self) -> u64
        ensures word { result ≡ packed_value self.now }
        ensures read_back { value_of result ≡ self.now }
        ensures told_apart { (v : ValueWord) → packed_value v ≡ result → v ≡ self.now }
    {
        AnnouncedValue::put(
            ValueNumber::put(0, u64::from(self.number)),
            u64::from(self.value),
        )
    }
}
