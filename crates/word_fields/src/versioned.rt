//! Versioned words: the words that listed exchanges change.
ghost use Rattle.std.specs.Prelude.{ℕ, ◌<◌, ◌^◌};

use crate::field::Field;

/// The value, in bits 0 to 23.
pub type VersionedValue = Field<0, 24>;
/// The modified bit.
pub type VersionedBit = Field<24, 1>;
/// The version, which each changing exchange raises by one.
pub type VersionedVersion = Field<25, 39>;

/// How many versions there are.
const VERSIONS: u64 = 1 << 39;

/// A word that listed exchanges change, by its fields.
#[derive(Clone, Copy, Debug, PartialEq, Eq)]
pub struct VersionedWord {
    pub value: u32,
    pub modified: bool,
    pub version: u64,
    pub ghost value_in_range: { value < 2 ^ 24 },
    pub ghost version_in_range: { version < 2 ^ 39 },
}

#[tactic(auto, unfolding(crate::specs::Versioned::versioned_word, crate::specs::Versioned::versioned_value, crate::specs::Versioned::versioned_bit, crate::specs::Versioned::versioned_version, crate::specs::Versioned::changed_word, crate::specs::Versioned::marked_word, crate::specs::Versioned::cleared_word, crate::specs::Fields::field_of, crate::specs::Fields::with_field))]
impl VersionedWord {
    ghost use Rattle.std.specs.Prelude.{◌≡◌, ◌≢◌, ◌+◌, ◌%◌, true, false};
    ghost use Rattle.word_fields.specs.declared.versioned.VersionedWord.{VersionedWord};
    ghost use Rattle.word_fields.specs.Versioned.{versioned_of, packed_versioned, versioned_version, changed_word, marked_word, cleared_word};

    /// The fields of a word.
    pub fn unpack(word: u64) -> Self
        ensures fields { result ≡ versioned_of word }
        ensures version { result.version ≡ versioned_version word }
        ensures packs_again { packed_versioned result ≡ word }
    {
        VersionedWord {
            value: VersionedValue::get(word) as u32,
            modified: VersionedBit::get(word) == 1,
            version: VersionedVersion::get(word),
        }
    }

    /// The word with these fields.
    pub fn pack(&self) -> u64
        ensures word { result ≡ packed_versioned self.now }
        ensures read_back { versioned_of result ≡ self.now }
        ensures told_apart { (v : VersionedWord) → packed_versioned v ≡ result → v ≡ self.now }
    {
        let value = VersionedValue::put(0, u64::from(self.value));
        let marked = VersionedBit::put(value, u64::from(self.modified));
        VersionedVersion::put(marked, self.version)
    }

    /// This value with the bit clear and the version one higher, modulo 2^39: what a changing
    /// exchange writes.
    pub fn changed(&self, value: u32) -> VersionedWord
        requires in_range { value < 2 ^ 24 }
        ensures word { packed_versioned result ≡ changed_word (packed_versioned self.now) value }
        ensures value { result.value ≡ value }
        ensures clear { result.modified ≡ false }
        ensures version { result.version ≡ (self.now.version + 1) % 2 ^ 39 }
        ensures differs { packed_versioned result ≢ packed_versioned self.now }
    {
        VersionedWord {
            value,
            modified: false,
            version: (self.version + 1) % VERSIONS,
        }
    }

    /// This bit, value and version kept.
    fn with_bit(&self, modified: bool) -> VersionedWord
        ensures value { result.value ≡ self.now.value }
        ensures bit { result.modified ≡ modified }
        ensures version { result.version ≡ self.now.version }
    {
        VersionedWord {
            value: self.value,
            modified,
            version: self.version,
        }
    }

    /// The bit set, value and version kept.
    pub fn marked(&self) -> VersionedWord
        ensures word { packed_versioned result ≡ marked_word (packed_versioned self.now) }
        ensures value { result.value ≡ self.now.value }
        ensures set { result.modified ≡ true }
        ensures version { result.version ≡ self.now.version }
    {
        self.with_bit(true)
    }

    /// The bit clear, value and version kept.
    pub fn cleared(&self) -> VersionedWord
        ensures word { packed_versioned result ≡ cleared_word (packed_versioned self.now) }
        ensures value { result.value ≡ self.now.value }
        ensures clear { result.modified ≡ false }
        ensures version { result.version ≡ self.now.version }
    {
        self.with_bit(false)
    }
}
