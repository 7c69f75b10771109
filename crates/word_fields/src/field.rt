//! A field of a word: some of its bits, read and written as a number.
ghost use Rattle.std.specs.Prelude.{◌≡◌, ℕ, ◌+◌, ◌<◌, ◌≤◌, ◌^◌};
ghost use Rattle.word_fields.specs.Fields.{field_of, with_field, IsApart};

/// The WIDTH bits of a word from bit AT on. Bit 0 is the lowest.
pub struct Field<const AT: u32, const WIDTH: u32>;

impl<const AT: u32, const WIDTH: u32> Field<AT, WIDTH> {
    /// The greatest value of the field.
    fn mask() -> u64
        requires some_bits { 1 ≤ WIDTH }
        requires in_word { AT + WIDTH ≤ 64 }
        ensures { result + 1 ≡ 2 ^ WIDTH }
    {
        u64::MAX >> (64 - WIDTH)
    }

    /// The field's bits, as a number below 2^WIDTH.
    pub fn get(word: u64) -> u64
        requires some_bits { 1 ≤ WIDTH }
        requires in_word { AT + WIDTH ≤ 64 }
        ensures value { result ≡ field_of AT WIDTH word }
        ensures in_range { result < 2 ^ WIDTH }
    {
        (word >> AT) & Self::mask()
    }

    /// The word with this field replaced.
    pub fn put(word: u64, value: u64) -> u64
        requires some_bits { 1 ≤ WIDTH }
        requires in_word { AT + WIDTH ≤ 64 }
        requires in_range { value < 2 ^ WIDTH }
        ensures exact { result ≡ with_field AT WIDTH word value }
        ensures read_back { field_of AT WIDTH result ≡ value }
        ensures others_stay { (at width : ℕ) → IsApart at width AT WIDTH →
            field_of at width result ≡ field_of at width word }
    {
        (word & !(Self::mask() << AT)) | (value << AT)
    }
}
