//! The numbers that words write.
ghost use Rattle.std.specs.Prelude.{◌≡◌};
ghost use Rattle.script_reader.specs.Words.{is_number, number_up_to};

/// Whether a word is made of ASCII digits alone.
pub fn is_number(word: &[u8]) -> bool
    ensures { result ≡ is_number word.now }
{
    word.iter().all(|byte| byte.is_ascii_digit())
}

/// The number that a word writes in digits, where it is at most this.
#[tactic(auto, using(crate::proofs::Digits::value_more, crate::proofs::Digits::digit_at))]
pub fn number_up_to(most: u32, word: &[u8]) -> Option<u32>
    ensures { result ≡ number_up_to most word.now }
{
    if !is_number(word) {
        return None;
    }
    let mut number = 0;
    for byte in word {
        number = number * 10 + u64::from(byte - b'0');
        if number > u64::from(most) {
            return None;
        }
    }
    Some(number as u32)
}
