//! The words of a line.
ghost use Rattle.std.specs.Prelude.{◌≡◌, ◌≤◌, ℕ, [], ◌∷◌, List, length, MatchOption};
ghost use Rattle.std.specs.List.{prefix_len, position_or_len};
ghost use Rattle.script_reader.specs.Words.{is_space, words_of};
ghost use Rattle.script_reader.specs.WordList.{AreWords};

/// How many spaces a line begins with.
fn leading_spaces(line: &[u8]) -> usize
    ensures spaces { result ≡ prefix_len is_space line.now }
    ensures within { result ≤ length line.now }
{
    line.iter().take_while(|byte| **byte == b' ').count()
}

/// How many bytes stand before the first space.
fn word_len(line: &[u8]) -> usize
    ensures len { result ≡ position_or_len is_space line.now }
    ensures within { result ≤ length line.now }
{
    line.iter().take_while(|byte| **byte != b' ').count()
}

/// The first word of a line, and what stands behind it.
#[tactic(auto, using(crate::proofs::WordsOf::first_word_is, crate::proofs::WordsOf::no_words))]
fn first_word(line: &[u8]) -> Option<(&[u8], &[u8])>
    ensures { MatchOption result (words_of line.now ≡ []) (λ w. words_of line.now ≡ w.0.now ∷ words_of w.1.now) }
{
    let (_, line) = line.split_at(leading_spaces(line));
    if line.is_empty() {
        return None;
    }
    Some(line.split_at(word_len(line)))
}

/// The words of a line. No line has more than three that count.
#[derive(Clone, Copy)]
pub enum Words<'a> {
    None,
    One(&'a [u8]),
    Two(&'a [u8], &'a [u8]),
    Three(&'a [u8], &'a [u8], &'a [u8]),
    /// Four or more.
    More,
}

/// The words of a line.
pub fn words_in(line: &[u8]) -> Words<'_>
    ensures { AreWords result (words_of line.now) }
{
    let Some((first, rest)) = first_word(line) else {
        return Words::None;
    };
    let Some((second, rest)) = first_word(rest) else {
        return Words::One(first);
    };
    let Some((third, rest)) = first_word(rest) else {
        return Words::Two(first, second);
    };
    match first_word(rest) {
        None => Words::Three(first, second, third),
        Some(_) => Words::More,
    }
}
