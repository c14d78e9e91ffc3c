//! Words of a line.

ghost use Rattle.std.specs.Prelude.{◌≡◌, [], ◌∷◌, position, MatchOption};
ghost use Rattle.std.specs.List.{position_or_len};
ghost use Rattle.std.specs.Char.{is_ascii_whitespace};
ghost use Rattle.std.specs.Option.{option_map};
ghost use Rattle.bus_opening.specs.Words.{first_word, words};

// Where the first white space stands.
fn first_space(bytes: &[u8]) -> Option<usize>
    ensures { result ≡ position is_ascii_whitespace bytes.now }
{
    bytes.iter().position(|b| b.is_ascii_whitespace())
}

// How many bytes stand before the first white space.
fn word_len(text: &str) -> usize
    ensures { result ≡ position_or_len is_ascii_whitespace text.now }
{
    first_space(text.as_bytes()).unwrap_or(text.len())
}

/// The first word, and what follows it.
pub fn split_word(text: &str) -> Option<(&str, &str)>
    ensures first { option_map (λ x. (x.0.now, x.1.now)) result ≡ first_word text.now }
    ensures words { MatchOption result (words text.now ≡ []) (λ x. words text.now ≡ x.0.now ∷ words x.1.now) }
{
    let text = text.trim_ascii_start();
    if text.is_empty() {
        return None;
    }
    Some(text.split_at(word_len(text)))
}
