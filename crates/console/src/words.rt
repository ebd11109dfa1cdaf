// The words of a line.
ghost use Rattle.std.specs.Prelude.{◌≡◌, ◌<◌, ◌≤◌, [], ◌∷◌, length, drop, MatchOption};
ghost use Rattle.console.specs.Words.{words, spaces, span};

// The first word of a text, and what stands behind it.
pub fn first_word(text: &[u8]) -> Option<(&[u8], &[u8])>
    ensures { MatchOption result (words text.now ≡ [])
        (λ p. (words text.now ≡ p.0.now ∷ words p.1.now) × (0 < length p.0.now) × (length p.1.now < length text.now)) }
{
    let text = skip_spaces(text);
    if text.is_empty() {
        return None;
    }
    let end = word_end(text);
    Some((&text[..end], &text[end..]))
}

fn skip_spaces(text: &[u8]) -> &[u8]
    ensures { result.now ≡ drop (spaces text.now) text.now }
{
    let start = leading_spaces(text);
    &text[start..]
}

fn leading_spaces(text: &[u8]) -> usize
    ensures value { result ≡ spaces text.now }
    ensures within { result ≤ length text.now }
{
    let past = text.iter().position(|b| *b != b' ');
    past.unwrap_or(text.len())
}

fn word_end(text: &[u8]) -> usize
    ensures value { result ≡ span text.now }
    ensures within { result ≤ length text.now }
{
    let behind = text.iter().position(|b| *b == b' ');
    behind.unwrap_or(text.len())
}
