// Words parted by single spaces.
ghost use Rattle.std.specs.Prelude.{◌≡◌, ◌<◌, ◌==◌, IfSome, position, length};
ghost use Rattle.text_base.specs.Words.{first_word, other_words};

// The place of the first space.
fn space_at(text: &[u8]) -> Option<usize>
    ensures place { result ≡ position (λ byte. byte == 32) text.now }
    ensures within { IfSome result (λ end. end < length text.now) }
{
    text.iter().position(|byte| *byte == b' ')
}

/// The first word of a line, up to its first space, and what follows that space. Without a space all of the line is
/// its first word, and nothing follows.
pub fn split_word(text: &[u8]) -> (&[u8], &[u8])
    ensures first { result.0.now ≡ first_word text.now }
    ensures others { result.1.now ≡ other_words text.now }
{
    match space_at(text) {
        Some(end) => (&text[..end], &text[end + 1..]),
        None => (text, &text[text.len()..]),
    }
}
