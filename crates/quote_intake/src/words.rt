//! The words of a line, which are parted by one space each.
ghost use Rattle.std.specs.Prelude.{◌≡◌, ◌<◌, ◌^◌, ◌==◌, ◌+◌, ◌∷◌, [], take, drop, IfSome, IfNone, length, position};
ghost use Rattle.quote_intake.specs.Words.{words_of};

/// The place of the first space.
pub fn space_at(text: &[u8]) -> Option<usize>
    ensures place { result ≡ position (λ byte. byte == 32) text.now }
    ensures within { IfSome result (λ at. at < length text.now) }
{
    text.iter().position(|byte| *byte == b' ')
}

/// As `space_at`: before it stands the first word, and behind it the others.
#[tactic(auto, using(crate::proofs::Spaces::cut_at, crate::proofs::Spaces::cut_none))]
pub fn first_space(text: &[u8]) -> Option<usize>
    ensures found { IfSome result (λ at. words_of text.now ≡ take at text.now ∷ words_of (drop (at + 1) text.now)) }
    ensures none { IfNone result (words_of text.now ≡ text.now ∷ []) }
    ensures within { IfSome result (λ at. (at < length text.now) × (at + 1 < 2 ^ 64)) }
{
    match space_at(text) {
        Some(at) => Some(at),
        None => None,
    }
}

/// The first word of a line and what stands behind its space, or none where the line has one word.
pub fn cut_word(text: &[u8]) -> Option<(&[u8], &[u8])>
    ensures found { IfSome result (λ parts. words_of text.now ≡ parts.0.now ∷ words_of parts.1.now) }
    ensures none { IfNone result (words_of text.now ≡ text.now ∷ []) }
{
    match first_space(text) {
        Some(at) => Some((&text[..at], &text[at + 1..])),
        None => None,
    }
}
