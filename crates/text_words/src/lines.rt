//! A text as lines, and a line without its end and its comment.
ghost use Rattle.std.specs.Prelude.{◌≡◌, ◌==◌, ◌<◌, ◌≤◌, ◌∷◌, [], length, IfSome, IfNone};
ghost use Rattle.std.specs.List.{before_first, after_first, position_or_len};
ghost use Rattle.text_words.specs.Tokens.{lines_of, without_return, bare};

/// What stands before the first such byte, and what after it, where there is one.
#[tactic(auto, using(crate::proofs::LineLemmas::cut_rules))]
pub fn cut_at_first(bytes: &[u8], byte: u8) -> Option<(&[u8], &[u8])>
    ensures before { IfSome result (λ parts. parts.0.now ≡ before_first (λ b. b == byte) bytes.now) }
    ensures after { IfSome result (λ parts. parts.1.now ≡ after_first (λ b. b == byte) bytes.now) }
    ensures found { IfSome result (λ _. position_or_len (λ b. b == byte) bytes.now < length bytes.now) }
    ensures shorter { IfSome result (λ parts. length parts.1.now < length bytes.now) }
    ensures absent { IfNone result (length bytes.now ≤ position_or_len (λ b. b == byte) bytes.now) }
{
    let at = place_of(bytes, byte);
    if at >= bytes.len() {
        return None;
    }
    Some((&bytes[..at], &bytes[at + 1..]))
}

fn place_of(bytes: &[u8], byte: u8) -> usize
    ensures { result ≡ position_or_len (λ b. b == byte) bytes.now }
{
    bytes.iter().take_while(|b| **b != byte).count()
}

#[tactic(auto, using(crate::proofs::LineLemmas::line_rules))]
/// The first line of a text, and the text after it where a line end stood.
pub fn first_line(text: &[u8]) -> (&[u8], Option<&[u8]>)
    ensures more { IfSome result.1 (λ rest. lines_of text.now ≡ result.0.now ∷ lines_of rest.now) }
    ensures last { IfNone result.1 (lines_of text.now ≡ result.0.now ∷ []) }
    ensures shorter { IfSome result.1 (λ rest. length rest.now < length text.now) }
{
    match cut_at_first(text, b'\n') {
        Some((line, rest)) => (line, Some(rest)),
        None => (text, None),
    }
}

#[tactic(auto, using(crate::proofs::LineLemmas::line_rules))]
fn without_return(line: &[u8]) -> &[u8]
    ensures { result.now ≡ without_return line.now }
{
    match line.split_last() {
        Some((last, before)) if *last == b'\r' => before,
        _ => line,
    }
}

#[tactic(auto, using(crate::proofs::LineLemmas::line_rules))]
/// The line without a carriage return at its end, and without its comment.
pub fn bare(line: &[u8]) -> &[u8]
    ensures { result.now ≡ bare line.now }
{
    let line = without_return(line);
    match cut_at_first(line, b'#') {
        Some((before, _)) => before,
        None => line,
    }
}
