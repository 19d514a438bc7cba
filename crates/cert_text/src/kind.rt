//! The kinds of lines, each of which begins with a word of its own.

ghost use Rattle.std.specs.Prelude.{◌≡◌, [], ◌∷◌, length, ◌≢◌};
ghost use Rattle.cert_text.specs.Lines.{kind_in};

/// The kind of a line, by its first word.
#[derive(Clone, Copy)]
pub enum LineKind {
    Certificate,
    Claims,
    Derive,
    Forget,
    Branch,
    NoPoint,
    NoRelation,
    World,
    Holds,
    Fails,
    End,
    Quit,
    Done,
}

/// The kind whose first word this is.
pub fn kind_in(word: &[u8]) -> Option<LineKind>
    ensures { result ≡ kind_in word.now }
{
    match word {
        [letter] => letter_kind(*letter),
        _ => longer_kind(word),
    }
}

#[tactic(auto, unfolding(crate::specs::Lines::kind_in))]
fn letter_kind(letter: u8) -> Option<LineKind>
    ensures { result ≡ kind_in (letter ∷ []) }
{
    match letter {
        b'd' => Some(LineKind::Derive),
        b'k' => Some(LineKind::Forget),
        b'b' => Some(LineKind::Branch),
        b'x' => Some(LineKind::NoPoint),
        b'e' => Some(LineKind::NoRelation),
        b'w' => Some(LineKind::World),
        _ => None,
    }
}

// The kind of a word that is no single letter.
#[tactic(auto, unfolding(crate::specs::Lines::kind_in))]
fn longer_kind(word: &[u8]) -> Option<LineKind>
    requires { length word.now ≢ 1 }
    ensures { result ≡ kind_in word.now }
{
    if word == b"certificate".as_slice() {
        return Some(LineKind::Certificate);
    }
    if word == b"claims".as_slice() {
        return Some(LineKind::Claims);
    }
    if word == b"some".as_slice() {
        return Some(LineKind::Holds);
    }
    if word == b"none".as_slice() {
        return Some(LineKind::Fails);
    }
    if word == b"end".as_slice() {
        return Some(LineKind::End);
    }
    if word == b"quit".as_slice() {
        return Some(LineKind::Quit);
    }
    if word == b"done".as_slice() {
        return Some(LineKind::Done);
    }
    None
}
