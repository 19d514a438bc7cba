//! The words of a text, one by one.

ghost use Rattle.std.specs.Prelude.{◌≡◌, ◌==◌, [], ◌∷◌, position, MatchOption};
ghost use Rattle.proof_text.specs.Words.{words_of};

use std::marker::Model;

/// The words of a text that are still to come, from the left. A separator parts two words, so a text with no separator
/// is one word, and the empty text is one empty word.
#[derive(Debug, Drop)]
pub struct Words<'a> {
    rest: &'a [u8],
    separator: u8,
    ended: bool,
}

impl<'a> Model for Words<'a> {
    ghost use Rattle.std.specs.Prelude.{ℕ, List};
    ghost use Rattle.proof_text.specs.Words.{words_left};

    ghost Value = { List (List ℕ) };

    ghost view = { λ words. words_left words.separator words.ended words.rest.now };
}

impl<'a> Words<'a> {
    #[tactic(auto, unfolding(crate::specs::Words::words_left))]
    pub fn new(text: &'a [u8], separator: u8) -> Self
        ensures { result ≡ words_of separator text.now }
    {
        Words {
            rest: text,
            separator,
            ended: false,
        }
    }

    /// The next word, which is taken off.
    #[tactic(auto, unfolding(crate::specs::Words::words_left))]
    pub fn next_word(&mut self) -> Option<&'a [u8]>
        ensures { MatchOption result ((self.old ≡ []) × (self.new ≡ [])) (λ word. self.old ≡ word.now ∷ self.new) }
    {
        if self.ended {
            return None;
        }
        match place_of(self.rest, self.separator) {
            None => {
                self.ended = true;
                Some(self.rest)
            }
            Some(place) => {
                let (word, _) = self.rest.split_at(place);
                let (_, rest) = self.rest.split_at(place + 1);
                self.rest = rest;
                Some(word)
            }
        }
    }
}

fn place_of(text: &[u8], separator: u8) -> Option<usize>
    ensures { result ≡ position (λ b. b == separator) text.now }
{
    text.iter().position(|b| *b == separator)
}
