//! The tokens of a line, and its words, from the left.
ghost use Rattle.std.specs.Prelude.{◌≡◌, ◌<◌, ◌≤◌, ◌||◌, ◌∷◌, [], length, IfSome, IfNone, MatchOption};
ghost use Rattle.std.specs.List.{position_or_len};
ghost use Rattle.text_words.specs.Tokens.{is_blank, is_bracket, tokens_after, words_in};
ghost use Rattle.text_words.specs.Views.{token_of, ends_word, is_no_blank, StartsToken};

/// A bracket, or a word.
#[derive(Clone, Copy)]
pub enum Token<'a> {
    Bracket(u8),
    Word(&'a [u8]),
}

fn is_blank(b: u8) -> bool
    ensures { result ≡ is_blank b }
{
    b == b' ' || b == b'\t'
}

fn is_bracket(b: u8) -> bool
    ensures { result ≡ is_bracket b }
{
    matches!(b, b'(' | b')' | b'[' | b']' | b'{' | b'}')
}

// How many bytes of a word stand first.
fn word_len(line: &[u8]) -> usize
    ensures { result ≡ position_or_len ends_word line.now }
{
    line.iter()
        .take_while(|b| !is_blank(**b) && !is_bracket(**b))
        .count()
}

// How many blanks stand first.
fn blank_len(line: &[u8]) -> usize
    ensures { result ≡ position_or_len is_no_blank line.now }
{
    line.iter().take_while(|b| is_blank(**b)).count()
}

// How many bytes stand before the first blank.
fn run_len(line: &[u8]) -> usize
    ensures { result ≡ position_or_len is_blank line.now }
{
    line.iter().take_while(|b| !is_blank(**b)).count()
}

#[tactic(auto, using(crate::proofs::TokenLemmas::token_rules, crate::proofs::BlankLemmas::blank_rules))]
fn without_blanks(line: &[u8]) -> &[u8]
    ensures same { tokens_after [] result.now ≡ tokens_after [] line.now }
    ensures words { words_in result.now ≡ words_in line.now }
    ensures shorter { length result.now ≤ length line.now }
    ensures first { StartsToken result.now }
{
    line.split_at(blank_len(line)).1
}

#[tactic(auto, using(crate::proofs::TokenLemmas::token_rules))]
/// The first token of a line, and the line after it; and none where there is no token.
pub fn next_token(line: &[u8]) -> Option<(Token<'_>, &[u8])>
    ensures token { MatchOption result (tokens_after [] line.now ≡ []) (λ next. tokens_after [] line.now ≡ token_of next.0 ∷ tokens_after [] next.1.now) }
    ensures shorter { IfSome result (λ next. length next.1.now < length line.now) }
{
    let line = without_blanks(line);
    let [first, after @ ..] = line else {
        return None;
    };
    if is_bracket(*first) {
        return Some((Token::Bracket(*first), after));
    }
    let (word, after) = line.split_at(word_len(line));
    Some((Token::Word(word), after))
}

/// The next word of a line and what is behind it, where brackets are as any byte of a word; and none where there is no word.
#[tactic(auto, using(crate::proofs::BlankLemmas::blank_rules))]
pub fn next_word(line: &[u8]) -> Option<(&[u8], &[u8])>
    ensures word { IfSome result (λ cut. words_in line.now ≡ cut.0.now ∷ words_in cut.1.now) }
    ensures some { IfSome result (λ cut. 0 < length cut.0.now) }
    ensures shorter { IfSome result (λ cut. length cut.1.now < length line.now) }
    ensures none { IfNone result (words_in line.now ≡ []) }
{
    let line = without_blanks(line);
    if line.is_empty() {
        return None;
    }
    Some(line.split_at(run_len(line)))
}
