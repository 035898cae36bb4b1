//! The tokens of a text, one after another.

ghost use Rattle.std.specs.Prelude.{◌≡◌, ◌+◌, ◌≤◌, [], ◌∷◌, length, MatchOption};
ghost use Rattle.hy_query.specs.Tokens.{ends_word, is_sign, sign_length, text_length, token_length, tokens, word_length};
ghost use Rattle.hy_query.specs.inside.Spaces.{space_count};

use std::marker::Model;

/// A token of a text.
#[derive(Clone, Copy, Debug)]
pub(crate) struct Token<'a> {
    /// The place of its first byte in the text.
    pub(crate) place: usize,
    /// Its bytes.
    pub(crate) word: &'a [u8],
}

/// The tokens that are left of a text.
#[derive(Debug, Drop)]
pub(crate) struct Tokens<'a> {
    place: usize,
    rest: &'a [u8],
}

// Clauses see the list of those that are left.
impl<'a> Model for Tokens<'a> {
    ghost use Rattle.std.specs.Prelude.{List, ◌+◌, ◌^◌, ◌<◌, length};
    ghost use Rattle.hy_query.specs.Tokens.{Token, tokens_from};

    ghost Value = { List Token };

    ghost view = { λ tokens. tokens_from (length tokens.rest.now) tokens.place tokens.rest.now };

    ghost invariant = { λ tokens. tokens.place + length tokens.rest.now < 2 ^ 63 };
}

impl<'a> Tokens<'a> {
    /// All tokens of a text.
    pub(crate) fn new(text: &'a [u8]) -> Tokens<'a>
        ensures { result ≡ tokens text.now }
    {
        Tokens {
            place: 0,
            rest: text,
        }
    }

    /// The next token, if one is left.
    pub(crate) fn next_token(&mut self) -> Option<Token<'a>>
        ensures { MatchOption result (self.old ≡ [])
            (λ token. self.old ≡ record { place = token.place; word = token.word.now } ∷ self.new) }
    {
        let spaces = space_count(self.rest);
        let (_, begun) = self.rest.split_at(spaces);
        let (first, later) = begun.split_first()?;
        let (word, rest) = begun.split_at(token_length(*first, later));
        let place = self.place + spaces;
        self.place = place + word.len();
        self.rest = rest;
        Some(Token { place, word })
    }
}

/// How many spaces a text begins with.
fn space_count(text: &[u8]) -> usize
    ensures same { result ≡ space_count text.now }
    ensures within { result ≤ length text.now }
{
    text.iter()
        .position(|byte| *byte != b' ')
        .unwrap_or(text.len())
}

/// How many bytes the token has that begins with this one, which is no space.
fn token_length(first: u8, later: &[u8]) -> usize
    ensures same { result ≡ token_length first later.now }
    ensures within { (1 ≤ result) × (result ≤ length later.now + 1) }
{
    if first == b',' {
        1
    } else if is_sign(first) {
        sign_length(first, later)
    } else if first == b'\'' {
        1 + text_length(later)
    } else {
        1 + word_length(later)
    }
}

/// How many bytes a sign has.
fn sign_length(first: u8, later: &[u8]) -> usize
    ensures same { result ≡ sign_length first later.now }
    ensures within { (1 ≤ result) × (result ≤ length later.now + 1) }
{
    match (first, later.first()) {
        (b'<', Some(b'=' | b'>')) | (b'>', Some(b'=')) => 2,
        _ => 1,
    }
}

/// How many bytes stand up to the next quote, and then up to the end of the word; all, where there is no quote.
fn text_length(text: &[u8]) -> usize
    ensures same { result ≡ text_length text.now }
    ensures within { result ≤ length text.now }
{
    match text.iter().position(|byte| *byte == b'\'') {
        Some(place) => {
            let (_, later) = text.split_at(place + 1);
            place + 1 + word_length(later)
        }
        None => text.len(),
    }
}

/// How many bytes stand before the first that ends a word.
fn word_length(text: &[u8]) -> usize
    ensures same { result ≡ word_length text.now }
    ensures within { result ≤ length text.now }
{
    text.iter()
        .position(|byte| ends_word(*byte))
        .unwrap_or(text.len())
}

/// Whether a byte ends a word: a space, a comma or a sign.
fn ends_word(byte: u8) -> bool
    ensures { result ≡ ends_word byte }
{
    byte == b' ' || byte == b',' || is_sign(byte)
}

/// Whether a byte is `<`, `=` or `>`.
fn is_sign(byte: u8) -> bool
    ensures { result ≡ is_sign byte }
{
    byte == b'<' || byte == b'=' || byte == b'>'
}
