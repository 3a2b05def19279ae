//! The tokens that are left to be read, and what stands first among them.

ghost use Rattle.std.specs.Prelude.{◌≡◌, ◌∷◌, [], option_map};
ghost use Rattle.c_tokens.specs.View.{token_seen, tokens_seen};
ghost use Rattle.c_tokens.specs.Parsing.{same_token, after, begins, begins_second, begins_digit, is_constant, is_nothing, first_word};

use crate::token::Token;
use std::marker::Model;

/// Whether two tokens are alike.
fn same_token(one: Token, other: Token) -> bool
    ensures { result ≡ same_token (token_seen one.entry) (token_seen other.entry) }
{
    match (one, other) {
        (Token::Word(v), Token::Word(w)) => v == w,
        (Token::Mark(b), Token::Mark(c)) => b == c,
        (Token::DoubleEquals, Token::DoubleEquals) => true,
        (Token::Arrow, Token::Arrow) => true,
        _ => false,
    }
}

// What stands behind a fixed run of tokens.
#[tactic(auto, unfolding(crate::specs::Parsing::after))]
fn after<'a, 'b>(fixed: &[Token], tokens: &'a [Token<'b>]) -> Option<&'a [Token<'b>]>
    ensures { option_map (λ rest. tokens_seen rest.now) result ≡ after (tokens_seen fixed.now) (tokens_seen tokens.now) }
{
    match fixed.split_first() {
        None => Some(tokens),
        Some((one, more)) => {
            let (first, rest) = tokens.split_first()?;
            if same_token(*one, *first) {
                after(more, rest)
            } else {
                None
            }
        }
    }
}

// Whether a fixed run of tokens stands first.
#[tactic(auto, unfolding(crate::specs::Parsing::begins))]
fn begins(fixed: &[Token], tokens: &[Token]) -> bool
    ensures { result ≡ begins (tokens_seen fixed.now) (tokens_seen tokens.now) }
{
    after(fixed, tokens).is_some()
}

// The word that stands first.
fn first_word<'a>(tokens: &[Token<'a>]) -> Option<&'a [u8]>
    ensures { option_map (λ w. w.now) result ≡ option_map (λ x. x.0) (first_word (tokens_seen tokens.now)) }
{
    let (first, _) = tokens.split_first()?;
    match *first {
        Token::Word(word) => Some(word),
        Token::Mark(_) => None,
        Token::DoubleEquals => None,
        Token::Arrow => None,
    }
}

// Whether a fixed run of tokens stands behind the first one.
#[tactic(auto, unfolding(crate::specs::Parsing::begins_second))]
fn begins_second(fixed: &[Token], tokens: &[Token]) -> bool
    ensures { result ≡ begins_second (tokens_seen fixed.now) (tokens_seen tokens.now) }
{
    match tokens.split_first() {
        None => false,
        Some((_, rest)) => begins(fixed, rest),
    }
}

fn begins_digit(word: &[u8]) -> bool
    ensures { result ≡ begins_digit word.now }
{
    match word.first() {
        None => false,
        Some(byte) => *byte < 58,
    }
}

// Whether the first token is a sign or begins with a digit.
#[tactic(auto, unfolding(crate::specs::Parsing::is_constant))]
fn is_constant(tokens: &[Token]) -> bool
    ensures { result ≡ is_constant (tokens_seen tokens.now) }
{
    match tokens.split_first() {
        None => false,
        Some((Token::Word(word), _)) => begins_digit(word),
        Some((Token::Mark(byte), _)) => *byte == b'-',
        Some((Token::DoubleEquals, _)) => false,
        Some((Token::Arrow, _)) => false,
    }
}

fn is_nothing(tokens: &[Token]) -> bool
    ensures { result ≡ is_nothing (tokens_seen tokens.now) }
{
    match tokens.split_first() {
        None => true,
        Some(_) => false,
    }
}

/// The tokens that are left. Contracts see the list of them.
#[derive(Drop)]
pub struct Tokens<'a> {
    all: &'a [Token<'a>],
    at: usize,
}

impl<'a> Model for Tokens<'a> {
    ghost use Rattle.std.specs.Prelude.{List, drop, length, ◌≤◌};
    ghost use Rattle.c_tokens.specs.Tokens.{Token};
    ghost use Rattle.c_tokens.specs.View.{tokens_seen};

    ghost Value = { List Token };

    ghost view = { λ tokens. drop tokens.at (tokens_seen tokens.all.now) };

    ghost invariant = { λ tokens. tokens.at ≤ length tokens.all.now };
}

impl<'a> Tokens<'a> {
    /// All of these tokens.
    pub fn of(tokens: &'a [Token<'a>]) -> Tokens<'a>
        ensures { result ≡ tokens_seen tokens.now }
    {
        Tokens { all: tokens, at: 0 }
    }

    // The tokens that are left.
    fn rest(&self) -> &'a [Token<'a>]
        ensures { tokens_seen result.now ≡ self.now }
    {
        let (_, rest) = self.all.split_at(self.at);
        rest
    }

    /// Whether a fixed run of tokens stands first.
    pub fn begins(&self, fixed: &[Token]) -> bool
        ensures { result ≡ begins (tokens_seen fixed.now) self.now }
    {
        begins(fixed, self.rest())
    }

    /// Whether a fixed run of tokens stands behind the first one.
    pub fn begins_second(&self, fixed: &[Token]) -> bool
        ensures { result ≡ begins_second (tokens_seen fixed.now) self.now }
    {
        begins_second(fixed, self.rest())
    }

    /// Whether the first token is a sign or begins with a digit.
    pub fn is_constant(&self) -> bool
        ensures { result ≡ is_constant self.now }
    {
        is_constant(self.rest())
    }

    /// Whether no token is left.
    pub fn is_empty(&self) -> bool
        ensures { result ≡ is_nothing self.now }
    {
        is_nothing(self.rest())
    }

    /// Takes a fixed run of tokens.
    pub fn take(&mut self, fixed: &[Token]) -> Option<()>
        ensures { option_map (λ _. self.new) result ≡ after (tokens_seen fixed.now) self.old }
    {
        if !self.begins(fixed) {
            return None;
        }
        self.at += fixed.len();
        Some(())
    }

    /// Takes the word that stands first.
    pub fn word(&mut self) -> Option<&'a [u8]>
        ensures { option_map (λ w. (w.now, self.new)) result ≡ first_word self.old }
    {
        let word = first_word(self.rest())?;
        self.at += 1;
        Some(word)
    }
}
