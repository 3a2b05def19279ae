//! What stands first in a text: a token, white space or a comment (C17, 6.4 and 6.4.9).

ghost use Rattle.std.specs.Prelude.{◌≡◌, ◌<◌, ◌≤◌, ◌∷◌, length, take, drop, IsTrue, MatchOption, IfSome, false};
ghost use Rattle.dt_values.specs.Names.{is_name_byte};
ghost use Rattle.c_tokens.specs.Bytes.{is_white, is_mark, Letters};
ghost use Rattle.c_tokens.specs.Lexed.{Begins};
ghost use Rattle.c_tokens.specs.Tokens.{between, after_equals, after_dash, after_slash, in_comment};
ghost use Rattle.c_tokens.specs.Reading.{ReadsAs};
ghost use Rattle.c_tokens.specs.View.{lexeme_seen, IsFirst, IsRest};

use crate::token::Token;
use dt_values::name::is_name_byte;

// The token that stands first in the text, with the text behind it. The token is None where white space or a comment
// stands there, and there is no answer where nothing of that does.
pub(crate) fn first_lexeme(text: &[u8]) -> Option<(Option<Token<'_>>, &[u8])>
    requires { 0 < length text.now }
    ensures read { IsFirst text.now between result }
    ensures shorter { IfSome result (λ x. length x.1.now < length text.now) }
{
    let (first, rest) = text.split_first()?;
    if is_name_byte(*first) {
        return Some(word(text));
    }
    first_of_others(*first, rest)
}

// The same, where the text begins with a byte that is in no word.
#[tactic(auto, using(crate::proofs::First::first_bytes))]
fn first_of_others(byte: u8, rest: &[u8]) -> Option<(Option<Token<'_>>, &[u8])>
    requires { is_name_byte byte ≡ false }
    ensures read { IsFirst (byte ∷ rest.now) between result }
    ensures shorter { IfSome result (λ x. length x.1.now ≤ length rest.now) }
{
    if is_white(byte) {
        return Some((None, rest));
    }
    if is_mark(byte) {
        return Some((Some(Token::Mark(byte)), rest));
    }
    if byte == b'=' {
        return Some(equals(rest));
    }
    if byte == b'-' {
        return Some(dash(rest));
    }
    if byte == b'/' {
        return Some((None, behind_slash(rest)?));
    }
    None
}

// What stands behind the comment whose slash was read.
#[tactic(auto, using(crate::proofs::Lexemes::slash_star, crate::proofs::Lexemes::slash_alone))]
fn behind_slash(text: &[u8]) -> Option<&[u8]>
    ensures read { IsRest text.now after_slash result }
    ensures shorter { IfSome result (λ rest. length rest.now ≤ length text.now) }
{
    behind_comment(behind(b'*', text)?)
}

// What stands behind the comment that the text begins inside of.
#[tactic(auto, using(crate::proofs::Lexemes::comment_steps))]
fn behind_comment(text: &[u8]) -> Option<&[u8]>
    ensures read { IsRest text.now in_comment result }
    ensures shorter { IfSome result (λ rest. length rest.now ≤ length text.now) }
{
    let mut starred = false;
    let mut at = 0;
    while at < text.len() {
        let byte = text[at];
        at += 1;
        if starred && byte == b'/' {
            let (_, rest) = text.split_at(at);
            return Some(rest);
        }
        starred = byte == b'*';
    }
    None
}

// The token whose `=` was read.
#[tactic(auto, using(crate::proofs::Lexemes::two_equals, crate::proofs::Lexemes::one_equals))]
fn equals(text: &[u8]) -> (Option<Token<'_>>, &[u8])
    ensures read { ReadsAs text.now after_equals (lexeme_seen result.0) result.1.now }
    ensures shorter { length result.1.now ≤ length text.now }
{
    match behind(b'=', text) {
        Some(rest) => (Some(Token::DoubleEquals), rest),
        None => (Some(Token::Mark(b'=')), text),
    }
}

// The token whose `-` was read.
#[tactic(auto, using(crate::proofs::Lexemes::dash_above, crate::proofs::Lexemes::one_dash))]
fn dash(text: &[u8]) -> (Option<Token<'_>>, &[u8])
    ensures read { ReadsAs text.now after_dash (lexeme_seen result.0) result.1.now }
    ensures shorter { length result.1.now ≤ length text.now }
{
    match behind(b'>', text) {
        Some(rest) => (Some(Token::Arrow), rest),
        None => (Some(Token::Mark(b'-')), text),
    }
}

#[tactic(auto, using(crate::proofs::Lexemes::some_taken, crate::proofs::Lexemes::word_first))]
fn word(text: &[u8]) -> (Option<Token<'_>>, &[u8])
    requires { Begins (λ byte. IsTrue (is_name_byte byte)) text.now }
    ensures read { ReadsAs text.now between (lexeme_seen result.0) result.1.now }
    ensures shorter { length result.1.now < length text.now }
{
    let (word, rest) = text.split_at(word_length(text));
    (Some(Token::Word(word)), rest)
}

// How many name bytes stand first in a row.
#[tactic(auto, using(crate::proofs::Lexemes::word_steps))]
fn word_length(text: &[u8]) -> usize
    ensures within { result ≤ length text.now }
    ensures letters { Letters (take result text.now) }
    ensures longest { ¬ Begins (λ byte. IsTrue (is_name_byte byte)) (drop result text.now) }
{
    let mut at = 0;
    while at < text.len() {
        if !is_name_byte(text[at]) {
            return at;
        }
        at += 1;
    }
    at
}

// What stands behind the byte, where the text begins with it.
fn behind(byte: u8, text: &[u8]) -> Option<&[u8]>
    ensures { MatchOption result (¬ Begins (λ first. first ≡ byte) text.now) (λ rest. text.now ≡ byte ∷ rest.now) }
{
    let (first, rest) = text.split_first()?;
    if *first == byte { Some(rest) } else { None }
}

// Whether the byte is white space.
fn is_white(byte: u8) -> bool
    ensures { result ≡ is_white byte }
{
    matches!(byte, b' ' | b'\t'..=b'\r')
}

// Whether the byte is a token wherever it stands.
fn is_mark(byte: u8) -> bool
    ensures { result ≡ is_mark byte }
{
    matches!(
        byte,
        b'{' | b'}' | b'(' | b')' | b';' | b':' | b',' | b'*' | b'&' | b'.'
    )
}
