//! Reads patterns: their typedefs and prototypes.

ghost use Rattle.std.specs.Prelude.{◌≡◌, ◌++◌, Some, codes, map, option_map};
ghost use Rattle.c_tokens.specs.Gives.{Gives};
ghost use Rattle.c_tokens.specs.Parsing.{after, made, many};
ghost use Rattle.c_tokens.specs.WordParsing.{strip_end, name_before};
ghost use Rattle.c_subset.specs.View.{pattern_of, prefix_seen};
ghost use Rattle.c_subset.specs.PatternParsing.{static_at, context_run, typedef_at, parameters_at, prototype_at, prefixed_at, same_prefix, pattern_at, starts_pattern, put_first, some_patterns_at, patterns_at};

use crate::sets::arg_at;
use c_tokens::{ReadFault, Token, Tokens};
use dt_values::Name;
use std::alloc::Global;

/// Whether `static` stands first. It is read.
#[tactic(auto, unfolding(crate::specs::PatternParsing::static_at))]
pub(crate) fn static_at(tokens: &mut Tokens) -> Option<bool>
    ensures { option_map (λ s. (s, tokens.new)) result ≡ static_at tokens.old }
{
    if tokens.begins(&[Token::Word(b"static")]) {
        tokens.take(&[Token::Word(b"static")])?;
        Some(true)
    } else {
        Some(false)
    }
}

/// Takes `(DisasContext *ctx,`.
pub(crate) fn take_context(tokens: &mut Tokens) -> Option<()>
    ensures { option_map (λ _. tokens.new) result ≡ after context_run tokens.old }
{
    tokens.take(&[
        Token::Mark(b'('),
        Token::Word(b"DisasContext"),
        Token::Mark(b'*'),
        Token::Word(b"ctx"),
        Token::Mark(b','),
    ])
}

// The pattern of a typedef: its name and its set.
#[tactic(auto, unfolding(crate::specs::PatternParsing::typedef_at))]
fn typedef_at(tokens: &mut Tokens) -> Option<(Name, Name)>
    ensures { option_map (λ p. (pattern_of p, tokens.new)) result ≡ typedef_at tokens.old }
{
    tokens.take(&[Token::Word(b"typedef")])?;
    let set = arg_at(tokens)?;
    let name = arg_at(tokens)?;
    tokens.take(&[Token::Mark(b';')])?;
    Some((name, set))
}

// The name of the struct that a prototype's second parameter points to.
#[tactic(auto, unfolding(crate::specs::PatternParsing::parameters_at))]
fn parameters_at(tokens: &mut Tokens) -> Option<Name>
    ensures { option_map (λ s. (s, tokens.new)) result ≡ parameters_at tokens.old }
{
    take_context(tokens)?;
    let set = arg_at(tokens)?;
    tokens.take(&[
        Token::Mark(b'*'),
        Token::Word(b"a"),
        Token::Mark(b')'),
        Token::Mark(b';'),
    ])?;
    Some(set)
}

// What stands before these bytes at the end of a word.
#[tactic(auto, unfolding(c_tokens::specs::WordParsing::strip_end))]
fn strip_end<'a>(end: &[u8], word: &'a [u8]) -> Option<&'a [u8]>
    ensures { option_map (λ front. front.now) result ≡ strip_end end.now word.now }
{
    word.strip_suffix(end)
}

// The name before `_` and the pattern's name in the word of its function.
#[tactic(auto, using(crate::proofs::PatternsRead::before_underscore))]
fn name_before(name: &Name, word: &[u8]) -> Option<Name>
    ensures { result ≡ name_before (codes "_" ++ name.now) word.now }
{
    Name::from_bytes(strip_end(b"_", strip_end(name.bytes(), word)?)?)
}

// The prefix in the prototype of the pattern with this name, and whether the prototype is static.
#[tactic(auto, unfolding(crate::specs::PatternParsing::prototype_at))]
fn prototype_at(name: &Name, tokens: &mut Tokens) -> Option<(Name, bool)>
    ensures { option_map (λ p. (prefix_seen p, tokens.new)) result ≡ prototype_at name.now tokens.old }
{
    let is_static = static_at(tokens)?;
    tokens.take(&[Token::Word(b"bool")])?;
    let prefix = name_before(name, tokens.word()?)?;
    let struct_name = parameters_at(tokens)?;
    if *name == struct_name {
        Some((prefix, is_static))
    } else {
        None
    }
}

// A pattern, and the prefix in its prototype.
#[tactic(auto, unfolding(crate::specs::PatternParsing::prefixed_at))]
fn prefixed_at(tokens: &mut Tokens) -> Option<((Name, Name), (Name, bool))>
    ensures { option_map (λ x. ((pattern_of x.0, prefix_seen x.1), tokens.new)) result ≡ prefixed_at tokens.old }
{
    let (name, set) = typedef_at(tokens)?;
    let prefix = prototype_at(&name, tokens)?;
    Some(((name, set), prefix))
}

fn same_prefix(one: &(Name, bool), other: &(Name, bool)) -> bool
    ensures { result ≡ same_prefix (prefix_seen one.now) (prefix_seen other.now) }
{
    one.1 == other.1 && one.0 == other.0
}

// A pattern whose prototype has this prefix.
#[tactic(auto, unfolding(crate::specs::PatternParsing::pattern_at))]
fn pattern_at(prefix: &(Name, bool), tokens: &mut Tokens) -> Result<(Name, Name), ReadFault>
    ensures { Gives (λ p. (pattern_of p, tokens.new)) result (pattern_at (prefix_seen prefix.now) tokens.old) }
{
    let (pattern, own_prefix) = prefixed_at(tokens).ok_or(ReadFault::NotSubset)?;
    if same_prefix(prefix, &own_prefix) {
        Ok(pattern)
    } else {
        Err(ReadFault::NotSubset)
    }
}

#[tactic(auto, unfolding(crate::specs::PatternParsing::starts_pattern))]
fn starts_pattern(tokens: &Tokens) -> bool
    ensures { result ≡ starts_pattern tokens.now }
{
    tokens.begins(&[Token::Word(b"typedef")])
}

// The first pattern, and those that stand behind it, which have its prefix.
fn patterns_behind(
    alloc: Global,
    first: (Name, Name),
    prefix: &(Name, bool),
    tokens: &mut Tokens,
) -> Result<Vec<(Name, Name)>, ReadFault>
    ensures { Gives (λ ps. (map pattern_of ps.items, tokens.new)) result
        (made (put_first (pattern_of first)) (many starts_pattern (pattern_at (prefix_seen prefix.now))) tokens.old) }
{
    let mut patterns = Vec::new(alloc);
    patterns.push(first)?;
    'more: while starts_pattern(tokens) {
        patterns.push(pattern_at(prefix, tokens)?)?;
    }
    Ok(patterns)
}

// Patterns, of which there is at least one, with their prefix.
#[tactic(auto, unfolding(crate::specs::PatternParsing::some_patterns_at))]
fn some_patterns_at(
    alloc: Global,
    tokens: &mut Tokens,
) -> Result<((Name, bool), Vec<(Name, Name)>), ReadFault>
    ensures { Gives (λ x. ((Some (prefix_seen x.0), map pattern_of x.1.items), tokens.new)) result
        (some_patterns_at tokens.old) }
{
    let (first, prefix) = prefixed_at(tokens).ok_or(ReadFault::NotSubset)?;
    let patterns = patterns_behind(alloc, first, &prefix, tokens)?;
    Ok((prefix, patterns))
}

/// The patterns that stand first, each with its set, and their prefix, where a pattern is.
#[tactic(auto, unfolding(crate::specs::PatternParsing::patterns_at))]
pub(crate) fn patterns_at(
    alloc: Global,
    tokens: &mut Tokens,
) -> Result<(Option<(Name, bool)>, Vec<(Name, Name)>), ReadFault>
    ensures { Gives (λ x. ((option_map prefix_seen x.0, map pattern_of x.1.items), tokens.new)) result
        (patterns_at tokens.old) }
{
    if !starts_pattern(tokens) {
        return Ok((None, Vec::new(alloc)));
    }
    let (prefix, patterns) = some_patterns_at(alloc, tokens)?;
    Ok((Some(prefix), patterns))
}
