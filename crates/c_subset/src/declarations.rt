//! Reads all that stands before the decoder's body.

ghost use Rattle.std.specs.Prelude.{◌≡◌};
ghost use Rattle.c_tokens.specs.Gives.{Gives};
ghost use Rattle.c_subset.specs.DeclarationParsing.{declared_at};
ghost use Rattle.c_subset.specs.DeclarationViews.{declared_seen};

use crate::extracts::extracts_at;
use crate::patterns::patterns_at;
use crate::program::{ExtractList, PatternList, SetList};
use crate::sets::sets_at;
use c_tokens::{ReadFault, Tokens};
use dt_values::{Name, Width};
use std::alloc::Global;

/// What is declared before the decoder's body, as the program's fields of these names say it.
#[derive(Drop)]
pub(crate) struct Declared {
    pub sets: SetList,
    pub prefix: Option<(Name, bool)>,
    pub patterns: PatternList,
    pub extracts: ExtractList,
    pub decoder: Name,
    pub decoder_static: bool,
    pub width: Width,
}

/// The declarations that stand first: sets, patterns, extractions and the decoder's head.
#[tactic(auto, unfolding(crate::specs::DeclarationParsing::declared_at))]
pub(crate) fn declared_at(alloc: Global, tokens: &mut Tokens) -> Result<Declared, ReadFault>
    ensures { Gives (λ d. (declared_seen d, tokens.new)) result (declared_at tokens.old) }
{
    let sets = sets_at(alloc, tokens)?;
    let (prefix, patterns) = patterns_at(alloc, tokens)?;
    let (extracts, head) = extracts_at(alloc, tokens)?;
    Ok(Declared {
        sets: SetList::of(sets),
        prefix,
        patterns: PatternList::of(patterns),
        extracts: ExtractList::of(extracts),
        decoder: head.decoder,
        decoder_static: head.is_static,
        width: head.width,
    })
}
