ghost use Rattle.std.specs.Prelude.{Ok, map, length, ◌≡◌, ◌≤◌};
ghost use Rattle.cyp_lex.specs.Lexemes.{lexeme_of};
ghost use Rattle.cyp_lex.specs.Lexing.{Gives, LieInOrder, tokens_of};
ghost use Rattle.cyp_spec.specs.InOrder.{IsInOrder};
ghost use Rattle.cyp_spec.specs.Small.{TextSmall};
ghost use Rattle.cyp_spec.specs.ReadSpecs.{IsReadSpec, IsSaid};
ghost use Rattle.cyp_formed.specs.Reading.{judge};
ghost use Rattle.cyp_text.specs.Stopping.{IsParsed};

use crate::limits::limit_fault;
use crate::reading::spec_of;
use crate::spec::Spec;
use cyp_lex::{Fault, FaultKind, Token, tokens};
use cyp_names::name_fault;
use cyp_term::{Fail, List};
use cyp_text::{TextTree, parse};
use std::alloc::Global;

/// The greatest number of bytes of a text.
const LONGEST: usize = 65_536;

/// What a tree says, or its least fault: that of names and sorts before that of predicates and
/// limits. Its numbers are those of tokens, and its places rise.
fn judged(alloc: Global, tree: &TextTree) -> Result<Spec, Fail<Fault>>
    requires small { TextSmall tree.now }
    requires order { IsInOrder tree.now }
    ensures { Gives result (judge tree.now) }
{
    if let Some(fault) = name_fault(alloc, tree)? {
        return Err(Fail::Named(fault));
    }
    if let Some(fault) = limit_fault(alloc, tree)? {
        return Err(Fail::Named(fault));
    }
    Ok(spec_of(alloc, tree)?)
}

/// The tree that the tokens of a text spell. Their memory is free before the tree is judged.
fn tree_of(alloc: Global, text: &[u8], tokens: List<Token>) -> Result<TextTree, Fail<Fault>>
    requires size { length text.now ≤ 65536 }
    requires in_order { LieInOrder 0 tokens (length text.now) }
    ensures { IsParsed text.now tokens result }
{
    parse(alloc, text, tokens.as_slice())
}

/// What the tokens of a text say.
fn said(alloc: Global, text: &[u8], tokens: List<Token>) -> Result<Spec, Fail<Fault>>
    requires size { length text.now ≤ 65536 }
    requires in_order { LieInOrder 0 tokens (length text.now) }
    requires exact { tokens_of text.now ≡ Ok tokens }
    ensures { IsSaid (length text.now) (map (lexeme_of text.now) tokens) result }
{
    let tree = tree_of(alloc, text, tokens)?;
    judged(alloc, &tree)
}

/// The specification that a text is read as, or the text's one fault: the least place of the first
/// pass that fails, and at one place the kind of the least number. The passes are length, tokens,
/// grammar, names and sorts, predicates and limits.
pub fn read_spec(alloc: Global, text: &[u8]) -> Result<Spec, Fail<Fault>>
    ensures { IsReadSpec text.now result }
{
    if text.len() > LONGEST {
        return Err(Fail::Named(Fault {
            kind: FaultKind::TooLong,
            place: LONGEST as u32,
        }));
    }
    let tokens = tokens(alloc, text)?;
    let mut fitted = tokens.into_vec();
    fitted.shrink_to_fit();
    said(alloc, text, List::from_vec(fitted))
}
