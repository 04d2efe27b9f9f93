//! Reading the proofs of a text from the lexer's tokens.

ghost use Rattle.std.specs.Prelude.{◌≡◌, ◌≤◌, length, drop, IfOk, IfErr, true};
ghost use Rattle.cb_grammar.specs.Parts.{kinds_left};
ghost use Rattle.cb_grammar.specs.Misreadings.{Misread};
ghost use Rattle.cb_amn_parse.specs.Proofs.{proofs_out};
ghost use Rattle.cb_amn_parse.specs.Spelling.{IsSpelled, SpellsFrom};
ghost use Rattle.cb_amn_parse.specs.Values.{stack_out, kinds_of};

use crate::evaluate::evaluate_proofs;
use crate::value::pop_proofs;
use cb_amn_parse::reading::read_items;
use cb_amn_parse::value::Value;
use cb_grammar::{Part, SyntaxFault};
use cb_lex::raw::proof::RawProofs;
use cb_lex::token::Token;
use std::alloc::Global;

// the value of all proofs, and how many tokens they have
fn read_values(alloc: Global, tokens: &[Token]) -> Result<(Vec<Value>, usize), SyntaxFault>
    ensures spelled { IfOk result (λ r. IsSpelled Part.Proofs 0 true tokens.now r.1 (stack_out r.0.items)) }
    ensures kinds { IfOk result (λ r. kinds_of r.0.items ≡ kinds_left Part.Proofs) }
    ensures within { IfOk result (λ r. r.1 ≤ length tokens.now) }
    ensures fault { IfErr result (Misread Part.Proofs 0 true tokens.now) }
{
    let written = read_items(alloc, tokens, Part::Proofs, 0, true)?;
    let stack = evaluate_proofs(alloc, tokens, &written.items)?;
    Ok((stack, written.taken))
}

// the tokens from a place on
fn rest(tokens: &[Token], from: usize) -> &[Token]
    requires within { from ≤ length tokens.now }
    ensures { result.now ≡ drop from tokens.now }
{
    &tokens[from..]
}

/// Reads proofs from the token at `from` on, up to the end of the text. The answer is the proofs that the tokens spell,
/// with the place after the last token; else the first fault. Opened names may stand.
pub fn proofs(
    alloc: Global,
    tokens: &[Token],
    from: usize,
) -> Result<(RawProofs, usize), SyntaxFault>
    requires within { from ≤ length tokens.now }
    ensures spelled { IfOk result (λ r. SpellsFrom Part.Proofs 0 true tokens.now from r.1 (proofs_out r.0)) }
    ensures fault { IfErr result (Misread Part.Proofs 0 true (drop from tokens.now)) }
{
    let (mut stack, taken) = read_values(alloc, rest(tokens, from))?;
    Ok((pop_proofs(&mut stack), from + taken))
}
