//! Reading a formula, a term, a domain or a machine from the lexer's tokens.

ghost use Rattle.std.specs.Prelude.{◌≡◌, ◌≤◌, ◌<◌, [], length, drop, Some, IfOk, IfErr, true, false};
ghost use Rattle.cb_engine.specs.Kinds.{kinds};
ghost use Rattle.cb_grammar.specs.Parts.{kinds_left};
ghost use Rattle.cb_grammar.specs.Misreadings.{IsRead, Misread};
ghost use Rattle.cb_grammar.specs.Signatures.{signatures};
ghost use Rattle.cb_amn_parse.specs.Formulas.{formula_out, term_out};
ghost use Rattle.cb_amn_parse.specs.Machines.{domain_out, machine_out};
ghost use Rattle.cb_amn_parse.specs.Own.{are_own};
ghost use Rattle.cb_amn_parse.specs.Spelling.{AreHeard, IsSpelled, SpellsFrom};
ghost use Rattle.cb_amn_parse.specs.Values.{stack_out, kinds_of};

use crate::evaluate::evaluate;
use crate::value::{Value, pop_domain, pop_formula, pop_machine, pop_term};
use cb_grammar::{Part, SyntaxFault, Written, read_part};
use cb_lex::raw::domain::RawDomain;
use cb_lex::raw::term::{RawFormula, RawTerm};
use cb_lex::raw::text::RawMachine;
use cb_lex::token::Token;
use std::alloc::Global;

/// Reads the part from the first token on, as `read_part` does. The words among the items that are written are tokens.
pub fn read_items(
    alloc: Global,
    tokens: &[Token],
    part: Part,
    depth: u32,
    opened: bool,
) -> Result<Written, SyntaxFault>
    requires { depth ≤ 200 }
    ensures reads { IfOk result (λ w. IsRead part depth opened tokens.now w.taken w.items.items) }
    ensures fits { IfOk result (λ w. kinds signatures w.items.items [] ≡ Some (kinds_left part)) }
    ensures heard { IfOk result (λ w. AreHeard tokens.now w.items.items) }
    ensures within { IfOk result (λ w. w.taken ≤ length tokens.now) }
    ensures fault { IfErr result (Misread part depth opened tokens.now) }
{
    let written = read_part(alloc, tokens, part, depth, opened)?;
    Ok(written)
}

// the values of the part, and how many tokens it has
fn read_values(
    alloc: Global,
    tokens: &[Token],
    part: Part,
    depth: u32,
    opened: bool,
) -> Result<(Vec<Value>, usize), SyntaxFault>
    requires some { 0 < length tokens.now }
    requires low { depth ≤ 200 }
    requires own { are_own (kinds_left part) ≡ true }
    ensures spelled { IfOk result (λ r. IsSpelled part depth opened tokens.now r.1 (stack_out r.0.items)) }
    ensures kinds { IfOk result (λ r. kinds_of r.0.items ≡ kinds_left part) }
    ensures within { IfOk result (λ r. r.1 ≤ length tokens.now) }
    ensures fault { IfErr result (Misread part depth opened tokens.now) }
{
    let written = read_items(alloc, tokens, part, depth, opened)?;
    let stack = evaluate(alloc, tokens, &written.items)?;
    Ok((stack, written.taken))
}

// the tokens from a place on
fn rest(tokens: &[Token], from: usize) -> &[Token]
    requires within { from ≤ length tokens.now }
    ensures { result.now ≡ drop from tokens.now }
{
    &tokens[from..]
}

/// Reads a formula from the token at `from` on: the longest run of tokens that begins one. The answer is the formula that
/// they spell, with the place after it; else the first fault. `depth` is the depth of nesting before the first token, and
/// `opened` says whether opened names may stand.
pub fn formula(
    alloc: Global,
    tokens: &[Token],
    from: usize,
    depth: u32,
    opened: bool,
) -> Result<(RawFormula, usize), SyntaxFault>
    requires within { from < length tokens.now }
    requires low { depth ≤ 200 }
    ensures spelled { IfOk result (λ r. SpellsFrom Part.Formula depth opened tokens.now from r.1 (formula_out r.0)) }
    ensures fault { IfErr result (Misread Part.Formula depth opened (drop from tokens.now)) }
{
    let (mut stack, taken) = read_values(alloc, rest(tokens, from), Part::Formula, depth, opened)?;
    Ok((pop_formula(&mut stack), from + taken))
}

/// Reads a term from the token at `from` on: the longest run of tokens that begins one. The answer is the term that
/// they spell, with the place after it; else the first fault. `depth` is the depth of nesting before the first token, and
/// `opened` says whether opened names may stand.
pub fn term(
    alloc: Global,
    tokens: &[Token],
    from: usize,
    depth: u32,
    opened: bool,
) -> Result<(RawTerm, usize), SyntaxFault>
    requires within { from < length tokens.now }
    requires low { depth ≤ 200 }
    ensures spelled { IfOk result (λ r. SpellsFrom Part.Term depth opened tokens.now from r.1 (term_out r.0)) }
    ensures fault { IfErr result (Misread Part.Term depth opened (drop from tokens.now)) }
{
    let (mut stack, taken) = read_values(alloc, rest(tokens, from), Part::Term, depth, opened)?;
    Ok((pop_term(&mut stack), from + taken))
}

/// Reads a domain from the token at `from` on: the longest run of tokens that begins one. The answer is the domain that
/// they spell, with the place after it; else the first fault. `depth` is the depth of nesting before the first token, and
/// `opened` says whether opened names may stand.
pub fn domain(
    alloc: Global,
    tokens: &[Token],
    from: usize,
    depth: u32,
    opened: bool,
) -> Result<(RawDomain, usize), SyntaxFault>
    requires within { from < length tokens.now }
    requires low { depth ≤ 200 }
    ensures spelled { IfOk result (λ r. SpellsFrom Part.Domain depth opened tokens.now from r.1 (domain_out r.0)) }
    ensures fault { IfErr result (Misread Part.Domain depth opened (drop from tokens.now)) }
{
    let (mut stack, taken) = read_values(alloc, rest(tokens, from), Part::Domain, depth, opened)?;
    Ok((pop_domain(&mut stack), from + taken))
}

/// Reads a machine from the token at `from` on: the longest run of tokens that begins one. The answer is the machine that
/// they spell, with the place after it; else the first fault.
pub fn machine(
    alloc: Global,
    tokens: &[Token],
    from: usize,
) -> Result<(RawMachine, usize), SyntaxFault>
    requires { from < length tokens.now }
    ensures spelled { IfOk result (λ r. SpellsFrom Part.Machine 0 false tokens.now from r.1 (machine_out r.0)) }
    ensures fault { IfErr result (Misread Part.Machine 0 false (drop from tokens.now)) }
{
    let (mut stack, taken) = read_values(alloc, rest(tokens, from), Part::Machine, 0, false)?;
    Ok((pop_machine(&mut stack), from + taken))
}
