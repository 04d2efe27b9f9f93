//! Reading a text, its channels or a controller from the lexer's tokens.

ghost use Rattle.std.specs.Prelude.{◌≡◌, ◌≤◌, ◌<◌, ◌+◌, length, drop, IfOk, IfErr, true, false};
ghost use Rattle.cb_grammar.specs.Parts.{kinds_left};
ghost use Rattle.cb_grammar.specs.Misreadings.{Misread};
ghost use Rattle.cb_amn_parse.specs.Processes.{text_out, channels_out, controller_out};
ghost use Rattle.cb_amn_parse.specs.Spelling.{IsSpelled, SpellsFrom};
ghost use Rattle.cb_amn_parse.specs.Values.{stack_out, kinds_of};
ghost use Rattle.cb_csp_parse.specs.TextKinds.{are_of_texts};
ghost use Rattle.cb_csp_parse.specs.Laws.{StandsAlone};

use crate::evaluate::evaluate;
use crate::pops::{pop_channels, pop_controller, pop_text};
use cb_amn_parse::value::Value;
use cb_grammar::{Part, SyntaxFault, read_part};
use cb_lex::raw::text::{RawChannel, RawController, RawText};
use cb_lex::token::Token;
use sqlite_items::Items;
use std::alloc::Global;

// the values of the part, and how many tokens it has
fn read_values(
    alloc: Global,
    tokens: &[Token],
    part: Part,
) -> Result<(Vec<Value>, usize), SyntaxFault>
    requires own { are_of_texts (kinds_left part) ≡ true }
    ensures spelled { IfOk result (λ r. IsSpelled part 0 false tokens.now r.1 (stack_out r.0.items)) }
    ensures kinds { IfOk result (λ r. kinds_of r.0.items ≡ kinds_left part) }
    ensures within { IfOk result (λ r. r.1 ≤ length tokens.now) }
    ensures fault { IfErr result (Misread part 0 false tokens.now) }
{
    let written = read_part(alloc, tokens, part, 0, false)?;
    let stack = evaluate(alloc, tokens, &written.items)?;
    Ok((stack, written.taken))
}

// the tokens from a place on
fn rest(tokens: &[Token], from: usize) -> &[Token]
    requires within { from ≤ length tokens.now }
    ensures { result.now ≡ drop from tokens.now }
{
    &tokens[from..]
}

// the same text, which has nothing but machines where no order is written
fn settled(alloc: Global, text: RawText) -> RawText
    ensures same { text_out result ≡ text_out text }
    ensures alone { StandsAlone result }
{
    let RawText {
        machines,
        channels,
        controllers,
        order,
    } = text;
    match order {
        Some(order) => RawText {
            machines,
            channels,
            controllers,
            order: Some(order),
        },
        None => RawText {
            machines,
            channels: Items::new(alloc),
            controllers: Items::new(alloc),
            order: None,
        },
    }
}

/// Reads a text without its proofs from the first token on, together with the token after it, which is the first `PROOF` or
/// the end. The answer is the text that they spell, with the place of that token; else the first fault.
pub fn text(alloc: Global, tokens: &[Token]) -> Result<(RawText, usize), SyntaxFault>
    ensures spelled { IfOk result (λ r. SpellsFrom Part.Text 0 false tokens.now 0 (r.1 + 1) (text_out r.0)) }
    ensures alone { IfOk result (λ r. StandsAlone r.0) }
    ensures within { IfOk result (λ r. r.1 < length tokens.now) }
    ensures fault { IfErr result (Misread Part.Text 0 false tokens.now) }
{
    let (mut stack, taken) = read_values(alloc, tokens, Part::Text)?;
    let text = settled(alloc, pop_text(&mut stack));
    Ok((text, taken - 1))
}

/// Reads the channels that CHANNELS declares from the token at `from` on: the longest run of tokens that begins them. The
/// answer is the channels that they spell, with the place after them; else the first fault.
pub fn channels(
    alloc: Global,
    tokens: &[Token],
    from: usize,
) -> Result<(Items<RawChannel>, usize), SyntaxFault>
    requires { from ≤ length tokens.now }
    ensures spelled { IfOk result (λ r. SpellsFrom Part.Channels 0 false tokens.now from r.1 (channels_out r.0)) }
    ensures fault { IfErr result (Misread Part.Channels 0 false (drop from tokens.now)) }
{
    let (mut stack, taken) = read_values(alloc, rest(tokens, from), Part::Channels)?;
    Ok((pop_channels(&mut stack), from + taken))
}

/// Reads a controller from the token at `from` on: the longest run of tokens that begins one. The answer is the controller
/// that they spell, with the place after it; else the first fault.
pub fn controller(
    alloc: Global,
    tokens: &[Token],
    from: usize,
) -> Result<(RawController, usize), SyntaxFault>
    requires { from ≤ length tokens.now }
    ensures spelled { IfOk result (λ r. SpellsFrom Part.Controller 0 false tokens.now from r.1 (controller_out r.0)) }
    ensures fault { IfErr result (Misread Part.Controller 0 false (drop from tokens.now)) }
{
    let (mut stack, taken) = read_values(alloc, rest(tokens, from), Part::Controller)?;
    Ok((pop_controller(&mut stack), from + taken))
}
