//! Each part of a text is read by its own call, up to the first token that can't go on, and formulas and terms are printed again.

use cb_amn_parse::{domain, formula, term};
use cb_amn_print::{print_formula, print_term};
use cb_csp_parse::reading::{channels, controller};
use cb_grammar::SyntaxFault;
use cb_lex::lexer::{LONGEST_TEXT, tokens};
use cb_lex::token::Token;
use std::alloc::Global;
use std::process::Abort;

const CHANNELS: &str = "CHANNELS coin(k) WHERE k : 1 .. 9 ; back(q) WHERE q : 0 .. 9 END";

const TILL: &str =
    "CONTROLLER Till MACHINES Box START Idle PROCESSES Idle = coin?(k) -> Box.add!(k) -> Idle END";

fn tokens_of(rt: &impl Abort, alloc: Global, text: &str) -> Result<Vec<Token>, SyntaxFault> {
    assert!(rt; text.len() <= LONGEST_TEXT);
    match tokens(alloc, text.as_bytes()) {
        Ok(tokens) => Ok(tokens),
        Err(_) => Err(SyntaxFault::Memory),
    }
}

fn formula_again(rt: &impl Abort, alloc: Global, text: &str) -> Result<Vec<u8>, SyntaxFault> {
    let tokens = tokens_of(rt, alloc, text)?;
    assert!(rt; !tokens.is_empty());
    let (raw, _) = formula(alloc, &tokens, 0, 0, false)?;
    Ok(print_formula(alloc, &raw)?)
}

fn term_again(rt: &impl Abort, alloc: Global, text: &str) -> Result<Vec<u8>, SyntaxFault> {
    let tokens = tokens_of(rt, alloc, text)?;
    assert!(rt; !tokens.is_empty());
    let (raw, _) = term(alloc, &tokens, 0, 0, false)?;
    Ok(print_term(alloc, &raw)?)
}

// How many tokens of the text are a domain.
fn domain_tokens(rt: &impl Abort, alloc: Global, text: &str) -> Result<usize, SyntaxFault> {
    let tokens = tokens_of(rt, alloc, text)?;
    assert!(rt; !tokens.is_empty());
    let (_raw, taken) = domain(alloc, &tokens, 0, 0, false)?;
    Ok(taken)
}

// How many channels the text declares.
fn channels_read(rt: &impl Abort, alloc: Global, text: &str) -> Result<usize, SyntaxFault> {
    let tokens = tokens_of(rt, alloc, text)?;
    let (read, _) = channels(alloc, &tokens, 0)?;
    Ok(read.len())
}

// How many definitions and machines the controller of the text has.
fn controller_read(rt: &impl Abort, alloc: Global, text: &str) -> Result<usize, SyntaxFault> {
    let tokens = tokens_of(rt, alloc, text)?;
    let (read, _) = controller(alloc, &tokens, 0)?;
    Ok(read.definitions.len() + read.machines.len())
}

#[test]
fn parts_are_read_alone(rt: HostRuntime) {
    let alloc = rt.alloc();
    for text in [
        "n : 0 .. 9 & n + k <= 9 ",
        "! x . ( x : 0 .. 3 => x /= n or bfalse ) ",
    ] {
        match formula_again(&rt, alloc, text) {
            Ok(bytes) => assert_eq!(rt; bytes.as_slice(), text.as_bytes()),
            Err(fault) => assert_eq!(rt; Some(fault), None),
        }
    }
    match term_again(&rt, alloc, "n + k ") {
        Ok(bytes) => assert_eq!(rt; bytes.as_slice(), b"n + k ".as_slice()),
        Err(fault) => assert_eq!(rt; Some(fault), None),
    }
    assert!(rt; matches!(domain_tokens(&rt, alloc, "0 .. 9 & n = 1"), Ok(3)));
    assert!(rt; matches!(channels_read(&rt, alloc, CHANNELS), Ok(2)));
    assert!(rt; matches!(controller_read(&rt, alloc, TILL), Ok(2)));
}
