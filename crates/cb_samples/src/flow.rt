//! Internal choices in silence, of which 64 on a way are allowed; two senders of one channel; a controller that SYSTEM doesn't list.

use cb_csp_parse::reading::{controller, text as read_text};
use cb_flow::ends::ends_fault;
use cb_flow::lists::lists_fault;
use cb_flow::silent::silent_fault;
use cb_forms::fault::Fault;
use cb_forms::table::Table;
use cb_grammar::SyntaxFault;
use cb_judge::names::{Entry, Meaning};
use cb_lex::lexer::{LONGEST_TEXT, tokens};
use cb_lex::raw::text::RawText;
use cb_lex::token::{Place, Token};
use std::alloc::Global;
use std::process::Abort;

const BEGIN: &str = "CONTROLLER C START P PROCESSES P = a!() -> Q ; Q = STOP";

const TWO_SENDERS: &str =
    "CHANNELS a() END CONTROLLER C START P PROCESSES P = a!() -> P END CONTROLLER D START P PROCESSES P = a!() -> P END SYSTEM C END";

// A controller whose second definition has so many internal choices.
fn text_with(alloc: Global, choices: usize) -> Result<String, SyntaxFault> {
    let mut text = String::from_str(alloc, BEGIN)?;
    for _ in 0..choices {
        text.push_str(" |~| STOP")?;
    }
    text.push_str(" END")?;
    Ok(text)
}

fn tokens_of(rt: &impl Abort, alloc: Global, text: &str) -> Result<Vec<Token>, SyntaxFault> {
    assert!(rt; text.len() <= LONGEST_TEXT);
    match tokens(alloc, text.as_bytes()) {
        Ok(tokens) => Ok(tokens),
        Err(_) => Err(SyntaxFault::Memory),
    }
}

// The first fault of its ways.
fn fault_of(rt: &impl Abort, alloc: Global, choices: usize) -> Result<Option<Fault>, SyntaxFault> {
    let text = text_with(alloc, choices)?;
    let tokens = tokens_of(rt, alloc, &text)?;
    let (read, _) = controller(alloc, &tokens, 0)?;
    Ok(silent_fault(alloc, read.definitions.as_slice())?)
}

#[test]
fn choices_in_silence(rt: HostRuntime) {
    let alloc = rt.alloc();
    assert!(rt; matches!(fault_of(&rt, alloc, 64), Ok(None)));
    match fault_of(&rt, alloc, 65) {
        Ok(Some(fault)) => {
            assert_eq!(rt; fault.code, 23);
            assert_eq!(rt; (fault.place.line, fault.place.col), (1, 36));
        }
        _ => assert!(rt; false),
    }
}

fn enter(
    alloc: Global,
    names: &mut Table<Entry>,
    name: &[u8],
    meaning: Meaning,
) -> Result<(), SyntaxFault> {
    let place = Place { line: 1, col: 1 };
    names.enter(alloc, name, Entry { meaning, place })?;
    Ok(())
}

// The names of the text with two senders.
fn names_of(alloc: Global) -> Result<Table<Entry>, SyntaxFault> {
    let mut names = Table::new(alloc);
    enter(alloc, &mut names, b"a", Meaning::Channel(0))?;
    enter(alloc, &mut names, b"C", Meaning::Controller(0))?;
    enter(alloc, &mut names, b"D", Meaning::Controller(1))?;
    Ok(names)
}

fn raw_of(rt: &impl Abort, alloc: Global, text: &str) -> Result<RawText, SyntaxFault> {
    let tokens = tokens_of(rt, alloc, text)?;
    let (raw, _) = read_text(alloc, &tokens)?;
    Ok(raw)
}

// Its faults: two ends in use, an end that is missing, a list.
fn uses_of(
    rt: &impl Abort,
    alloc: Global,
) -> Result<(Option<Fault>, Option<Fault>, Option<Fault>), SyntaxFault> {
    let raw = raw_of(rt, alloc, TWO_SENDERS)?;
    let names = names_of(alloc)?;
    let (shared, missing) = ends_fault(
        alloc,
        &names,
        raw.controllers.as_slice(),
        raw.channels.as_slice(),
    )?;
    let lists = lists_fault(alloc, &names, &raw)?;
    Ok((shared, missing, lists))
}

fn is_fault(fault: Option<Fault>, code: u8, column: u32) -> bool {
    match fault {
        Some(fault) => fault.code == code && fault.place.col == column,
        None => false,
    }
}

#[test]
fn ends_and_lists(rt: HostRuntime) {
    match uses_of(&rt, rt.alloc()) {
        Ok((shared, missing, lists)) => {
            assert!(rt; is_fault(shared, 16, 102));
            assert!(rt; is_fault(missing, 17, 10));
            assert!(rt; is_fault(lists, 2, 78));
        }
        Err(fault) => assert_eq!(rt; Some(fault), None),
    }
}
