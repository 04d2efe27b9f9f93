//! Machines and proofs are printed as they are written, with a blank behind each token.

use cb_amn_parse::machine;
use cb_amn_print::print_machine;
use cb_cert::proofs;
use cb_cert_print::print_proof;
use cb_grammar::SyntaxFault;
use cb_lex::lexer::{LONGEST_TEXT, tokens};
use cb_lex::raw::proof::RawProof;
use cb_lex::raw::text::RawMachine;
use sqlite_items::Items;
use std::alloc::Global;
use std::process::Abort;

const BOX: &str =
    "MACHINE Box VARIABLES n INVARIANT n : 0 .. 9 INITIALISATION n := 0 OPERATIONS add ( k ) = PRE k : 1 .. 9 & n + k <= 9 THEN n := n + k END ; r <-- take = PRE n > 0 THEN r := n || n := 0 END END ";

const ROOMS: &str =
    "MACHINE Rooms SETS ROOM = { r1 , r2 , r3 } VARIABLES busy INVARIANT busy <: ROOM & card ( busy ) <= 2 INITIALISATION busy := { } OPERATIONS book ( x ) = PRE x : ROOM & x /: busy & card ( busy ) < 2 THEN busy := busy \\/ { x } END ; leave ( x ) = PRE x : ROOM & x : busy THEN busy := busy - { x } END END ";

const PROOFS: &str =
    "PROOF INIT : Box : 1 EVAL END PROOF OP : Box : add : 2 CUT [ ! x#1 . ( x#1 : 0 .. 9 => x#1 <= 9 ) ] ( ALLR ( IMPR ( LIN [ 1 * 2 , 2 * - 3 ] ) ) , ALLL 3 [ n + k ] ( HYP 4 ) ) END ";

fn machine_of(rt: &impl Abort, alloc: Global, text: &str) -> Result<RawMachine, SyntaxFault> {
    assert!(rt; text.len() <= LONGEST_TEXT);
    match tokens(alloc, text.as_bytes()) {
        Ok(tokens) => {
            assert!(rt; !tokens.is_empty());
            Ok(machine(alloc, &tokens, 0)?.0)
        }
        Err(_) => Err(SyntaxFault::Memory),
    }
}

// What is printed of the machine of the text.
fn printed(rt: &impl Abort, alloc: Global, text: &str) -> Result<Vec<u8>, SyntaxFault> {
    let bytes = {
        let machine = machine_of(rt, alloc, text)?;
        print_machine(alloc, &machine)
    };
    Ok(bytes?)
}

fn proofs_of(rt: &impl Abort, alloc: Global, text: &str) -> Result<Items<RawProof>, SyntaxFault> {
    assert!(rt; text.len() <= LONGEST_TEXT);
    match tokens(alloc, text.as_bytes()) {
        Ok(tokens) => Ok(proofs(alloc, &tokens, 0)?.0),
        Err(_) => Err(SyntaxFault::Memory),
    }
}

fn add_printed(alloc: Global, proof: &RawProof, into: &mut Vec<u8>) -> Result<(), SyntaxFault> {
    let printed = print_proof(alloc, proof)?;
    into.extend_from_slice(printed.as_slice())?;
    Ok(())
}

// What is printed of the proofs, one behind another.
fn printed_proofs(alloc: Global, proofs: &[RawProof]) -> Result<Vec<u8>, SyntaxFault> {
    let mut out = Vec::new(alloc);
    for proof in proofs {
        add_printed(alloc, proof, &mut out)?;
    }
    Ok(out)
}

fn proofs_again(rt: &impl Abort, alloc: Global, text: &str) -> Result<Vec<u8>, SyntaxFault> {
    let proofs = proofs_of(rt, alloc, text)?;
    printed_proofs(alloc, proofs.as_slice())
}

#[test]
fn prints_proofs_that_are_read(rt: HostRuntime) {
    match proofs_again(&rt, rt.alloc(), PROOFS) {
        Ok(bytes) => assert_eq!(rt; bytes.as_slice(), PROOFS.as_bytes()),
        Err(fault) => assert_eq!(rt; Some(fault), None),
    }
}

#[test]
fn prints_what_is_read(rt: HostRuntime) {
    for text in [BOX, ROOMS] {
        match printed(&rt, rt.alloc(), text) {
            Ok(bytes) => assert_eq!(rt; bytes.as_slice(), text.as_bytes()),
            Err(fault) => assert_eq!(rt; Some(fault), None),
        }
    }
}
