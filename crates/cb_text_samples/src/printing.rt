//! Whole texts are printed as they are written, with a blank behind each token.

use cb_csp_parse::reading::text as read_text;
use cb_grammar::SyntaxFault;
use cb_lex::lexer::{LONGEST_TEXT, tokens};
use cb_lex::raw::text::RawText;
use cb_text_print::print_text;
use std::alloc::Global;
use std::process::Abort;

const PAIR: &str =
    "MACHINE M VARIABLES n INVARIANT n : 0 .. 9 INITIALISATION n := 0 OPERATIONS o ( k ) = PRE k : 0 .. 9 THEN n := k END END CHANNELS c ( v , w ) WHERE v : 0 .. 9 & w : BOOL ; d ( ) END CONTROLLER A MACHINES M START P ( 1 ) PROCESSES P ( k : 0 .. 9 ) INV ( n <= k ) = c ? ( x , y ) { x < 9 } -> M . o ! ( x ) -> P ( x ) [] d ? ( ) -> SKIP END CONTROLLER B START Q PROCESSES Q = c ! ( 1 , TRUE ) { v = 1 } -> IF 0 = 0 THEN R ELSE STOP END ; R = d ! ( ) -> SKIP |~| STOP END SYSTEM A , B END ";

fn text_of(rt: &impl Abort, alloc: Global, text: &str) -> Result<RawText, SyntaxFault> {
    assert!(rt; text.len() <= LONGEST_TEXT);
    match tokens(alloc, text.as_bytes()) {
        Ok(tokens) => Ok(read_text(alloc, &tokens)?.0),
        Err(_) => Err(SyntaxFault::Memory),
    }
}

// What is printed of the text.
fn text_again(rt: &impl Abort, alloc: Global, text: &str) -> Result<Vec<u8>, SyntaxFault> {
    let bytes = {
        let raw = text_of(rt, alloc, text)?;
        print_text(alloc, &raw)
    };
    Ok(bytes?)
}

#[test]
fn prints_whole_texts(rt: HostRuntime) {
    match text_again(&rt, rt.alloc(), PAIR) {
        Ok(bytes) => assert_eq!(rt; bytes.as_slice(), PAIR.as_bytes()),
        Err(fault) => assert_eq!(rt; Some(fault), None),
    }
}
