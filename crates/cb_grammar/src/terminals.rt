//! From the lexer's tokens to those of the grammar.

ghost use Rattle.std.specs.Prelude.{◌≡◌, IfOk};
ghost use Rattle.cb_grammar.specs.Terminals.{word_class, has_two_capitals, opened_class, class_of, opens, terminals};

use crate::Memory;
use crate::classes::{WORD_COUNT, class_of_keyword, class_of_sign, word_at};
use cb_engine::Terminal;
use cb_lex::token::{Keyword, Sort, Token};
use std::alloc::{AllocError, Global};

// whether the text begins with two capitals, as each word with a class of its own does
fn begins_with_capitals(text: &[u8]) -> bool
    ensures { result ≡ has_two_capitals text.now }
{
    text.len() >= 2 && text[0].is_ascii_uppercase() && text[1].is_ascii_uppercase()
}

// the class of a written name
fn class_of_word(text: &[u8]) -> u8
    ensures { result ≡ word_class text.now }
{
    if !begins_with_capitals(text) {
        return 1;
    }
    for number in 0..WORD_COUNT {
        if text == word_at(number) {
            return 128 + number as u8;
        }
    }
    1
}

// the class of an opened name
fn class_of_opened(opened: bool) -> u8
    ensures { result ≡ opened_class opened }
{
    if opened { 1 } else { 119 }
}

// the class of a token, where opened names may stand or not
fn class_of_sort(sort: &Sort, opened: bool) -> u8
    ensures { result ≡ class_of opened sort.now }
{
    match sort {
        Sort::Word(text) => class_of_word(text.as_slice()),
        Sort::Opened { .. } => class_of_opened(opened),
        Sort::Number(_) => 2,
        Sort::Keyword(keyword) => class_of_keyword(*keyword),
        Sort::Sign(sign) => class_of_sign(*sign),
        Sort::Finish => 3,
    }
}

// whether opened names may stand behind the token
fn is_opening(sort: &Sort, opened: bool) -> bool
    ensures { result ≡ opens opened sort.now }
{
    opened || matches!(sort, Sort::Keyword(Keyword::Proof))
}

/// The tokens as the grammar sees them. Opened names may stand from the first on where `opened` says so, and else
/// behind the first PROOF. An error is want of memory; more tokens than a `u32` can number are one, too.
pub fn classes(alloc: Global, tokens: &[Token], opened: bool) -> Result<Vec<Terminal>, Memory>
    ensures { IfOk result (λ made. made.items ≡ terminals opened 0 tokens.now) }
{
    let mut made = Vec::with_capacity(alloc, tokens.len())?;
    let mut opened = opened;
    for (i, token) in tokens.iter().enumerate() {
        let Ok(index) = u32::try_from(i) else {
            return Err(AllocError);
        };
        made.push(Terminal {
            class: class_of_sort(&token.sort, opened),
            index,
        })?;
        opened = is_opening(&token.sort, opened);
    }
    Ok(made)
}
