//! From tokens to the words on the stack.

ghost use Rattle.std.specs.Prelude.{◌≡◌, ◌∷◌, [], IfOk, IfSome, IfNone, true};
ghost use Rattle.cb_engine.specs.Rules.{stands, group};
ghost use Rattle.cb_engine.specs.declared.Item.TheVariants as item;
ghost use Rattle.cb_grammar.specs.Signatures.{word_kind};
ghost use Rattle.cb_amn_parse.specs.Lexemes.{heard_at, lexeme};
ghost use Rattle.cb_amn_parse.specs.Own.{sort_kind};
ghost use Rattle.cb_amn_parse.specs.Spelling.{IsHeard};
ghost use Rattle.cb_amn_parse.specs.Values.{value_out, kind_of};
ghost use Rattle.cb_cert.specs.Own.{proof_kinds, is_formula_word};

use crate::Memory;
use cb_amn_parse::value::Value;
use cb_amn_parse::words;
use cb_grammar::Terminal;
use cb_lex::token::{Keyword, Sort, Token};
use std::alloc::Global;

// the word of a token that only names of obligations have
fn obligation_word(token: &Token) -> Option<Value>
    ensures out { IfSome result (λ v. value_out v ≡ heard_at token.now.sort token.now.place ∷ []) }
    ensures kind { IfSome result (λ v. kind_of v ≡ sort_kind token.now.sort) }
    ensures other { IfNone result (is_formula_word token.now.sort ≡ true) }
{
    match &token.sort {
        Sort::Keyword(Keyword::Start) => Some(Value::Start(token.place)),
        Sort::Keyword(Keyword::Initialisation) => Some(Value::Initialisation(token.place)),
        _ => None,
    }
}

/// The word that an item stands for.
pub fn word(alloc: Global, tokens: &[Token], terminal: Terminal) -> Result<Value, Memory>
    requires heard { IsHeard tokens.now (item.Word terminal) }
    requires own { stands proof_kinds (word_kind (group terminal.class)) ≡ true }
    ensures out { IfOk result (λ v. value_out v ≡ lexeme tokens.now (item.Word terminal) ∷ []) }
    ensures kind { IfOk result (λ v. kind_of v ≡ word_kind (group terminal.class)) }
{
    match obligation_word(&tokens[terminal.index as usize]) {
        Some(value) => Ok(value),
        None => words::word(alloc, tokens, terminal),
    }
}
