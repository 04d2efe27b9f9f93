//! From tokens to the words on the stack.

ghost use Rattle.std.specs.Prelude.{◌≡◌, ◌∷◌, [], true, IfOk};
ghost use Rattle.cb_engine.specs.Rules.{group};
ghost use Rattle.cb_engine.specs.declared.Item.TheVariants as item;
ghost use Rattle.cb_grammar.specs.Signatures.{word_kind};
ghost use Rattle.cb_amn_parse.specs.Lexemes.{heard_at, lexeme};
ghost use Rattle.cb_amn_parse.specs.Own.{sort_kind};
ghost use Rattle.cb_amn_parse.specs.Spelling.{IsHeard};
ghost use Rattle.cb_amn_parse.specs.Values.{value_out, kind_of};
ghost use Rattle.cb_csp_parse.specs.TextKinds.{is_process_word, IsTextWord};

use crate::Memory;
use cb_amn_parse::value::Value;
use cb_amn_parse::words;
use cb_grammar::Terminal;
use cb_lex::token::{Keyword, Sort, Token};
use std::alloc::Global;

// whether a token is a word of processes
fn is_process_word(sort: &Sort) -> bool
    ensures { result ≡ is_process_word sort.now }
{
    matches!(
        sort,
        Sort::Keyword(Keyword::Stop | Keyword::SkipProcess | Keyword::If)
    )
}

// the word of processes that a token is
fn process_word(token: &Token) -> Value
    requires own { is_process_word token.now.sort ≡ true }
    ensures out { value_out result ≡ heard_at token.now.sort token.now.place ∷ [] }
    ensures kind { kind_of result ≡ sort_kind token.now.sort }
{
    match &token.sort {
        Sort::Keyword(Keyword::Stop) => Value::Stop(token.place),
        Sort::Keyword(Keyword::SkipProcess) => Value::Skip(token.place),
        Sort::Keyword(Keyword::If) => Value::If(token.place),
        _ => unreachable!(),
    }
}

/// The word that an item stands for.
pub fn word(alloc: Global, tokens: &[Token], terminal: Terminal) -> Result<Value, Memory>
    requires heard { IsHeard tokens.now (item.Word terminal) }
    requires own { IsTextWord terminal.class }
    ensures out { IfOk result (λ v. value_out v ≡ lexeme tokens.now (item.Word terminal) ∷ []) }
    ensures kind { IfOk result (λ v. kind_of v ≡ word_kind (group terminal.class)) }
{
    let token = &tokens[terminal.index as usize];
    if is_process_word(&token.sort) {
        Ok(process_word(token))
    } else {
        words::word(alloc, tokens, terminal)
    }
}
