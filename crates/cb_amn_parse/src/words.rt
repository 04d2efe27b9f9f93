//! From tokens to the words on the stack.

ghost use Rattle.std.specs.Prelude.{◌≡◌, ◌∷◌, [], IfOk, true, false, slice_get, Some};
ghost use Rattle.cb_lex.specs.declared.token.Sort.TheVariants as sort;
ghost use Rattle.cb_engine.specs.Rules.{stands, group};
ghost use Rattle.cb_engine.specs.declared.Item.TheVariants as item;
ghost use Rattle.cb_grammar.specs.Signatures.{word_kind, name_kind};
ghost use Rattle.cb_amn_parse.specs.Lexemes.{Named, Said, heard_at, lexeme};
ghost use Rattle.cb_amn_parse.specs.Own.{own_kinds, sort_kind, IsOwnSort};
ghost use Rattle.cb_amn_parse.specs.Spelling.{IsHeard};
ghost use Rattle.cb_amn_parse.specs.Values.{value_out, kind_of};

use crate::Memory;
use crate::value::{Limit, SetWord, Value};
use cb_grammar::Terminal;
use cb_lex::bytes::Bytes;
use cb_lex::raw::name::RawName;
use cb_lex::raw::sign::{RawOperator, RawRelation};
use cb_lex::token::{Keyword, Place, Sign, Sort, Token};
use std::alloc::Global;

// a name with its number
fn name(alloc: Global, text: &Bytes, number: u32, place: Place) -> Result<Value, Memory>
    ensures out { IfOk result (λ v. value_out v ≡ Named (record { text = text.now; number = number; place = place }) ∷ []) }
    ensures kind { IfOk result (λ v. kind_of v ≡ name_kind) }
{
    Ok(Value::Name(RawName {
        text: Bytes::from_slice(alloc, text.as_slice())?,
        number,
        place,
    }))
}

// a keyword that may be a word here
fn keyword(keyword: Keyword, place: Place) -> Value
    requires own { IsOwnSort (sort.Keyword keyword) }
    ensures out { value_out result ≡ Said (sort.Keyword keyword) place ∷ [] }
    ensures kind { kind_of result ≡ sort_kind (sort.Keyword keyword) }
{
    match keyword {
        Keyword::True => Value::Truth(true, place),
        Keyword::False => Value::Truth(false, place),
        Keyword::MaxInt => Value::Limit(Limit::MaxInt, place),
        Keyword::MinInt => Value::Limit(Limit::MinInt, place),
        Keyword::Nat => Value::SetWord(SetWord::Nat, place),
        Keyword::Nat1 => Value::SetWord(SetWord::Nat1, place),
        Keyword::Int => Value::SetWord(SetWord::Int, place),
        Keyword::Truths => Value::SetWord(SetWord::Truths, place),
        Keyword::Mod => Value::Operator(RawOperator::Mod, place),
        Keyword::Card => Value::Card(place),
        Keyword::Bool => Value::Bool(place),
        _ => unreachable!(),
    }
}

// a sign that may be a word here
fn sign(sign: Sign, place: Place) -> Value
    requires own { IsOwnSort (sort.Sign sign) }
    ensures out { value_out result ≡ Said (sort.Sign sign) place ∷ [] }
    ensures kind { kind_of result ≡ sort_kind (sort.Sign sign) }
{
    match sign {
        Sign::Equal => Value::Relation(RawRelation::Equal, place),
        Sign::Unequal => Value::Relation(RawRelation::Unequal, place),
        Sign::Less => Value::Relation(RawRelation::Less, place),
        Sign::AtMost => Value::Relation(RawRelation::AtMost, place),
        Sign::Greater => Value::Relation(RawRelation::Greater, place),
        Sign::AtLeast => Value::Relation(RawRelation::AtLeast, place),
        Sign::Member => Value::Relation(RawRelation::Member, place),
        Sign::NotMember => Value::Relation(RawRelation::NotMember, place),
        Sign::Subset => Value::Relation(RawRelation::Subset, place),
        Sign::Plus => Value::Operator(RawOperator::Plus, place),
        Sign::Minus => Value::Operator(RawOperator::Minus, place),
        Sign::Times => Value::Operator(RawOperator::Times, place),
        Sign::Divide => Value::Operator(RawOperator::Divide, place),
        Sign::UpTo => Value::Operator(RawOperator::UpTo, place),
        Sign::Union => Value::Operator(RawOperator::Union, place),
        Sign::Intersection => Value::Operator(RawOperator::Intersection, place),
        Sign::OpenBrace => Value::Brace(place),
        _ => unreachable!(),
    }
}

// the word of a token
#[tactic(auto, using(crate::proofs::Hearing::word_is_name))]
fn word_of(alloc: Global, token: &Token) -> Result<Value, Memory>
    requires own { IsOwnSort token.now.sort }
    ensures out { IfOk result (λ v. value_out v ≡ heard_at token.now.sort token.now.place ∷ []) }
    ensures kind { IfOk result (λ v. kind_of v ≡ sort_kind token.now.sort) }
{
    match &token.sort {
        Sort::Word(text) => name(alloc, text, 0, token.place),
        Sort::Opened { text, number } => name(alloc, text, *number, token.place),
        Sort::Number(value) => Ok(Value::Number(*value, token.place)),
        Sort::Keyword(word) => Ok(keyword(*word, token.place)),
        Sort::Sign(word) => Ok(sign(*word, token.place)),
        Sort::Finish => unreachable!(),
    }
}

/// The word that an item stands for.
pub fn word(alloc: Global, tokens: &[Token], terminal: Terminal) -> Result<Value, Memory>
    requires heard { IsHeard tokens.now (item.Word terminal) }
    requires own { stands own_kinds (word_kind (group terminal.class)) ≡ true }
    ensures out { IfOk result (λ v. value_out v ≡ lexeme tokens.now (item.Word terminal) ∷ []) }
    ensures kind { IfOk result (λ v. kind_of v ≡ word_kind (group terminal.class)) }
{
    word_of(alloc, &tokens[terminal.index as usize])
}
