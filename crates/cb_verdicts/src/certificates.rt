//! Certificates as proofs write them.

ghost use Rattle.std.specs.Prelude.{◌≡◌, pos, IfOk, map};
ghost use Rattle.cb_verdicts.specs.Certificates as spec;
ghost use Rattle.cb_verdicts.specs.Proofs.{count};

use crate::names::number;
use cb_arguments::clear::{is_clear, term_is_clear};
use cb_arguments::normal::{normal_formula, normal_term};
use cb_arguments::scope::Symbols;
use cb_lex::raw::proof::{RawArguments, RawCert, RawNumber, RawRow, RawRule};
use cb_lex::raw::term::{RawFormula, RawTerm};
use cb_seq::cert::Cert;
use cb_seq::rule::{FormulaArgument, Multiple, Multiples, Rule, TermArgument};
use cb_term::Memory;
use sqlite_items::Items;
use std::alloc::Global;

fn formula_argument(
    alloc: Global,
    symbols: &Symbols,
    formula: &RawFormula,
) -> Result<FormulaArgument, Memory>
    ensures { IfOk result (λ a. a ≡ spec.formula_argument symbols.now formula.now) }
{
    let mut bound = Items::new(alloc);
    if is_clear(alloc, symbols, &mut bound, formula)? {
        let read = normal_formula(alloc, symbols, &mut bound, formula)?;
        Ok(FormulaArgument::Formula(read))
    } else {
        Ok(FormulaArgument::Unclear)
    }
}

fn term_argument(alloc: Global, symbols: &Symbols, term: &RawTerm) -> Result<TermArgument, Memory>
    ensures { IfOk result (λ a. a ≡ spec.term_argument symbols.now term.now) }
{
    let mut bound = Items::new(alloc);
    if term_is_clear(alloc, symbols, &mut bound, term)? {
        let read = normal_term(alloc, symbols, &mut bound, term)?;
        Ok(TermArgument::Read(read))
    } else {
        Ok(TermArgument::Unclear)
    }
}

// The number; a negative one, which the lexer never gives, counts as 0.
fn at_least_zero(number: RawNumber) -> i64
    ensures { result ≡ pos (count number) }
{
    if number.value < 0 { 0 } else { number.value }
}

fn multiple(row: &RawRow) -> Multiple
    ensures { result ≡ spec.multiple row.now }
{
    let times = at_least_zero(row.multiplier);
    Multiple {
        row: number(row.hypothesis),
        by: if row.minus { -times } else { times },
    }
}

fn multiples(alloc: Global, rows: &[RawRow]) -> Result<Multiples, Memory>
    ensures { IfOk result (λ ms. ms ≡ map spec.multiple rows.now) }
{
    let mut all = Items::new(alloc);
    for row in rows {
        all.push(multiple(row))?;
    }
    Ok(all)
}

// The rule without arguments that the word tells.
fn rule_alone(word: &[u8]) -> Rule
    ensures { result ≡ spec.by_word word.now spec.rules_alone }
{
    if word == b"EVAL".as_slice() {
        Rule::Eval
    } else if word == b"REFL".as_slice() {
        Rule::Refl
    } else if word == b"ANDR".as_slice() {
        Rule::AndR
    } else if word == b"OR1".as_slice() {
        Rule::Or1
    } else if word == b"OR2".as_slice() {
        Rule::Or2
    } else if word == b"IMPR".as_slice() {
        Rule::ImpR
    } else if word == b"NOTR".as_slice() {
        Rule::NotR
    } else if word == b"IFFR".as_slice() {
        Rule::IffR
    } else if word == b"ALLR".as_slice() {
        Rule::AllR
    } else if word == b"BOOLR".as_slice() {
        Rule::BoolR
    } else if word == b"EQLE".as_slice() {
        Rule::EqLe
    } else if word == b"RNG".as_slice() {
        Rule::Rng
    } else if word == b"MEMBER".as_slice() {
        Rule::Member
    } else if word == b"SUBSET".as_slice() {
        Rule::Subset
    } else if word == b"EXT".as_slice() {
        Rule::Ext
    } else {
        Rule::Hyp { hypothesis: 0 }
    }
}

fn rule_of_hypothesis(word: &[u8], hypothesis: u64) -> Rule
    ensures { result ≡ spec.by_word word.now (spec.rules_of_hypothesis hypothesis) }
{
    if word == b"HYP".as_slice() {
        Rule::Hyp { hypothesis }
    } else if word == b"EVALNOT".as_slice() {
        Rule::EvalNot { hypothesis }
    } else if word == b"ANDL".as_slice() {
        Rule::AndL { hypothesis }
    } else if word == b"ORL".as_slice() {
        Rule::OrL { hypothesis }
    } else if word == b"IMPL".as_slice() {
        Rule::ImpL { hypothesis }
    } else if word == b"IFFL".as_slice() {
        Rule::IffL { hypothesis }
    } else if word == b"NOTL".as_slice() {
        Rule::NotL { hypothesis }
    } else if word == b"EXL".as_slice() {
        Rule::ExL { hypothesis }
    } else if word == b"EQ".as_slice() {
        Rule::Eq {
            equation: hypothesis,
        }
    } else if word == b"BOOLL".as_slice() {
        Rule::BoolL { hypothesis }
    } else if word == b"RNGL".as_slice() {
        Rule::RngL { hypothesis }
    } else if word == b"MEMBERL".as_slice() {
        Rule::MemberL { hypothesis }
    } else {
        Rule::Hyp { hypothesis: 0 }
    }
}

fn rule_of_two_hypotheses(word: &[u8], first: u64, second: u64) -> Rule
    ensures { result ≡ spec.by_word word.now (spec.rules_of_two_hypotheses first second) }
{
    if word == b"CONTRA".as_slice() {
        Rule::Contra {
            hypothesis: first,
            negation: second,
        }
    } else if word == b"EQIN".as_slice() {
        Rule::EqIn {
            equation: first,
            hypothesis: second,
        }
    } else {
        Rule::Hyp { hypothesis: 0 }
    }
}

fn rule_of_formula(word: &[u8], formula: FormulaArgument) -> Rule
    ensures { result ≡ spec.by_word word.now (spec.rules_of_formula formula) }
{
    if word == b"CUT".as_slice() {
        Rule::Cut { formula }
    } else if word == b"CASES".as_slice() {
        Rule::Cases { formula }
    } else {
        Rule::Hyp { hypothesis: 0 }
    }
}

fn rule_of_term(word: &[u8], term: TermArgument) -> Rule
    ensures { result ≡ spec.by_word word.now (spec.rules_of_term term) }
{
    if word == b"EXR".as_slice() {
        Rule::ExR { term }
    } else if word == b"BOOLCASES".as_slice() {
        Rule::BoolCases { term }
    } else if word == b"ELEMS".as_slice() {
        Rule::Elems { term }
    } else if word == b"CARDPOS".as_slice() {
        Rule::CardPos { set: term }
    } else {
        Rule::Hyp { hypothesis: 0 }
    }
}

fn rule_of_two_terms(word: &[u8], left: TermArgument, right: TermArgument) -> Rule
    ensures { result ≡ spec.by_word word.now (spec.rules_of_two_terms left right) }
{
    if word == b"SPLIT".as_slice() {
        Rule::Split { left, right }
    } else if word == b"MULSIGN".as_slice() {
        Rule::MulSign { left, right }
    } else if word == b"CARDADD".as_slice() {
        Rule::CardAdd {
            set: left,
            item: right,
        }
    } else if word == b"CARDDEL".as_slice() {
        Rule::CardDel {
            set: left,
            item: right,
        }
    } else if word == b"CARDSUB".as_slice() {
        Rule::CardSub {
            inner: left,
            outer: right,
        }
    } else {
        Rule::Hyp { hypothesis: 0 }
    }
}

fn rule_of_hypothesis_and_term(word: &[u8], hypothesis: u64, term: TermArgument) -> Rule
    ensures { result ≡ spec.by_word word.now (spec.rules_of_hypothesis_and_term hypothesis term) }
{
    if word == b"ALLL".as_slice() {
        Rule::AllL { hypothesis, term }
    } else if word == b"SUBSETL".as_slice() {
        Rule::SubsetL { hypothesis, term }
    } else {
        Rule::Hyp { hypothesis: 0 }
    }
}

/// The rule that is written. `symbols` are the sets, elements and constants that its arguments may name. A word that takes no such
/// arguments, which the grammar does not have, is told as `HYP 0`, which never applies.
pub fn rule_of(alloc: Global, symbols: &Symbols, rule: &RawRule) -> Result<Rule, Memory>
    ensures { IfOk result (λ r. r ≡ spec.rule_of symbols.now rule.now) }
{
    let word = rule.word.text.as_slice();
    Ok(match &rule.arguments {
        RawArguments::Nothing => rule_alone(word),
        RawArguments::Hypothesis(h) => rule_of_hypothesis(word, number(*h)),
        RawArguments::TwoHypotheses(h, j) => rule_of_two_hypotheses(word, number(*h), number(*j)),
        RawArguments::Rows(rows) => Rule::Lin {
            rows: multiples(alloc, rows.as_slice())?,
        },
        RawArguments::Formula(formula) => {
            rule_of_formula(word, formula_argument(alloc, symbols, formula)?)
        }
        RawArguments::Term(term) => rule_of_term(word, term_argument(alloc, symbols, term)?),
        RawArguments::TwoTerms(left, right) => {
            let first = term_argument(alloc, symbols, left)?;
            rule_of_two_terms(word, first, term_argument(alloc, symbols, right)?)
        }
        RawArguments::HypothesisTerm(h, term) => {
            rule_of_hypothesis_and_term(word, number(*h), term_argument(alloc, symbols, term)?)
        }
        RawArguments::TermNumber(term, divisor) => Rule::DivMod {
            term: term_argument(alloc, symbols, term)?,
            divisor: divisor.value,
        },
    })
}

/// The certificate that is written, in an ordinary stack up to 500 nodes deep.
pub fn cert_of(alloc: Global, symbols: &Symbols, raw: &RawCert) -> Result<Cert, Memory>
    ensures { IfOk result (λ c. c ≡ spec.cert_of symbols.now raw.now) }
{
    let mut children = Vec::new(alloc);
    let written = raw.children.as_slice();
    for child in written {
        children.push(cert_of(alloc, symbols, child)?)?;
    }
    Ok(Cert {
        rule: rule_of(alloc, symbols, &raw.rule)?,
        children,
    })
}
