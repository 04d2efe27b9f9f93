//! The values from which proofs are built, taken from a stack.

ghost use Rattle.std.specs.Prelude.{◌≡◌, ◌++◌, ◌∷◌, []};
ghost use Rattle.cb_lex.specs.declared.token.Sort.TheVariants as sort;
ghost use Rattle.cb_lex.specs.declared.token.Keyword.TheVariants as keyword;
ghost use Rattle.cb_grammar.specs.Signatures.{number_kind, initialisation_kind, start_kind, proofs_kind, obligation_kind, node_kind, nodes_kind, row_kind, rows_kind};
ghost use Rattle.cb_amn_parse.specs.Lexemes.{Said};
ghost use Rattle.cb_amn_parse.specs.Proofs.{numeral, obligation_out, row_out, rows_out, node_out, nodes_out, proofs_out};
ghost use Rattle.cb_amn_parse.specs.Values.{stack_out, kinds_of, HasTop};

use cb_amn_parse::value::{Value, pop_number};
use cb_lex::raw::proof::{RawCert, RawNumber, RawObligation, RawProofs, RawRow, RawRows};
use cb_lex::token::Place;

/// Takes a number from the top.
pub fn pop_numeral(stack: &mut Vec<Value>) -> RawNumber
    requires { HasTop stack.old.items number_kind }
    ensures out { stack_out stack.old.items ≡ stack_out stack.new.items ++ numeral result ∷ [] }
    ensures below { kinds_of stack.old.items ≡ number_kind ∷ kinds_of stack.new.items }
{
    let (value, place) = pop_number(stack);
    RawNumber { value, place }
}

/// Takes the word START from the top.
pub fn pop_start(stack: &mut Vec<Value>) -> Place
    requires { HasTop stack.old.items start_kind }
    ensures out { stack_out stack.old.items ≡ stack_out stack.new.items ++ Said (sort.Keyword keyword.Start) result ∷ [] }
    ensures below { kinds_of stack.old.items ≡ start_kind ∷ kinds_of stack.new.items }
{
    match stack.pop() {
        Some(Value::Start(place)) => place,
        _ => unreachable!(),
    }
}

/// Takes the word INITIALISATION from the top.
pub fn pop_initialisation(stack: &mut Vec<Value>) -> Place
    requires { HasTop stack.old.items initialisation_kind }
    ensures out { stack_out stack.old.items ≡ stack_out stack.new.items ++ Said (sort.Keyword keyword.Initialisation) result ∷ [] }
    ensures below { kinds_of stack.old.items ≡ initialisation_kind ∷ kinds_of stack.new.items }
{
    match stack.pop() {
        Some(Value::Initialisation(place)) => place,
        _ => unreachable!(),
    }
}

/// Takes the name of an obligation from the top.
pub fn pop_obligation(stack: &mut Vec<Value>) -> RawObligation
    requires { HasTop stack.old.items obligation_kind }
    ensures out { stack_out stack.old.items ≡ stack_out stack.new.items ++ obligation_out result }
    ensures below { kinds_of stack.old.items ≡ obligation_kind ∷ kinds_of stack.new.items }
{
    match stack.pop() {
        Some(Value::Obligation(name)) => name,
        _ => unreachable!(),
    }
}

/// Takes a row from the top.
pub fn pop_row(stack: &mut Vec<Value>) -> RawRow
    requires { HasTop stack.old.items row_kind }
    ensures out { stack_out stack.old.items ≡ stack_out stack.new.items ++ row_out result }
    ensures below { kinds_of stack.old.items ≡ row_kind ∷ kinds_of stack.new.items }
{
    match stack.pop() {
        Some(Value::Row(row)) => row,
        _ => unreachable!(),
    }
}

/// Takes the rows from the top.
pub fn pop_rows(stack: &mut Vec<Value>) -> RawRows
    requires { HasTop stack.old.items rows_kind }
    ensures out { stack_out stack.old.items ≡ stack_out stack.new.items ++ rows_out result }
    ensures below { kinds_of stack.old.items ≡ rows_kind ∷ kinds_of stack.new.items }
{
    match stack.pop() {
        Some(Value::Rows(rows)) => rows,
        _ => unreachable!(),
    }
}

/// Takes a certificate from the top.
pub fn pop_node(stack: &mut Vec<Value>) -> RawCert
    requires { HasTop stack.old.items node_kind }
    ensures out { stack_out stack.old.items ≡ stack_out stack.new.items ++ node_out result }
    ensures below { kinds_of stack.old.items ≡ node_kind ∷ kinds_of stack.new.items }
{
    match stack.pop() {
        Some(Value::Node(cert)) => cert,
        _ => unreachable!(),
    }
}

/// Takes the certificates of the premises of a rule from the top.
pub fn pop_nodes(stack: &mut Vec<Value>) -> Vec<RawCert>
    requires { HasTop stack.old.items nodes_kind }
    ensures out { stack_out stack.old.items ≡ stack_out stack.new.items ++ nodes_out result.items }
    ensures below { kinds_of stack.old.items ≡ nodes_kind ∷ kinds_of stack.new.items }
{
    match stack.pop() {
        Some(Value::Nodes(certs)) => certs,
        _ => unreachable!(),
    }
}

/// Takes the proofs from the top.
pub fn pop_proofs(stack: &mut Vec<Value>) -> RawProofs
    requires { HasTop stack.old.items proofs_kind }
    ensures out { stack_out stack.old.items ≡ stack_out stack.new.items ++ proofs_out result }
    ensures below { kinds_of stack.old.items ≡ proofs_kind ∷ kinds_of stack.new.items }
{
    match stack.pop() {
        Some(Value::Proofs(proofs)) => proofs,
        _ => unreachable!(),
    }
}
