//! The actions that build rows and the premises of a rule.

ghost use Rattle.std.specs.Prelude.{◌≡◌, ◌++◌, ◌∷◌, [], IfOk};
ghost use Rattle.cb_amn_parse.specs.Lexemes.{Did};
ghost use Rattle.cb_amn_parse.specs.Values.{stack_out, Takes, Turns};

use crate::Memory;
use crate::value::{pop_node, pop_nodes, pop_numeral, pop_row, pop_rows};
use cb_amn_parse::value::{Value, push};
use cb_grammar::actions::{APPEND_NODE, APPEND_ROW, MINUS_ROW, NO_NODES, NO_ROWS, ROW};
use cb_lex::raw::proof::{RawCert, RawRow};
use sqlite_items::Items;
use std::alloc::Global;

pub(crate) fn no_nodes(alloc: Global, stack: &mut Vec<Value>) -> Result<(), Memory>
    requires { Takes stack.old.items NO_NODES }
    ensures out { IfOk result (λ _. stack_out stack.new.items ≡ stack_out stack.old.items ++ Did NO_NODES ∷ []) }
    ensures turns { IfOk result (λ _. Turns stack.old.items stack.new.items NO_NODES) }
{
    push(stack, Value::Nodes(Vec::new(alloc)))
}

// the certificates with one more at the end
fn extended(mut certs: Vec<RawCert>, cert: RawCert) -> Result<Vec<RawCert>, Memory>
    ensures { IfOk result (λ longer. longer.items ≡ certs.items ++ cert ∷ []) }
{
    certs.push(cert)?;
    Ok(certs)
}

pub(crate) fn append_node(stack: &mut Vec<Value>) -> Result<(), Memory>
    requires { Takes stack.old.items APPEND_NODE }
    ensures out { IfOk result (λ _. stack_out stack.new.items ≡ stack_out stack.old.items ++ Did APPEND_NODE ∷ []) }
    ensures turns { IfOk result (λ _. Turns stack.old.items stack.new.items APPEND_NODE) }
{
    let cert = pop_node(stack);
    let certs = pop_nodes(stack);
    let longer = extended(certs, cert)?;
    push(stack, Value::Nodes(longer))
}

pub(crate) fn no_rows(alloc: Global, stack: &mut Vec<Value>) -> Result<(), Memory>
    requires { Takes stack.old.items NO_ROWS }
    ensures out { IfOk result (λ _. stack_out stack.new.items ≡ stack_out stack.old.items ++ Did NO_ROWS ∷ []) }
    ensures turns { IfOk result (λ _. Turns stack.old.items stack.new.items NO_ROWS) }
{
    push(stack, Value::Rows(Items::new(alloc)))
}

pub(crate) fn append_row(stack: &mut Vec<Value>) -> Result<(), Memory>
    requires { Takes stack.old.items APPEND_ROW }
    ensures out { IfOk result (λ _. stack_out stack.new.items ≡ stack_out stack.old.items ++ Did APPEND_ROW ∷ []) }
    ensures turns { IfOk result (λ _. Turns stack.old.items stack.new.items APPEND_ROW) }
{
    let row = pop_row(stack);
    let mut rows = pop_rows(stack);
    rows.push(row)?;
    push(stack, Value::Rows(rows))
}

pub(crate) fn row(stack: &mut Vec<Value>) -> Result<(), Memory>
    requires { Takes stack.old.items ROW }
    ensures out { IfOk result (λ _. stack_out stack.new.items ≡ stack_out stack.old.items ++ Did ROW ∷ []) }
    ensures turns { IfOk result (λ _. Turns stack.old.items stack.new.items ROW) }
{
    let multiplier = pop_numeral(stack);
    let hypothesis = pop_numeral(stack);
    let row = RawRow {
        hypothesis,
        minus: false,
        multiplier,
    };
    push(stack, Value::Row(row))
}

pub(crate) fn minus_row(stack: &mut Vec<Value>) -> Result<(), Memory>
    requires { Takes stack.old.items MINUS_ROW }
    ensures out { IfOk result (λ _. stack_out stack.new.items ≡ stack_out stack.old.items ++ Did MINUS_ROW ∷ []) }
    ensures turns { IfOk result (λ _. Turns stack.old.items stack.new.items MINUS_ROW) }
{
    let multiplier = pop_numeral(stack);
    let hypothesis = pop_numeral(stack);
    let row = RawRow {
        hypothesis,
        minus: true,
        multiplier,
    };
    push(stack, Value::Row(row))
}
