//! The pieces of a formula.

ghost use Rattle.std.specs.Prelude.{◌≡◌, ◌-◌, ◌^◌, ◌++◌, ◌∷◌, [], min, IfOk, OnOk, IfErr, None, map};
ghost use Rattle.cb_term.specs.Tree as tree;
ghost use Rattle.cb_seq.specs.Validity.{claim_of};
ghost use Rattle.cb_obligations.specs.Branches.{numbered};
ghost use Rattle.cb_obligations.specs.Pieces as spec;
ghost use Rattle.cb_obligations.specs.Pieces.{pieces_under};
ghost use Rattle.cb_obligations.specs.Steps.{steps_under};
ghost use Rattle.cb_wp.specs.Limits.{formulas_nodes, count, passed, Counted, Faulted, Tells};

use crate::changes::{next, put};
use crate::limits::{MakeFault, Used, Which};
use crate::sequents::{add_conjuncts, add_sequent, all_nodes, copy_around, with_opened};
use cb_seq::sequent::Sequent;
use cb_term::Memory;
use cb_term::kind::Kind;
use cb_term::name::Name;
use cb_term::tree::{Formula, FormulaNode};
use std::alloc::{AllocError, Global};

fn put_first(names: &mut Vec<Name>, name: Name) -> Result<(), Memory>
    ensures { OnOk result (names.new.items ≡ name ∷ names.old.items) }
{
    match names.insert(0, name) {
        Ok(()) => Ok(()),
        Err(_) => Err(AllocError),
    }
}

#[cycle(pieces)]
/// Appends the formula's pieces under the hypotheses. The names opened on the way stand in `opened`, the last first, and
/// `number` counts them with those before. `carried` are the nodes of the hypotheses.
pub fn add_pieces(
    alloc: Global,
    formula: &Formula,
    opened: &mut Vec<Name>,
    number: u32,
    names: &mut Vec<(Name, Kind)>,
    hypotheses: &mut Vec<Formula>,
    carried: u64,
    used: &mut Used,
    into: &mut Vec<Sequent>,
) -> Result<(), MakeFault>
    requires { carried ≡ min (formulas_nodes hypotheses.old.items) (2 ^ 64 - 1) }
    ensures opened { OnOk result (opened.new.items ≡ opened.old.items) }
    ensures names { OnOk result (names.new.items ≡ names.old.items) }
    ensures hypotheses { OnOk result (hypotheses.new.items ≡ hypotheses.old.items) }
    ensures counted { OnOk result (Counted used.old used.new (steps_under opened.old.items number names.old.items hypotheses.old.items formula.now)) }
    ensures list { OnOk result (map claim_of into.new.items ≡ map claim_of into.old.items ++ pieces_under opened.old.items number names.old.items hypotheses.old.items formula.now) }
    ensures fault { IfErr result (λ e. Faulted e used.old (steps_under opened.old.items number names.old.items hypotheses.old.items formula.now)) }
{
    match &formula.node {
        FormulaNode::And(left, right) => add_both(
            alloc, left, right, opened, number, names, hypotheses, carried, used, into,
        ),
        FormulaNode::Implies(left, right) => add_implied(
            alloc, left, right, opened, number, names, hypotheses, carried, used, into,
        ),
        FormulaNode::Every { name, kind, body } => add_every(
            alloc, name, *kind, body, opened, number, names, hypotheses, carried, used, into,
        ),
        FormulaNode::True => Ok(()),
        FormulaNode::False
        | FormulaNode::Rel { .. }
        | FormulaNode::Not(_)
        | FormulaNode::Or(_, _)
        | FormulaNode::Iff(_, _)
        | FormulaNode::Exist { .. } => {
            let goal = with_opened(alloc, opened.as_slice(), formula)?;
            add_sequent(
                alloc,
                names.as_slice(),
                hypotheses.as_slice(),
                carried,
                goal,
                used,
                into,
            )
        }
    }
}

#[cycle(pieces)]
#[tactic(auto, using(crate::proofs::CountLemmas::count_after, crate::proofs::CountLemmas::count_passed))]
// The pieces of `P & Q`.
fn add_both(
    alloc: Global,
    left: &Formula,
    right: &Formula,
    opened: &mut Vec<Name>,
    number: u32,
    names: &mut Vec<(Name, Kind)>,
    hypotheses: &mut Vec<Formula>,
    carried: u64,
    used: &mut Used,
    into: &mut Vec<Sequent>,
) -> Result<(), MakeFault>
    requires { carried ≡ min (formulas_nodes hypotheses.old.items) (2 ^ 64 - 1) }
    ensures opened { OnOk result (opened.new.items ≡ opened.old.items) }
    ensures names { OnOk result (names.new.items ≡ names.old.items) }
    ensures hypotheses { OnOk result (hypotheses.new.items ≡ hypotheses.old.items) }
    ensures counted { OnOk result (Counted used.old used.new (steps_under opened.old.items number names.old.items hypotheses.old.items (tree.And left.now right.now))) }
    ensures list { OnOk result (map claim_of into.new.items ≡ map claim_of into.old.items ++ pieces_under opened.old.items number names.old.items hypotheses.old.items (tree.And left.now right.now)) }
    ensures fault { IfErr result (λ e. Faulted e used.old (steps_under opened.old.items number names.old.items hypotheses.old.items (tree.And left.now right.now))) }
{
    add_pieces(
        alloc, left, opened, number, names, hypotheses, carried, used, into,
    )?;
    add_pieces(
        alloc, right, opened, number, names, hypotheses, carried, used, into,
    )
}

#[cycle(pieces)]
// The pieces of `P => Q`.
fn add_implied(
    alloc: Global,
    left: &Formula,
    inner: &Formula,
    opened: &mut Vec<Name>,
    number: u32,
    names: &mut Vec<(Name, Kind)>,
    hypotheses: &mut Vec<Formula>,
    carried: u64,
    used: &mut Used,
    into: &mut Vec<Sequent>,
) -> Result<(), MakeFault>
    requires { carried ≡ min (formulas_nodes hypotheses.old.items) (2 ^ 64 - 1) }
    ensures opened { OnOk result (opened.new.items ≡ opened.old.items) }
    ensures names { OnOk result (names.new.items ≡ names.old.items) }
    ensures hypotheses { OnOk result (hypotheses.new.items ≡ hypotheses.old.items) }
    ensures counted { OnOk result (Counted used.old used.new (steps_under opened.old.items number names.old.items hypotheses.old.items (tree.Implies left.now inner.now))) }
    ensures list { OnOk result (map claim_of into.new.items ≡ map claim_of into.old.items ++ pieces_under opened.old.items number names.old.items hypotheses.old.items (tree.Implies left.now inner.now)) }
    ensures fault { IfErr result (λ e. Faulted e used.old (steps_under opened.old.items number names.old.items hypotheses.old.items (tree.Implies left.now inner.now))) }
{
    let before = hypotheses.len();
    let carried = add_conjuncts(alloc, left, opened.as_slice(), carried, hypotheses)?;
    if carried > 20_000 {
        return Err(MakeFault::Limit(Which::Sequent));
    }
    add_pieces(
        alloc, inner, opened, number, names, hypotheses, carried, used, into,
    )?;
    hypotheses.truncate(before);
    Ok(())
}

// Opens the name with that number.
fn open_name(
    alloc: Global,
    name: &Name,
    kind: Kind,
    number: u32,
    opened: &mut Vec<Name>,
    names: &mut Vec<(Name, Kind)>,
) -> Result<(), Memory>
    ensures opened { OnOk result (opened.new.items ≡ numbered name.now number ∷ opened.old.items) }
    ensures names { OnOk result (names.new.items ≡ names.old.items ++ (numbered name.now number, kind) ∷ []) }
{
    let text = name.text.copy(alloc)?;
    put_first(opened, Name { text, number })?;
    let text = name.text.copy(alloc)?;
    put(names, (Name { text, number }, kind))
}

#[cycle(pieces)]
// The pieces of `!x.(P)`.
fn add_every(
    alloc: Global,
    name: &Name,
    kind: Kind,
    body: &Formula,
    opened: &mut Vec<Name>,
    number: u32,
    names: &mut Vec<(Name, Kind)>,
    hypotheses: &mut Vec<Formula>,
    carried: u64,
    used: &mut Used,
    into: &mut Vec<Sequent>,
) -> Result<(), MakeFault>
    requires { carried ≡ min (formulas_nodes hypotheses.old.items) (2 ^ 64 - 1) }
    ensures opened { OnOk result (opened.new.items ≡ opened.old.items) }
    ensures names { OnOk result (names.new.items ≡ names.old.items) }
    ensures hypotheses { OnOk result (hypotheses.new.items ≡ hypotheses.old.items) }
    ensures counted { OnOk result (Counted used.old used.new (steps_under opened.old.items number names.old.items hypotheses.old.items (tree.Every name.now kind body.now))) }
    ensures list { OnOk result (map claim_of into.new.items ≡ map claim_of into.old.items ++ pieces_under opened.old.items number names.old.items hypotheses.old.items (tree.Every name.now kind body.now)) }
    ensures fault { IfErr result (λ e. Faulted e used.old (steps_under opened.old.items number names.old.items hypotheses.old.items (tree.Every name.now kind body.now))) }
{
    let number = next(number)?;
    open_name(alloc, name, kind, number, opened, names)?;
    add_pieces(
        alloc, body, opened, number, names, hypotheses, carried, used, into,
    )?;
    let _name = opened.remove(0);
    let _named = names.pop();
    Ok(())
}

// Appends the formula's pieces under these hypotheses.
fn add_from(
    alloc: Global,
    names: &[(Name, Kind)],
    hypotheses: &[Formula],
    opened: u32,
    formula: &Formula,
    used: &mut Used,
    into: &mut Vec<Sequent>,
) -> Result<(), MakeFault>
    ensures counted { OnOk result (Counted used.old used.new (steps_under [] opened names.now hypotheses.now formula.now)) }
    ensures list { OnOk result (map claim_of into.new.items ≡ map claim_of into.old.items ++ spec.pieces names.now hypotheses.now opened formula.now) }
    ensures fault { IfErr result (λ e. Faulted e used.old (steps_under [] opened names.now hypotheses.now formula.now)) }
{
    let carried = all_nodes(hypotheses);
    let (mut names, mut hypotheses) = copy_around(alloc, names, hypotheses)?;
    let mut around = Vec::new(alloc);
    add_pieces(
        alloc,
        formula,
        &mut around,
        opened,
        &mut names,
        &mut hypotheses,
        carried,
        used,
        into,
    )
}

/// What `pieces` gives, counted on from what is used, with what they add.
pub fn pieces_after(
    alloc: Global,
    names: &[(Name, Kind)],
    hypotheses: &[Formula],
    opened: u32,
    formula: &Formula,
    used: &mut Used,
) -> Result<Vec<Sequent>, MakeFault>
    ensures counted { OnOk result (Counted used.old used.new (steps_under [] opened names.now hypotheses.now formula.now)) }
    ensures list { IfOk result (λ v. map claim_of v.items ≡ spec.pieces names.now hypotheses.now opened formula.now) }
    ensures fault { IfErr result (λ e. Faulted e used.old (steps_under [] opened names.now hypotheses.now formula.now)) }
{
    let mut sequents = Vec::new(alloc);
    add_from(
        alloc,
        names,
        hypotheses,
        opened,
        formula,
        used,
        &mut sequents,
    )?;
    Ok(sequents)
}

/// The pieces of the formula under the hypotheses, over these names, of which `opened` are opened names. Names opened on the way
/// are numbered from the next number on. `Limit` is the first limit that is passed, where the list had so much before.
pub fn pieces(
    alloc: Global,
    names: &[(Name, Kind)],
    hypotheses: &[Formula],
    opened: u32,
    formula: &Formula,
    used: Used,
) -> Result<Vec<Sequent>, MakeFault>
    ensures list { IfOk result (λ v. map claim_of v.items ≡ spec.pieces names.now hypotheses.now opened formula.now) }
    ensures within { IfOk result (λ v. passed (count used.obligations used.nodes (steps_under [] opened names.now hypotheses.now formula.now)) ≡ None) }
    ensures fault { IfErr result (λ e. Tells e (passed (count used.obligations used.nodes (steps_under [] opened names.now hypotheses.now formula.now)))) }
{
    let mut used = used;
    pieces_after(alloc, names, hypotheses, opened, formula, &mut used)
}
