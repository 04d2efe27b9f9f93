//! Formulas shown as sequents, as they are read where a walk stands.

ghost use Rattle.std.specs.Prelude.{◌≡◌, ◌-◌, ◌^◌, ◌++◌, ◌∷◌, [], min, OnOk, IfErr, map};
ghost use Rattle.cb_term.specs.Tree as tree;
ghost use Rattle.cb_seq.specs.Validity.{Claim, claim_of};
ghost use Rattle.cb_obligations.specs.Branches as branches;
ghost use Rattle.cb_obligations.specs.Steps.{Make};
ghost use Rattle.cb_wp.specs.Limits.{claim, claim_nodes, formulas_nodes, Counted, Faulted};
ghost use Rattle.cb_conditions.specs.Ways.{shown};
ghost use Rattle.cb_conditions.specs.Steps.{shown_steps};
ghost use Rattle.cb_symbolic.specs.Walks.{way_of, IsReached, steps_inside, pieces_inside, claim_inside};

use crate::store::truncate;
use crate::walk::{Reached, Walk, add_opened, suppose_opened, with_number};
use cb_seq::sequent::Sequent;
use cb_term::Memory;
use cb_term::kind::Kind;
use cb_term::name::Name;
use cb_term::tree::{Formula, FormulaNode};
use cb_wp::changes::{next, put};
use cb_wp::limits::{MakeFault, Used, Which};
use cb_wp::sequents::copy_around;
use sqlite_items::Items;
use std::alloc::{AllocError, Global};

/// Sequents with what the whole list has so far.
#[derive(Drop)]
pub struct Made {
    pub used: Used,
    pub sequents: Vec<Sequent>,
}

/// Appends the pieces of the formula, as it is read here, under the hypotheses here. `Limit` is the first limit that is passed.
pub fn show(
    alloc: Global,
    walk: &mut Walk,
    reached: Reached,
    formula: &Formula,
    made: &mut Made,
) -> Result<(), MakeFault>
    requires reached { IsReached reached walk.old }
    ensures walk { OnOk result (walk.new ≡ walk.old) }
    ensures counted { OnOk result (Counted made.old.used made.new.used (shown_steps (way_of reached walk.old) formula.now)) }
    ensures list { OnOk result (map claim_of made.new.sequents.items ≡ map claim_of made.old.sequents.items ++ shown (way_of reached walk.old) formula.now) }
    ensures fault { IfErr result (λ e. Faulted e made.old.used (shown_steps (way_of reached walk.old) formula.now)) }
{
    let mut opened = Vec::new(alloc);
    show_inside(alloc, walk, reached, &mut opened, formula, made)
}

// Appends the pieces of the formula. The names opened in it stand in `opened`, the last first.
#[cycle(show)]
fn show_inside(
    alloc: Global,
    walk: &mut Walk,
    reached: Reached,
    opened: &mut Vec<Name>,
    formula: &Formula,
    made: &mut Made,
) -> Result<(), MakeFault>
    requires reached { IsReached reached walk.old }
    ensures opened { OnOk result (opened.new.items ≡ opened.old.items) }
    ensures walk { OnOk result (walk.new ≡ walk.old) }
    ensures counted { OnOk result (Counted made.old.used made.new.used (steps_inside opened.old.items reached walk.old formula.now)) }
    ensures list { OnOk result (map claim_of made.new.sequents.items ≡ map claim_of made.old.sequents.items ++ pieces_inside opened.old.items reached walk.old formula.now) }
    ensures fault { IfErr result (λ e. Faulted e made.old.used (steps_inside opened.old.items reached walk.old formula.now)) }
{
    match &formula.node {
        FormulaNode::And(left, right) => show_both(alloc, walk, reached, opened, left, right, made),
        FormulaNode::Implies(left, right) => show_implied(
            alloc, walk, reached, opened, left, right, made,
        ),
        FormulaNode::Every { name, kind, body } => show_every(
            alloc, walk, reached, opened, name, *kind, body, made,
        ),
        FormulaNode::True => Ok(()),
        FormulaNode::False
        | FormulaNode::Rel { .. }
        | FormulaNode::Not(_)
        | FormulaNode::Or(_, _)
        | FormulaNode::Iff(_, _)
        | FormulaNode::Exist { .. } => add_goal(
            alloc,
            walk,
            reached.nodes,
            opened.as_slice(),
            formula,
            made,
        ),
    }
}

// The pieces of `P & Q`.
#[cycle(show)]
#[tactic(auto, using(cb_wp::proofs::CountLemmas::count_after, cb_wp::proofs::CountLemmas::count_passed))]
fn show_both(
    alloc: Global,
    walk: &mut Walk,
    reached: Reached,
    opened: &mut Vec<Name>,
    left: &Formula,
    right: &Formula,
    made: &mut Made,
) -> Result<(), MakeFault>
    requires reached { IsReached reached walk.old }
    ensures opened { OnOk result (opened.new.items ≡ opened.old.items) }
    ensures walk { OnOk result (walk.new ≡ walk.old) }
    ensures counted { OnOk result (Counted made.old.used made.new.used (steps_inside opened.old.items reached walk.old (tree.And left.now right.now))) }
    ensures list { OnOk result (map claim_of made.new.sequents.items ≡ map claim_of made.old.sequents.items ++ pieces_inside opened.old.items reached walk.old (tree.And left.now right.now)) }
    ensures fault { IfErr result (λ e. Faulted e made.old.used (steps_inside opened.old.items reached walk.old (tree.And left.now right.now))) }
{
    show_inside(alloc, walk, reached, opened, left, made)?;
    show_inside(alloc, walk, reached, opened, right, made)
}

// The pieces of `P => Q`.
#[cycle(show)]
fn show_implied(
    alloc: Global,
    walk: &mut Walk,
    reached: Reached,
    opened: &mut Vec<Name>,
    left: &Formula,
    inner: &Formula,
    made: &mut Made,
) -> Result<(), MakeFault>
    requires reached { IsReached reached walk.old }
    ensures opened { OnOk result (opened.new.items ≡ opened.old.items) }
    ensures walk { OnOk result (walk.new ≡ walk.old) }
    ensures counted { OnOk result (Counted made.old.used made.new.used (steps_inside opened.old.items reached walk.old (tree.Implies left.now inner.now))) }
    ensures list { OnOk result (map claim_of made.new.sequents.items ≡ map claim_of made.old.sequents.items ++ pieces_inside opened.old.items reached walk.old (tree.Implies left.now inner.now)) }
    ensures fault { IfErr result (λ e. Faulted e made.old.used (steps_inside opened.old.items reached walk.old (tree.Implies left.now inner.now))) }
{
    let before = walk.hypotheses.len();
    let reached = suppose_opened(alloc, walk, reached, opened.as_slice(), left)?;
    show_inside(alloc, walk, reached, opened, inner, made)?;
    truncate(&mut walk.hypotheses, before);
    Ok(())
}

fn put_first(names: &mut Vec<Name>, name: Name) -> Result<(), Memory>
    ensures { OnOk result (names.new.items ≡ name ∷ names.old.items) }
{
    match names.insert(0, name) {
        Ok(()) => Ok(()),
        Err(_) => Err(AllocError),
    }
}

// Opens the name with that number.
fn open_inside(
    alloc: Global,
    names: &mut Items<(Name, Kind)>,
    opened: &mut Vec<Name>,
    name: &Name,
    kind: Kind,
    number: u32,
) -> Result<(), Memory>
    ensures opened { OnOk result (opened.new.items ≡ branches.numbered name.now number ∷ opened.old.items) }
    ensures names { OnOk result (names.new ≡ names.old ++ (branches.numbered name.now number, kind) ∷ []) }
{
    add_opened(alloc, names, name, kind, number)?;
    put_first(opened, with_number(alloc, name, number)?)
}

// The pieces of `!x.(P)`.
#[cycle(show)]
fn show_every(
    alloc: Global,
    walk: &mut Walk,
    reached: Reached,
    opened: &mut Vec<Name>,
    name: &Name,
    kind: Kind,
    body: &Formula,
    made: &mut Made,
) -> Result<(), MakeFault>
    requires reached { IsReached reached walk.old }
    ensures opened { OnOk result (opened.new.items ≡ opened.old.items) }
    ensures walk { OnOk result (walk.new ≡ walk.old) }
    ensures counted { OnOk result (Counted made.old.used made.new.used (steps_inside opened.old.items reached walk.old (tree.Every name.now kind body.now))) }
    ensures list { OnOk result (map claim_of made.new.sequents.items ≡ map claim_of made.old.sequents.items ++ pieces_inside opened.old.items reached walk.old (tree.Every name.now kind body.now)) }
    ensures fault { IfErr result (λ e. Faulted e made.old.used (steps_inside opened.old.items reached walk.old (tree.Every name.now kind body.now))) }
{
    let number = next(reached.number)?;
    open_inside(alloc, &mut walk.names, opened, name, kind, number)?;
    let inside = Reached {
        number,
        nodes: reached.nodes,
    };
    show_inside(alloc, walk, inside, opened, body, made)?;
    let _name = opened.remove(0);
    let _named = walk.names.pop();
    Ok(())
}

// Counts a sequent of so many nodes, or says which limit is passed.
fn count_sequent(nodes: u64, used: &mut Used) -> Result<(), MakeFault>
    ensures counted { OnOk result ((q : Claim) → nodes ≡ min (claim_nodes q) (2 ^ 64 - 1) → Counted used.old used.new (Make q ∷ [])) }
    ensures fault { IfErr result (λ e. (q : Claim) → nodes ≡ min (claim_nodes q) (2 ^ 64 - 1) → Faulted e used.old (Make q ∷ [])) }
{
    if used.obligations >= 4096 {
        return Err(MakeFault::Limit(Which::Obligations));
    }
    if nodes > 20_000 {
        return Err(MakeFault::Limit(Which::Sequent));
    }
    let total = used.nodes.saturating_add(nodes);
    if total > 4_000_000 {
        return Err(MakeFault::Limit(Which::Nodes));
    }
    used.obligations += 1;
    used.nodes = total;
    Ok(())
}

fn put_sequent(
    alloc: Global,
    walk: &Walk,
    goal: Formula,
    into: &mut Vec<Sequent>,
) -> Result<(), Memory>
    ensures { OnOk result (map claim_of into.new.items ≡ map claim_of into.old.items ++ claim walk.now.names walk.now.hypotheses goal ∷ []) }
{
    let (names, hypotheses) = copy_around(
        alloc,
        walk.names.as_slice(),
        walk.hypotheses.as_slice(),
    )?;
    put(
        into,
        Sequent {
            names,
            hypotheses,
            goal,
        },
    )
}

// Appends the sequent with the formula as its goal, which is read only where no limit is passed.
fn add_goal(
    alloc: Global,
    walk: &Walk,
    carried: u64,
    opened: &[Name],
    formula: &Formula,
    made: &mut Made,
) -> Result<(), MakeFault>
    requires { carried ≡ min (formulas_nodes walk.now.hypotheses) (2 ^ 64 - 1) }
    ensures counted { OnOk result (Counted made.old.used made.new.used (Make (claim_inside opened.now walk.now formula.now) ∷ [])) }
    ensures list { OnOk result (map claim_of made.new.sequents.items ≡ map claim_of made.old.sequents.items ++ claim_inside opened.now walk.now formula.now ∷ []) }
    ensures fault { IfErr result (λ e. Faulted e made.old.used (Make (claim_inside opened.now walk.now formula.now) ∷ [])) }
{
    let nodes = carried.saturating_add(walk.store.nodes(formula));
    count_sequent(nodes, &mut made.used)?;
    let goal = walk.store.read_opened(alloc, opened, formula)?;
    put_sequent(alloc, walk, goal, &mut made.sequents)?;
    Ok(())
}
