//! The walk over a certificate. It keeps one list of names and one of hypotheses, which grow on the way down and shrink on the way up.

ghost use Rattle.std.specs.Prelude.{◌≡◌, take, IfOk, OnOk, IfErr};
ghost use Rattle.cb_term.specs.Table.{sizes_of};
ghost use Rattle.cb_term.specs.Tree.{FormulaTree};
ghost use Rattle.cb_seq.specs.Premises.{premise_of, or_goal};
ghost use Rattle.cb_seq.specs.Validity.{claim_of};
ghost use Rattle.cb_check.specs.Derives.{Derives};
ghost use Rattle.cb_check.specs.Ways.{claim_on, AreCounts, IsAfter, IsAsBefore, Tells, Refuses};

use crate::premises::{Counts, formulas_nodes, premises};
use cb_seq::cert::Cert;
use cb_seq::premise::{Premise, SequentRef};
use cb_seq::sequent::Sequent;
use cb_term::Memory;
use cb_term::count::nodes;
use cb_term::kind::Kind;
use cb_term::name::Name;
use cb_term::table::SetTable;
use cb_term::tree::Formula;
use sqlite_items::Items;
use std::alloc::Global;

/// Why a certificate is refused.
#[derive(Clone, Copy, Debug, PartialEq, Eq)]
pub enum CheckFault {
    /// This is the first node, in preorder from 1, whose rule does not apply or has another number of premises. 2^64 - 1 stands
    /// for every greater number.
    Bad { node: u64 },
    /// Want of memory.
    Memory,
}

// What the walk over a certificate tells: how many nodes it has, or the first bad one.
enum Walk {
    Fine(u64),
    Bad(u64),
}

// The names and the hypotheses of a node.
#[derive(Drop)]
struct Way {
    names: Vec<(Name, Kind)>,
    hypotheses: Items<Formula>,
}

// How long the way was before a premise, and the goal of the premise, where it is another one.
#[derive(Drop)]
struct Entered {
    names: usize,
    hypotheses: usize,
    goal: Option<Formula>,
}

impl Way {
    // The way at the root.
    fn new(alloc: Global, sequent: &Sequent) -> Result<Way, Memory>
        ensures { IfOk result (λ w. claim_on w sequent.now.goal ≡ claim_of sequent.now) }
    {
        let mut names = Vec::new(alloc);
        for named in &sequent.names {
            names.push((named.0.copy(alloc)?, named.1))?;
        }
        let mut hypotheses = Items::new(alloc);
        for formula in &sequent.hypotheses {
            hypotheses.push(formula.copy(alloc)?)?;
        }
        Ok(Way { names, hypotheses })
    }

    // Goes down into a premise.
    fn enter(&mut self, premise: Premise) -> Result<Entered, Memory>
        ensures claim { IfOk result (λ e. (g : FormulaTree) → claim_on self.new (or_goal g e.goal) ≡ premise_of (claim_on self.old g) premise) }
        ensures before { IfOk result (λ e. IsAfter self.old e self.new) }
    {
        let entered = Entered {
            names: self.names.len(),
            hypotheses: self.hypotheses.len(),
            goal: premise.goal,
        };
        self.hypotheses.append(premise.added)?;
        if let Some(opened) = premise.opened {
            self.names.push(opened)?;
        }
        Ok(entered)
    }

    // Goes up again, out of the premise.
    fn leave(&mut self, entered: Entered)
        ensures names { self.new.names.items ≡ take entered.names self.old.names.items }
        ensures hypotheses { self.new.hypotheses ≡ take entered.hypotheses self.old.hypotheses }
    {
        self.names.truncate(entered.names);
        shorten(&mut self.hypotheses, entered.hypotheses);
    }
}

impl Entered {
    // The goal of the premise of a sequent with this goal.
    fn aim<'a>(&'a self, goal: &'a Formula) -> &'a Formula
        ensures { result.now ≡ or_goal goal.now self.now.goal }
    {
        match &self.goal {
            Some(other) => other,
            None => goal,
        }
    }
}

// Keeps the first ones.
fn shorten(formulas: &mut Items<Formula>, kept: usize)
    ensures { formulas.new ≡ take kept formulas.old }
{
    while formulas.len() > kept {
        let last = formulas.len() - 1;
        formulas.remove(last);
    }
}

fn walk_over(
    alloc: Global,
    sets: &SetTable,
    way: &mut Way,
    goal: &Formula,
    counts: Counts,
    cert: &Cert,
) -> Result<Walk, Memory>
    requires { AreCounts counts (claim_on way.old goal.now) }
    ensures tells { IfOk result (λ w. Tells (sizes_of sets.now) w cert.now (claim_on way.old goal.now)) }
    ensures kept { OnOk result (IsAsBefore way.old way.new) }
{
    let sequent = SequentRef {
        names: way.names.as_slice(),
        hypotheses: way.hypotheses.as_slice(),
        goal,
    };
    let Some(mut premises) = premises(alloc, sets, &sequent, counts, &cert.rule)? else {
        return Ok(Walk::Bad(1));
    };
    let children = cert.children.as_slice();
    if premises.len() != children.len() {
        return Ok(Walk::Bad(1));
    }
    let mut met = 1u64;
    for child in children {
        let premise = premises.remove(0);
        let inner = counts.of_premise(&premise);
        let entered = way.enter(premise)?;
        let told = walk_over(alloc, sets, way, entered.aim(goal), inner, child)?;
        way.leave(entered);
        match told {
            Walk::Fine(nodes) => met = met.saturating_add(nodes),
            Walk::Bad(node) => return Ok(Walk::Bad(met.saturating_add(node))),
        }
    }
    Ok(Walk::Fine(met))
}

fn walk_from_root(
    alloc: Global,
    sets: &SetTable,
    sequent: &Sequent,
    cert: &Cert,
) -> Result<Walk, Memory>
    ensures { IfOk result (λ w. Tells (sizes_of sets.now) w cert.now (claim_of sequent.now)) }
{
    let counts = Counts {
        hypotheses: formulas_nodes(&sequent.hypotheses),
        goal: nodes(&sequent.goal),
    };
    let mut way = Way::new(alloc, sequent)?;
    walk_over(alloc, sets, &mut way, &sequent.goal, counts, cert)
}

/// Whether the certificate derives the sequent.
///
/// # Errors
/// `Bad` where it does not derive it, with its first bad node; `Memory`.
pub fn check(
    alloc: Global,
    sets: &SetTable,
    sequent: &Sequent,
    cert: &Cert,
) -> Result<(), CheckFault>
    ensures derived { OnOk result (Derives (sizes_of sets.now) cert.now (claim_of sequent.now)) }
    ensures refused { IfErr result (λ fault. Refuses (sizes_of sets.now) fault cert.now (claim_of sequent.now)) }
{
    match walk_from_root(alloc, sets, sequent, cert) {
        Ok(Walk::Fine(_)) => Ok(()),
        Ok(Walk::Bad(node)) => Err(CheckFault::Bad { node }),
        Err(_) => Err(CheckFault::Memory),
    }
}
