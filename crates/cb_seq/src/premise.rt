//! Premises, told by what they have other than the sequent that they come from, and what rules read of a sequent.

ghost use Rattle.std.specs.Prelude.{◌≡◌, IfOk, None, Some, []};
ghost use Rattle.std.specs.Option.{option_copied};
ghost use Rattle.cb_seq.specs.Validity as validity;
ghost use Rattle.cb_seq.specs.Premises as spec;

use crate::sequent::Sequent;
use cb_term::Memory;
use cb_term::kind::Kind;
use cb_term::name::{Name, NameText};
use cb_term::tree::Formula;
use sqlite_items::Items;
use std::alloc::Global;

/// What a premise has other than the sequent that it comes from.
#[derive(Drop)]
pub struct Premise {
    /// The goal, where it is another one.
    pub goal: Option<Formula>,
    /// What is appended to the hypotheses.
    pub added: Items<Formula>,
    /// The name that joins the names.
    pub opened: Option<(Name, Kind)>,
}

/// Premises in order.
pub type Premises = Items<Premise>;

/// A sequent whose parts stand elsewhere.
#[derive(Drop)]
pub struct SequentRef<'a> {
    pub names: &'a [(Name, Kind)],
    pub hypotheses: &'a [Formula],
    pub goal: &'a Formula,
}

impl Premise {
    /// The same sequent with this goal.
    pub fn proving(alloc: Global, goal: Formula) -> Premise
        ensures { result ≡ spec.proving goal }
    {
        Premise {
            goal: Some(goal),
            added: Items::new(alloc),
            opened: None,
        }
    }

    /// The same sequent with these hypotheses at the end.
    pub fn adding(added: Items<Formula>) -> Premise
        ensures { result ≡ spec.adding added }
    {
        Premise {
            goal: None,
            added,
            opened: None,
        }
    }
}

impl Sequent {
    /// The sequent, read where it stands.
    pub fn as_ref(&self) -> SequentRef<'_>
        ensures { spec.claim_at result ≡ validity.claim_of self.now }
    {
        SequentRef {
            names: self.names.as_slice(),
            hypotheses: self.hypotheses.as_slice(),
            goal: &self.goal,
        }
    }
}

/// The hypothesis with this number, counted from 1.
pub fn hypothesis(hypotheses: &[Formula], number: u64) -> Option<&Formula>
    ensures { option_copied result ≡ spec.hypothesis hypotheses.now number }
{
    if number == 0 {
        None
    } else {
        hypotheses.get((number - 1) as usize)
    }
}

fn greatest(names: &[(Name, Kind)]) -> u32
    ensures { result ≡ spec.greatest names.now }
{
    let mut most = 0;
    for named in names {
        if named.0.number > most {
            most = named.0.number;
        }
    }
    most
}

/// The text with a number one above the greatest among the names, and 1 where there is none. None where the greatest is
/// 4294967295.
pub fn fresh(alloc: Global, names: &[(Name, Kind)], text: &NameText) -> Result<Option<Name>, Memory>
    ensures { IfOk result (λ o. o ≡ spec.fresh names.now text.now) }
{
    let most = greatest(names);
    if most < 4294967295 {
        Ok(Some(Name {
            text: text.copy(alloc)?,
            number: most + 1,
        }))
    } else {
        Ok(None)
    }
}
