//! The premises of the rules on sets and elements. Of a sequent a rule copies only the formulas and terms that it names.

ghost use Rattle.std.specs.Prelude.{◌≡◌, pos, IfOk, Some, [], ◌∷◌};
ghost use Rattle.std.specs.Option.{option_copied};
ghost use Rattle.cb_term.specs.Table.{sizes_of};
ghost use Rattle.cb_term.specs.Tree as tree;
ghost use Rattle.cb_term.specs.declared.sign.TermSign.TheVariants as TermSign;
ghost use Rattle.cb_seq.specs.Premises.{claim_at, proving, adding};
ghost use Rattle.cb_check_sets.specs.SetRules as spec;

use crate::members::{membership, outside, relation};
use cb_seq::kinds::{kind_of, rel_kinds, size_of_set};
use cb_seq::premise::{Premise, Premises, SequentRef, fresh, hypothesis};
use cb_seq::rule::{Rule, TermArgument};
use cb_term::Memory;
use cb_term::kind::{Base, Kind};
use cb_term::name::{Name, NameText};
use cb_term::sign::{RelSign, TermSign};
use cb_term::table::SetTable;
use cb_term::tree::{Formula, FormulaNode, Term};
use sqlite_items::Items;
use std::alloc::{AllocError, Global};

// One premise.
fn one(alloc: Global, premise: Premise) -> Result<Option<Premises>, Memory>
    ensures { IfOk result (λ o. o ≡ Some (premise ∷ [])) }
{
    let mut premises = Items::new(alloc);
    premises.push(premise)?;
    Ok(Some(premises))
}

// Two premises.
fn two(alloc: Global, first: Premise, second: Premise) -> Result<Option<Premises>, Memory>
    ensures { IfOk result (λ o. o ≡ Some (first ∷ second ∷ [])) }
{
    let mut premises = Items::new(alloc);
    premises.push(first)?;
    premises.push(second)?;
    Ok(Some(premises))
}

fn only_fact(alloc: Global, fact: Formula) -> Result<Items<Formula>, Memory>
    ensures { IfOk result (λ fs. fs ≡ fact ∷ []) }
{
    let mut facts = Items::new(alloc);
    facts.push(fact)?;
    Ok(facts)
}

// The premise with this further hypothesis.
fn with(alloc: Global, fact: Formula) -> Result<Premise, Memory>
    ensures { IfOk result (λ p. p ≡ adding (fact ∷ [])) }
{
    Ok(Premise::adding(only_fact(alloc, fact)?))
}

// The premise with the relation between copies of the terms as its goal.
fn proves(alloc: Global, sign: RelSign, left: &Term, right: &Term) -> Result<Premise, Memory>
    ensures { IfOk result (λ p. p ≡ proving (tree.Rel sign left.now right.now)) }
{
    Ok(Premise::proving(alloc, relation(alloc, sign, left, right)?))
}

// ---- kinds

fn is_set(kind: Option<Kind>) -> bool
    ensures { result ≡ spec.is_set kind }
{
    match kind {
        Some(Kind::SetOf(_)) | Some(Kind::EmptySet) => true,
        _ => false,
    }
}

fn is_item_of(kind: Kind, set: Option<Kind>) -> bool
    ensures { result ≡ spec.is_item_of kind set }
{
    match set {
        Some(set) => rel_kinds(RelSign::Member, kind, set),
        None => false,
    }
}

fn kind_of_base(base: Base) -> Kind
    ensures { result ≡ spec.kind_of_base base }
{
    match base {
        Base::Integer => Kind::Integer,
        Base::Truth => Kind::Truth,
        Base::Elem(set) => Kind::Elem(set),
    }
}

fn item_kind(first: Option<Kind>, second: Option<Kind>) -> Kind
    ensures { result ≡ spec.item_kind first second }
{
    match (first, second) {
        (Some(Kind::SetOf(base)), _) => kind_of_base(base),
        (_, Some(Kind::SetOf(base))) => kind_of_base(base),
        _ => Kind::Integer,
    }
}

// ---- members

// MEMBER
fn member_right(alloc: Global, goal: &Formula) -> Result<Option<Premises>, Memory>
    ensures { IfOk result (λ o. o ≡ spec.member_right goal.now) }
{
    match &goal.node {
        FormulaNode::Rel {
            sign: RelSign::Member,
            left,
            right,
        } => match membership(alloc, left, right)? {
            Some(says) => one(alloc, Premise::proving(alloc, says)),
            None => Ok(None),
        },
        _ => Ok(None),
    }
}

// MEMBERL
fn member_left(alloc: Global, fact: Option<&Formula>) -> Result<Option<Premises>, Memory>
    ensures { IfOk result (λ o. o ≡ spec.member_left (option_copied fact.entry)) }
{
    let Some(fact) = fact else {
        return Ok(None);
    };
    match &fact.node {
        FormulaNode::Rel {
            sign: RelSign::Member,
            left,
            right,
        } => match membership(alloc, left, right)? {
            Some(says) => one(alloc, with(alloc, says)?),
            None => Ok(None),
        },
        _ => Ok(None),
    }
}

// ---- parts

// The item with the name is in the set.
fn named_member(alloc: Global, name: &Name, set: &Term) -> Result<Formula, Memory>
    ensures { IfOk result (λ f. f ≡ tree.Rel RelSign.Member (tree.Var name.now) set.now) }
{
    let item = Term::var(name.copy(alloc)?);
    Ok(Formula::rel(RelSign::Member, item, set.copy(alloc)?))
}

// Two in one, so that few trees are held while there may be no memory: the hypotheses and the goal of SUBSET's premise.
fn named_members(
    alloc: Global,
    name: &Name,
    inner: &Term,
    outer: &Term,
) -> Result<(Items<Formula>, Formula), Memory>
    ensures facts { IfOk result (λ p. p.0 ≡ tree.Rel RelSign.Member (tree.Var name.now) inner.now ∷ []) }
    ensures goal { IfOk result (λ p. p.1 ≡ tree.Rel RelSign.Member (tree.Var name.now) outer.now) }
{
    let facts = only_fact(alloc, named_member(alloc, name, inner)?)?;
    let goal = named_member(alloc, name, outer)?;
    Ok((facts, goal))
}

fn opened_item(
    alloc: Global,
    inner: &Term,
    outer: &Term,
    kind: Kind,
    name: Name,
) -> Result<Premise, Memory>
    ensures { IfOk result (λ p. Some (p ∷ []) ≡ spec.each_item inner.now outer.now kind (Some name)) }
{
    let (added, goal) = named_members(alloc, &name, inner, outer)?;
    Ok(Premise {
        goal: Some(goal),
        added,
        opened: Some((name, kind)),
    })
}

// The premise of SUBSET, with its fresh name.
fn each_item(
    alloc: Global,
    inner: &Term,
    outer: &Term,
    kind: Kind,
    name: Option<Name>,
) -> Result<Option<Premises>, Memory>
    ensures { IfOk result (λ o. o ≡ spec.each_item inner.now outer.now kind name) }
{
    match name {
        Some(name) => one(alloc, opened_item(alloc, inner, outer, kind, name)?),
        None => Ok(None),
    }
}

// SUBSET
fn subset_right(
    alloc: Global,
    sets: &SetTable,
    sequent: &SequentRef,
) -> Result<Option<Premises>, Memory>
    ensures { IfOk result (λ o. o ≡ spec.subset_right (sizes_of sets.now) sequent.now.names.now sequent.now.goal.now) }
{
    let goal = sequent.goal;
    match &goal.node {
        FormulaNode::Rel {
            sign: RelSign::Subset,
            left,
            right,
        } => {
            let kind = item_kind(
                kind_of(alloc, sets, sequent.names, &[], left)?,
                kind_of(alloc, sets, sequent.names, &[], right)?,
            );
            let text = NameText::from_slice(alloc, b"e")?;
            let name = fresh(alloc, sequent.names, &text)?;
            each_item(alloc, left, right, kind, name)
        }
        _ => Ok(None),
    }
}

// The premise of SUBSETL.
fn passed_on(
    alloc: Global,
    item: &Term,
    inner: &Term,
    outer: &Term,
) -> Result<Option<Premises>, Memory>
    ensures { IfOk result (λ o. o ≡ Some (adding (tree.Implies (tree.Rel RelSign.Member item.now inner.now) (tree.Rel RelSign.Member item.now outer.now) ∷ []) ∷ [])) }
{
    let inside = relation(alloc, RelSign::Member, item, inner)?;
    let then = relation(alloc, RelSign::Member, item, outer)?;
    let implication = Formula::implies(alloc, inside, then)?;
    one(alloc, with(alloc, implication)?)
}

// SUBSETL
fn subset_left(
    alloc: Global,
    sets: &SetTable,
    names: &[(Name, Kind)],
    argument: &TermArgument,
    fact: Option<&Formula>,
) -> Result<Option<Premises>, Memory>
    ensures { IfOk result (λ o. o ≡ spec.subset_left (sizes_of sets.now) names.now argument.now (option_copied fact.entry)) }
{
    let (TermArgument::Term { term, kind }, Some(fact)) = (argument, fact) else {
        return Ok(None);
    };
    match &fact.node {
        FormulaNode::Rel {
            sign: RelSign::Subset,
            left,
            right,
        } => {
            if is_item_of(*kind, kind_of(alloc, sets, names, &[], left)?)
                && is_item_of(*kind, kind_of(alloc, sets, names, &[], right)?)
            {
                passed_on(alloc, term, left, right)
            } else {
                Ok(None)
            }
        }
        _ => Ok(None),
    }
}

// The premises of EXT.
fn both_subsets(alloc: Global, left: &Term, right: &Term) -> Result<Option<Premises>, Memory>
    ensures { IfOk result (λ o. o ≡ Some (proving (tree.Rel RelSign.Subset left.now right.now) ∷ proving (tree.Rel RelSign.Subset right.now left.now) ∷ [])) }
{
    let first = proves(alloc, RelSign::Subset, left, right)?;
    let second = proves(alloc, RelSign::Subset, right, left)?;
    two(alloc, first, second)
}

// EXT
fn extension(
    alloc: Global,
    sets: &SetTable,
    sequent: &SequentRef,
) -> Result<Option<Premises>, Memory>
    ensures { IfOk result (λ o. o ≡ spec.extension (sizes_of sets.now) sequent.now.names.now sequent.now.goal.now) }
{
    let goal = sequent.goal;
    match &goal.node {
        FormulaNode::Rel {
            sign: RelSign::Equal,
            left,
            right,
        } => {
            if is_set(kind_of(alloc, sets, sequent.names, &[], left)?) {
                both_subsets(alloc, left, right)
            } else {
                Ok(None)
            }
        }
        _ => Ok(None),
    }
}

// ---- how many items a set has

fn card(alloc: Global, set: &Term) -> Result<Term, Memory>
    ensures { IfOk result (λ t. t ≡ tree.Card set.now) }
{
    Term::card(alloc, set.copy(alloc)?)
}

// The number of items of the set with the item joined to it, or taken from it.
fn card_with(alloc: Global, sign: TermSign, set: &Term, item: &Term) -> Result<Term, Memory>
    ensures { IfOk result (λ t. t ≡ tree.Card (tree.Bin sign set.now (spec.only item.now))) }
{
    let mut items = Items::new(alloc);
    items.push(item.copy(alloc)?)?;
    let other = Term::bin(alloc, sign, set.copy(alloc)?, Term::listed(items))?;
    Term::card(alloc, other)
}

fn one_more(alloc: Global, number: Term) -> Result<Term, Memory>
    ensures { IfOk result (λ t. t ≡ tree.Bin TermSign.Add number (tree.Num (pos 1))) }
{
    Term::bin(alloc, TermSign::Add, number, Term::num(1))
}

// CARDPOS
fn card_not_negative(alloc: Global, set: &TermArgument) -> Result<Option<Premises>, Memory>
    ensures { IfOk result (λ o. o ≡ spec.card_not_negative set.now) }
{
    match set {
        TermArgument::Term { term, kind } => {
            if is_set(Some(*kind)) {
                let fact = Formula::rel(RelSign::AtMost, Term::num(0), card(alloc, term)?);
                one(alloc, with(alloc, fact)?)
            } else {
                Ok(None)
            }
        }
        TermArgument::Read(_) | TermArgument::Unclear => Ok(None),
    }
}

// The hypothesis of CARDADD.
fn size_added(alloc: Global, set: &Term, item: &Term) -> Result<Premise, Memory>
    ensures { IfOk result (λ p. p ≡ adding (tree.Rel RelSign.Equal (tree.Card (tree.Bin TermSign.Union set.now (spec.only item.now))) (tree.Bin TermSign.Add (tree.Card set.now) (tree.Num (pos 1))) ∷ [])) }
{
    let more = card_with(alloc, TermSign::Union, set, item)?;
    let fact = Formula::rel(RelSign::Equal, more, one_more(alloc, card(alloc, set)?)?);
    with(alloc, fact)
}

// The premises of CARDADD.
fn added_premises(alloc: Global, set: &Term, item: &Term) -> Result<Option<Premises>, Memory>
    ensures { IfOk result (λ o. o ≡ Some (proving (tree.Not (tree.Rel RelSign.Member item.now set.now)) ∷ adding (tree.Rel RelSign.Equal (tree.Card (tree.Bin TermSign.Union set.now (spec.only item.now))) (tree.Bin TermSign.Add (tree.Card set.now) (tree.Num (pos 1))) ∷ []) ∷ [])) }
{
    let is_new = Premise::proving(alloc, outside(alloc, item, set)?);
    let size = size_added(alloc, set, item)?;
    two(alloc, is_new, size)
}

// CARDADD
fn card_added(
    alloc: Global,
    set: &TermArgument,
    item: &TermArgument,
) -> Result<Option<Premises>, Memory>
    ensures { IfOk result (λ o. o ≡ spec.card_added set.now item.now) }
{
    let (
        TermArgument::Term { term: set, kind },
        TermArgument::Term {
            term: item,
            kind: item_kind,
        },
    ) = (set, item)
    else {
        return Ok(None);
    };
    if !rel_kinds(RelSign::Member, *item_kind, *kind) {
        return Ok(None);
    }
    added_premises(alloc, set, item)
}

// The hypothesis of CARDDEL.
fn size_removed(alloc: Global, set: &Term, item: &Term) -> Result<Premise, Memory>
    ensures { IfOk result (λ p. p ≡ adding (tree.Rel RelSign.Equal (tree.Bin TermSign.Add (tree.Card (tree.Bin TermSign.Minus set.now (spec.only item.now))) (tree.Num (pos 1))) (tree.Card set.now) ∷ [])) }
{
    let rest = card_with(alloc, TermSign::Minus, set, item)?;
    let fact = Formula::rel(RelSign::Equal, one_more(alloc, rest)?, card(alloc, set)?);
    with(alloc, fact)
}

// The premises of CARDDEL.
fn removed_premises(alloc: Global, set: &Term, item: &Term) -> Result<Option<Premises>, Memory>
    ensures { IfOk result (λ o. o ≡ Some (proving (tree.Rel RelSign.Member item.now set.now) ∷ adding (tree.Rel RelSign.Equal (tree.Bin TermSign.Add (tree.Card (tree.Bin TermSign.Minus set.now (spec.only item.now))) (tree.Num (pos 1))) (tree.Card set.now) ∷ []) ∷ [])) }
{
    let inside = proves(alloc, RelSign::Member, item, set)?;
    let size = size_removed(alloc, set, item)?;
    two(alloc, inside, size)
}

// CARDDEL
fn card_removed(
    alloc: Global,
    set: &TermArgument,
    item: &TermArgument,
) -> Result<Option<Premises>, Memory>
    ensures { IfOk result (λ o. o ≡ spec.card_removed set.now item.now) }
{
    let (
        TermArgument::Term { term: set, kind },
        TermArgument::Term {
            term: item,
            kind: item_kind,
        },
    ) = (set, item)
    else {
        return Ok(None);
    };
    if !rel_kinds(RelSign::Member, *item_kind, *kind) {
        return Ok(None);
    }
    removed_premises(alloc, set, item)
}

// The hypothesis of CARDSUB.
fn size_within(alloc: Global, inner: &Term, outer: &Term) -> Result<Premise, Memory>
    ensures { IfOk result (λ p. p ≡ adding (tree.Rel RelSign.AtMost (tree.Card inner.now) (tree.Card outer.now) ∷ [])) }
{
    let fact = Formula::rel(RelSign::AtMost, card(alloc, inner)?, card(alloc, outer)?);
    with(alloc, fact)
}

// The premises of CARDSUB.
fn within_premises(alloc: Global, inner: &Term, outer: &Term) -> Result<Option<Premises>, Memory>
    ensures { IfOk result (λ o. o ≡ Some (proving (tree.Rel RelSign.Subset inner.now outer.now) ∷ adding (tree.Rel RelSign.AtMost (tree.Card inner.now) (tree.Card outer.now) ∷ []) ∷ [])) }
{
    let part = proves(alloc, RelSign::Subset, inner, outer)?;
    let size = size_within(alloc, inner, outer)?;
    two(alloc, part, size)
}

// CARDSUB
fn card_within(
    alloc: Global,
    inner: &TermArgument,
    outer: &TermArgument,
) -> Result<Option<Premises>, Memory>
    ensures { IfOk result (λ o. o ≡ spec.card_within inner.now outer.now) }
{
    let (
        TermArgument::Term { term: inner, kind },
        TermArgument::Term {
            term: outer,
            kind: outer_kind,
        },
    ) = (inner, outer)
    else {
        return Ok(None);
    };
    if !rel_kinds(RelSign::Subset, *kind, *outer_kind) {
        return Ok(None);
    }
    within_premises(alloc, inner, outer)
}

// ---- elements

// The premises for each of the elements of the set. A set with more than a u32 can count is want of memory, which the set's
// names would meet first.
fn each_element(alloc: Global, term: &Term, set: u32, size: usize) -> Result<Premises, Memory>
    ensures { IfOk result (λ ps. ps ≡ spec.each_element term.now set 0 size) }
{
    let size = u32::try_from(size).map_err(|_| AllocError)?;
    let mut premises = Items::new(alloc);
    for index in 0..size {
        let element = Term::elem(set, index);
        let fact = Formula::rel(RelSign::Equal, term.copy(alloc)?, element);
        premises.push(with(alloc, fact)?)?;
    }
    Ok(premises)
}

// ELEMS
fn elements(
    alloc: Global,
    sets: &SetTable,
    argument: &TermArgument,
) -> Result<Option<Premises>, Memory>
    ensures { IfOk result (λ o. o ≡ spec.elements (sizes_of sets.now) argument.now) }
{
    match argument {
        TermArgument::Term {
            term,
            kind: Kind::Elem(set),
        } => Ok(Some(each_element(alloc, term, *set, size_of_set(sets, *set))?)),
        _ => Ok(None),
    }
}

/// The premises of a rule on sets or elements, where it applies and its arguments have the kinds that are written with them.
/// None for every other rule.
pub fn set_premises(
    alloc: Global,
    sets: &SetTable,
    sequent: &SequentRef,
    rule: &Rule,
) -> Result<Option<Premises>, Memory>
    ensures { IfOk result (λ o. o ≡ spec.set_premises (sizes_of sets.now) rule.now (claim_at sequent.now)) }
{
    match rule {
        Rule::Elems { term } => elements(alloc, sets, term),
        Rule::Member => member_right(alloc, sequent.goal),
        Rule::MemberL { hypothesis: number } => {
            member_left(alloc, hypothesis(sequent.hypotheses, *number))
        }
        Rule::Subset => subset_right(alloc, sets, sequent),
        Rule::SubsetL {
            hypothesis: number,
            term,
        } => {
            let fact = hypothesis(sequent.hypotheses, *number);
            subset_left(alloc, sets, sequent.names, term, fact)
        }
        Rule::Ext => extension(alloc, sets, sequent),
        Rule::CardPos { set } => card_not_negative(alloc, set),
        Rule::CardAdd { set, item } => card_added(alloc, set, item),
        Rule::CardDel { set, item } => card_removed(alloc, set, item),
        Rule::CardSub { inner, outer } => card_within(alloc, inner, outer),
        _ => Ok(None),
    }
}
