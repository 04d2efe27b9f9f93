//! Forms and faults of terms and formulas.

ghost use Rattle.std.specs.Prelude.{◌≡◌, IfOk, OnOk};
ghost use Rattle.cb_forms.specs.Faults.{first};
ghost use Rattle.cb_forms.specs.Kinds.{form_of, maybe_form};
ghost use Rattle.cb_spec.specs.Forms.{Numbers as numbers_from};
ghost use Rattle.cb_judge.specs.Judged.{place_of, literal_of, atom_form, is_up_to, is_membership, size_unless, chosen_fault, form_in, fault_in, fault_of, under};

use crate::domain::{Choice, MAXINT, choice_fault, form_or_zero, typing};
use crate::names::{Entry, Meaning, View, double, known, names_unknown};
use cb_forms::fault::{Fault, earlier, when};
use cb_forms::form::{Form, add_item, negation, suits_set};
use cb_forms::signs::{combine, division, not_number, not_set, operands, sides, size};
use cb_forms::span::{Span, at};
use cb_forms::table::Table;
use cb_lex::Memory;
use cb_lex::raw::name::RawName;
use cb_lex::raw::sign::{RawAtom, RawOperator, RawRelation};
use cb_lex::raw::term::{RawFormula, RawFormulaNode, RawTerm, RawTermNode};
use cb_lex::token::Place;
use std::alloc::Global;

/// The form of a term, where its head tells it, and its first fault.
#[derive(Clone, Copy)]
pub struct Seen {
    pub form: Option<Form>,
    pub fault: Option<Fault>,
}

/// The place of a term: of a binary term its sign, of any other its first token.
pub fn place(term: &RawTerm) -> Place
    ensures { result ≡ place_of term.now }
{
    match &term.node {
        RawTermNode::Number { value: _, place } => *place,
        RawTermNode::Name(name) => name.place,
        RawTermNode::Atom { atom: _, place } => *place,
        RawTermNode::Binary {
            operator: _,
            place,
            left: _,
            right: _,
        } => *place,
        RawTermNode::Minus { place, term: _ } => *place,
        RawTermNode::Card { place, term: _ } => *place,
        RawTermNode::TruthOf { place, formula: _ } => *place,
        RawTermNode::Listed { place, terms: _ } => *place,
    }
}

// The number that a term is, if it is a literal without a minus.
fn literal(term: &RawTerm) -> Option<i64>
    ensures { result ≡ literal_of term.now }
{
    match &term.node {
        RawTermNode::Number { value, place: _ } => Some(*value),
        RawTermNode::Atom {
            atom: RawAtom::MaxInt,
            place: _,
        } => Some(MAXINT),
        _ => None,
    }
}

fn numbers(lo: i64, hi: i64) -> Form
    ensures { form_of result ≡ numbers_from lo hi }
{
    Form::Numbers(Span {
        lo: i128::from(lo),
        hi: i128::from(hi),
    })
}

// The form of a word.
fn form_of_atom(atom: RawAtom) -> Form
    ensures { form_of result ≡ atom_form atom }
{
    match atom {
        RawAtom::True => Form::Truth,
        RawAtom::False => Form::Truth,
        RawAtom::MaxInt => Form::Number(at(MAXINT)),
        RawAtom::MinInt => Form::Number(at(-MAXINT)),
        RawAtom::Nat => numbers(0, MAXINT),
        RawAtom::Nat1 => numbers(1, MAXINT),
        RawAtom::Int => numbers(-MAXINT, MAXINT),
        RawAtom::Truths => Form::TruthSet,
    }
}

fn is_range(operator: RawOperator) -> bool
    ensures { result ≡ is_up_to operator }
{
    matches!(operator, RawOperator::UpTo)
}

fn takes_range(relation: RawRelation) -> bool
    ensures { result ≡ is_membership relation }
{
    matches!(
        relation,
        RawRelation::Member | RawRelation::NotMember | RawRelation::Subset
    )
}

fn sized(is_free: bool, form: &Option<Form>, place: Place) -> Option<Fault>
    ensures { result ≡ first (size_unless is_free (maybe_form form.now) place) }
{
    if is_free { None } else { size(form, place) }
}

/// The faults of a name that is declared with the domain that its formula gives it.
pub fn chosen(
    alloc: Global,
    names: &Table<Entry>,
    name: &RawName,
    choice: &Option<Choice>,
) -> Result<Option<Fault>, Memory>
    ensures { IfOk result (λ f. f ≡ first (chosen_fault names.now name.now choice.now)) }
{
    let twice = double(alloc, names, name)?;
    Ok(earlier(twice, choice_fault(choice, name.place)))
}

// Adds a bound variable.
pub fn enter(
    alloc: Global,
    names: &mut Table<Entry>,
    name: &RawName,
    choice: &Option<Choice>,
) -> Result<(), Memory>
    ensures { OnOk result (names.new ≡ under name.now choice.now names.old) }
{
    let meaning = Meaning::Bound {
        level: names.len(),
        form: form_or_zero(choice),
    };
    let place = name.place;
    names.enter_beside(alloc, name.text.as_slice(), Entry { meaning, place })
}

/// Judges a term, which stands directly to the right of `:`, `/:` or `<:`, or does not. The table ends as it began.
#[cycle(judge)]
pub fn judge_term(
    alloc: Global,
    view: &View,
    names: &mut Table<Entry>,
    on_right: bool,
    term: &RawTerm,
) -> Result<Seen, Memory>
    ensures form { IfOk result (λ s. maybe_form s.form ≡ form_in view.now names.old term.now) }
    ensures fault { IfOk result (λ s. s.fault ≡ first (fault_in view.now names.old on_right term.now)) }
    ensures kept { OnOk result (names.new ≡ names.old) }
{
    match &term.node {
        RawTermNode::Number { value, place } => {
            let form = Some(Form::Number(at(*value)));
            Ok(Seen {
                form,
                fault: size(&form, *place),
            })
        }
        RawTermNode::Name(name) => {
            let entry = names.find(name.text.as_slice());
            let form = known(view, entry);
            let unknown = when(names_unknown(view, entry), 2, name.place);
            Ok(Seen {
                form,
                fault: earlier(unknown, size(&form, name.place)),
            })
        }
        RawTermNode::Atom { atom, place } => {
            let form = Some(form_of_atom(*atom));
            Ok(Seen {
                form,
                fault: sized(on_right, &form, *place),
            })
        }
        RawTermNode::Binary {
            operator,
            place: sign,
            left,
            right,
        } => {
            let a = judge_term(alloc, view, names, false, left)?;
            let b = judge_term(alloc, view, names, false, right)?;
            let divisor = literal(right);
            let form = combine(*operator, divisor, &a.form, &b.form);
            let own = earlier(
                operands(*operator, &a.form, place(left), &b.form, place(right)),
                division(*operator, &a.form, divisor, *sign),
            );
            let wide = sized(on_right && is_range(*operator), &form, *sign);
            Ok(Seen {
                form,
                fault: earlier(earlier(a.fault, b.fault), earlier(own, wide)),
            })
        }
        RawTermNode::Minus {
            place: sign,
            term: operand,
        } => {
            let a = judge_term(alloc, view, names, false, operand)?;
            let form = Some(negation(&a.form));
            let own = earlier(not_number(&a.form, place(operand)), size(&form, *sign));
            Ok(Seen {
                form,
                fault: earlier(a.fault, own),
            })
        }
        RawTermNode::Card {
            place: _,
            term: operand,
        } => {
            let a = judge_term(alloc, view, names, false, operand)?;
            let form = Some(Form::Number(Span { lo: 0, hi: 256 }));
            Ok(Seen {
                form,
                fault: earlier(a.fault, not_set(&a.form, place(operand))),
            })
        }
        RawTermNode::TruthOf { place: _, formula } => Ok(Seen {
            form: Some(Form::Truth),
            fault: judge_formula(alloc, view, names, formula)?,
        }),
        RawTermNode::Listed {
            place: start,
            terms,
        } => {
            let mut form = Form::Empty;
            let mut fault = None;
            for item in terms.as_slice() {
                let a = judge_term(alloc, view, names, false, item)?;
                let clash = when(!suits_set(&form, &a.form), 5, place(item));
                fault = earlier(fault, earlier(a.fault, clash));
                form = add_item(&form, &a.form);
            }
            let form = Some(form);
            Ok(Seen {
                form,
                fault: earlier(fault, size(&form, *start)),
            })
        }
    }
}

/// The first fault of a formula. The table ends as it began.
#[cycle(judge)]
pub fn judge_formula(
    alloc: Global,
    view: &View,
    names: &mut Table<Entry>,
    formula: &RawFormula,
) -> Result<Option<Fault>, Memory>
    ensures fault { IfOk result (λ f. f ≡ first (fault_of view.now names.old formula.now)) }
    ensures kept { OnOk result (names.new ≡ names.old) }
{
    match &formula.node {
        RawFormulaNode::True => Ok(None),
        RawFormulaNode::False => Ok(None),
        RawFormulaNode::Not(operand) => Ok(judge_formula(alloc, view, names, operand)?),
        RawFormulaNode::And(left, right) => {
            let f = judge_formula(alloc, view, names, left)?;
            let g = judge_formula(alloc, view, names, right)?;
            Ok(earlier(f, g))
        }
        RawFormulaNode::Or(left, right) => {
            let f = judge_formula(alloc, view, names, left)?;
            let g = judge_formula(alloc, view, names, right)?;
            Ok(earlier(f, g))
        }
        RawFormulaNode::Implies(left, right) => {
            let f = judge_formula(alloc, view, names, left)?;
            let g = judge_formula(alloc, view, names, right)?;
            Ok(earlier(f, g))
        }
        RawFormulaNode::Equivalent(left, right) => {
            let f = judge_formula(alloc, view, names, left)?;
            let g = judge_formula(alloc, view, names, right)?;
            Ok(earlier(f, g))
        }
        RawFormulaNode::Relation {
            relation,
            place: _,
            left,
            right,
        } => {
            let a = judge_term(alloc, view, names, false, left)?;
            let b = judge_term(alloc, view, names, takes_range(*relation), right)?;
            let own = sides(*relation, &a.form, place(left), &b.form, place(right));
            Ok(earlier(earlier(a.fault, b.fault), own))
        }
        RawFormulaNode::Every { name, domain, body } => {
            let choice = typing(names, view, name.text.as_slice(), domain);
            let own = chosen(alloc, names, name, &choice)?;
            let outside = names.len();
            enter(alloc, names, name, &choice)?;
            let f = judge_formula(alloc, view, names, domain)?;
            let g = judge_formula(alloc, view, names, body)?;
            names.leave(outside);
            Ok(earlier(own, earlier(f, g)))
        }
        RawFormulaNode::Exists { name, body } => {
            let choice = typing(names, view, name.text.as_slice(), body);
            let own = chosen(alloc, names, name, &choice)?;
            let outside = names.len();
            enter(alloc, names, name, &choice)?;
            let f = judge_formula(alloc, view, names, body)?;
            names.leave(outside);
            Ok(earlier(own, f))
        }
    }
}
