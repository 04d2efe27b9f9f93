//! What names stand for, and which of them are known at a place.

ghost use Rattle.std.specs.Prelude.{◌≡◌, IfOk};
ghost use Rattle.cb_forms.specs.Faults.{first};
ghost use Rattle.cb_forms.specs.Kinds.{maybe_form};
ghost use Rattle.cb_judge.specs.Meanings.{known_form, is_unknown, double_at, double_fault, known_number, known_set};

use cb_forms::fault::{Fault, earlier, later, when};
use cb_forms::form::Form;
use cb_forms::owners::Owners;
use cb_forms::span::at;
use cb_forms::table::Table;
use cb_lex::Memory;
use cb_lex::raw::name::RawName;
use cb_lex::token::Place;
use std::alloc::Global;

/// What a name stands for. Owners are machines, by their numbers.
#[derive(Clone, Copy)]
pub enum Meaning {
    Machine(u32),
    Channel(u32),
    Controller(u32),
    /// An enumerated set, by its number, with the number of its elements.
    Set { owner: u32, set: u32, size: usize },
    Element { owner: u32, set: u32, index: u32 },
    Constant { owner: u32, value: i64 },
    /// A variable of a machine.
    Variable { owner: u32, form: Form },
    /// A parameter or an ANY's variable.
    Local(Form),
    /// A bound variable, with the number of names that are known around it.
    Bound { level: usize, form: Form },
    /// A result, which can be assigned to and not be read.
    Result,
    /// A name that is bound to nothing that is declared: its form is not known.
    Unformed,
    /// A word that no name may have.
    Reserved,
}

/// A name's meaning, and where it is declared.
#[derive(Clone, Copy)]
pub struct Entry {
    pub meaning: Meaning,
    pub place: Place,
}

/// What is known at a place in a text.
#[derive(Drop)]
pub struct View {
    /// The machine whose variables can be assigned to.
    pub machine: u32,
    /// The machines whose sets and constants are known.
    pub sees: Owners,
    /// The machines whose variables can be read.
    pub reads: Owners,
}

/// The form of a term that is a name with this entry, where it is known.
pub fn known(view: &View, entry: Option<Entry>) -> Option<Form>
    ensures { maybe_form result ≡ known_form view.now entry }
{
    match entry {
        None => None,
        Some(e) => match e.meaning {
            Meaning::Set {
                owner,
                set,
                size: _,
            } => {
                if view.sees.has(owner) {
                    Some(Form::Elements(set))
                } else {
                    None
                }
            }
            Meaning::Element {
                owner,
                set,
                index: _,
            } => {
                if view.sees.has(owner) {
                    Some(Form::Element(set))
                } else {
                    None
                }
            }
            Meaning::Constant { owner, value } => {
                if view.sees.has(owner) {
                    Some(Form::Number(at(value)))
                } else {
                    None
                }
            }
            Meaning::Variable { owner, form } => {
                if view.reads.has(owner) {
                    Some(form)
                } else {
                    None
                }
            }
            Meaning::Local(form) => Some(form),
            Meaning::Bound { level: _, form } => Some(form),
            _ => None,
        },
    }
}

/// Whether the name may not stand here as a term.
pub fn names_unknown(view: &View, entry: Option<Entry>) -> bool
    ensures { result ≡ is_unknown view.now entry }
{
    match entry {
        None => true,
        Some(e) => known(view, entry).is_none() && !matches!(e.meaning, Meaning::Unformed),
    }
}

/// The number of a constant that is known.
pub fn constant(view: &View, entry: Option<Entry>) -> Option<i64>
    ensures { result ≡ known_number view.now entry }
{
    match entry {
        Some(
            Entry {
                meaning: Meaning::Constant { owner, value },
                place: _,
            },
        ) => {
            if view.sees.has(owner) {
                Some(value)
            } else {
                None
            }
        }
        _ => None,
    }
}

/// The number of an enumerated set that is known, and the number of its elements.
pub fn set_size(view: &View, entry: Option<Entry>) -> Option<(u32, usize)>
    ensures { result ≡ known_set view.now entry }
{
    match entry {
        Some(
            Entry {
                meaning: Meaning::Set { owner, set, size },
                place: _,
            },
        ) => {
            if view.sees.has(owner) {
                Some((set, size))
            } else {
                None
            }
        }
        _ => None,
    }
}

fn double_of(name: &RawName, entry: Option<Entry>) -> Option<Fault>
    ensures { result ≡ first (double_at name.now.place entry) }
{
    match entry {
        Some(e) => when(true, 1, later(name.place, e.place)),
        None => None,
    }
}

/// The fault of a name that is declared where another of its spelling is known, at the later of the two. Where a local stands beside
/// that other, it is compared too.
pub fn double(alloc: Global, names: &Table<Entry>, name: &RawName) -> Result<Option<Fault>, Memory>
    ensures { IfOk result (λ f. f ≡ first (double_fault names.now name.now)) }
{
    match names.find(name.text.as_slice()) {
        Some(e) => {
            let local = names.find_again(alloc, name.text.as_slice())?;
            Ok(earlier(double_of(name, Some(e)), double_of(name, local)))
        }
        None => Ok(None),
    }
}
