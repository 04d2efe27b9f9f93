//! Definitions: their names, their parameters, and what calls of them are given.

ghost use Rattle.std.specs.Prelude.{◌≡◌, [], IfOk, OnOk, get_or};
ghost use Rattle.cb_controls.specs.SameDefinitions.{AreSame, number_of};
ghost use Rattle.cb_forms.specs.Faults.{first};
ghost use Rattle.cb_forms.specs.Find.{found};
ghost use Rattle.cb_text_laws.specs.ControllerFaults as spec;
ghost use Rattle.cb_text_laws.specs.Signatures.{definitions_from, inside_definition, parameter_forms, parameters_of};
ghost use Rattle.cb_types.specs.MachineFaults.{again, with_seen};

use crate::parameters::{declare_params, forms_in, parameter_domains, params_fault};
use cb_forms::fault::{Fault, earlier, when};
use cb_forms::form::Form;
use cb_forms::table::Table;
use cb_judge::names::{Entry, View};
use cb_lex::Memory;
use cb_lex::raw::name::RawName;
use cb_lex::raw::text::RawDefinition;
use cb_lex::token::Place;
use cb_types::declare::next_number;
use sqlite_items::Items;
use std::alloc::Global;
use std::marker::Model;

fn stands_again(seen: &Table<Place>, name: &RawName) -> Option<Fault>
    ensures { result ≡ first (again seen.now name.now) }
{
    when(seen.find(name.text.as_slice()).is_some(), 1, name.place)
}

fn note(alloc: Global, seen: &mut Table<Place>, name: &RawName) -> Result<(), Memory>
    ensures { OnOk result (seen.new ≡ with_seen name.now seen.old) }
{
    seen.enter(alloc, name.text.as_slice(), name.place)
}

/// The first fault of the names of a controller's definitions: one that stands twice.
pub fn definition_names_fault(
    alloc: Global,
    definitions: &[RawDefinition],
) -> Result<Option<Fault>, Memory>
    ensures { IfOk result (λ f. f ≡ first (spec.definition_names_fault [] definitions.now)) }
{
    let mut fault = None;
    let mut seen = Table::new(alloc);
    for definition in definitions {
        fault = earlier(fault, stands_again(&seen, &definition.name));
        note(alloc, &mut seen, &definition.name)?;
    }
    Ok(fault)
}

// The number of a definition, and the place of its parameters' forms.
#[derive(Clone, Copy)]
struct Head {
    number: u32,
    forms: usize,
}

/// The definitions of a controller by their names: the number of each, and the forms of its parameters.
#[derive(Drop)]
pub struct Definitions {
    heads: Table<Head>,
    forms: Items<Items<Form>>,
}

impl Model for Definitions {
    ghost use Rattle.cb_text_laws.specs.Signatures.{Definitions};
    ghost use Rattle.cb_controls.specs.Heads.{definitions_at};

    ghost Value = { Definitions };

    ghost view = { λ d. definitions_at d.forms d.heads };
}

fn forms_at(forms: &[Items<Form>], at: usize) -> &[Form]
    ensures { result.now ≡ get_or forms.now at [] }
{
    match forms.get(at) {
        None => &[],
        Some(own) => own.as_slice(),
    }
}

impl Definitions {
    /// The number of the definition of this name.
    pub fn number(&self, name: &[u8]) -> Option<u32>
        ensures { result ≡ number_of (found name.now self.now) }
    {
        match self.heads.find(name) {
            None => None,
            Some(head) => Some(head.number),
        }
    }

    /// The forms of the parameters of the definition of this name; none where there is no such definition.
    pub fn parameters(&self, name: &[u8]) -> &[Form]
        ensures { result.now ≡ parameters_of (found name.now self.now) }
    {
        match self.heads.find(name) {
            None => &[],
            Some(head) => forms_at(self.forms.as_slice(), head.forms),
        }
    }
}

fn forms_of_parameters(
    alloc: Global,
    view: &View,
    names: &Table<Entry>,
    definition: &RawDefinition,
) -> Result<Items<Form>, Memory>
    ensures { IfOk result (λ fs. fs ≡ parameter_forms view.now names.now definition.now) }
{
    let params = definition.parameters.as_slice();
    let domains = parameter_domains(alloc, view, names, params)?;
    forms_in(alloc, &domains, params)
}

/// The definitions of a controller, of which the first of each name is kept.
pub fn definitions_of(
    alloc: Global,
    view: &View,
    names: &Table<Entry>,
    definitions: &[RawDefinition],
) -> Result<Definitions, Memory>
    ensures { IfOk result (λ t. AreSame t (definitions_from view.now names.now 0 definitions.now)) }
{
    let mut heads = Table::new(alloc);
    let mut forms = Items::new(alloc);
    let mut number = 0;
    for definition in definitions {
        let own = forms_of_parameters(alloc, view, names, definition)?;
        let head = Head {
            number,
            forms: forms.len(),
        };
        heads.enter(alloc, definition.name.text.as_slice(), head)?;
        forms.push(own)?;
        number = next_number(number);
    }
    Ok(Definitions { heads, forms })
}

/// Declares the parameters of a definition, where the names outside are known.
#[tactic(auto, unfolding(cb_text_laws::specs::ControllerFaults::parameters_fault))]
pub fn declare_parameters(
    alloc: Global,
    view: &View,
    names: &mut Table<Entry>,
    definition: &RawDefinition,
) -> Result<Option<Fault>, Memory>
    ensures names { OnOk result (names.new ≡ inside_definition view.now names.old definition.now) }
    ensures fault { IfOk result (λ f. f ≡ first (spec.parameters_fault view.now names.old definition.now)) }
{
    let params = definition.parameters.as_slice();
    let domains = parameter_domains(alloc, view, names, params)?;
    let unfit = params_fault(view, names, params);
    let declared = declare_params(alloc, names, &domains, params)?;
    let many = when(params.len() > 8, 22, definition.name.place);
    Ok(earlier(unfit, earlier(declared, many)))
}
