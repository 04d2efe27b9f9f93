//! Parameters of definitions.

ghost use Rattle.std.specs.Prelude.{◌≡◌, [], IfOk, OnOk, map};
ghost use Rattle.cb_controls.specs.Sets.{sets_of};
ghost use Rattle.cb_forms.specs.Faults.{first};
ghost use Rattle.cb_forms.specs.Kinds.{maybe_form};
ghost use Rattle.cb_judge.specs.Substs.{chosen_form};
ghost use Rattle.cb_text_laws.specs.ControllerFaults as spec;
ghost use Rattle.cb_text_laws.specs.Signatures as signatures;
ghost use Rattle.cb_types.specs.Declares.{declare_fault, declared, with_choice};
ghost use Rattle.cb_types.specs.declared.declare.Sort.TheVariants.{Parameter as parameter};

use cb_forms::fault::{Fault, earlier};
use cb_forms::form::Form;
use cb_forms::signs::size;
use cb_forms::table::Table;
use cb_judge::domain::{Choice, domain, form, form_or_zero, unknown_in_domain};
use cb_judge::names::{Entry, View};
use cb_lex::Memory;
use cb_lex::raw::domain::{RawDomain, RawParam};
use cb_lex::raw::name::RawName;
use cb_term::kind::Domain;
use cb_types::declare::{Sort, declare_typed};
use sqlite_items::Items;
use std::alloc::Global;
use std::slice::from_ref;

// The sets of what is in the domain.
fn sets(choice: Option<Choice>) -> Option<Choice>
    ensures { result ≡ sets_of choice }
{
    match choice {
        None => None,
        Some(c) => match c.domain {
            Domain::Range { lo, hi } => Some(Choice {
                domain: Domain::Subsets { lo, hi },
                size: c.size,
            }),
            Domain::Elems(set) => Some(Choice {
                domain: Domain::ElemSubsets(set),
                size: c.size,
            }),
            _ => None,
        },
    }
}

// The domain that is written after `<:`.
fn subset(view: &View, names: &Table<Entry>, raw: &RawDomain) -> Option<Choice>
    ensures { result ≡ signatures.subset_in view.now names.now raw.now }
{
    match raw {
        RawDomain::Range { .. } | RawDomain::Name(_) => sets(domain(names, view, raw)),
        _ => None,
    }
}

fn param_name(param: &RawParam) -> &RawName
    ensures { result.now ≡ signatures.param_name param.now }
{
    match param {
        RawParam::Member { name, .. } | RawParam::Subset { name, .. } => name,
    }
}

fn param_domain(param: &RawParam) -> &RawDomain
    ensures { result.now ≡ signatures.param_domain param.now }
{
    match param {
        RawParam::Member { domain, .. } | RawParam::Subset { domain, .. } => domain,
    }
}

fn param_choice(view: &View, names: &Table<Entry>, param: &RawParam) -> Option<Choice>
    ensures { result ≡ signatures.param_choice view.now names.now param.now }
{
    match param {
        RawParam::Member { domain: raw, .. } => domain(names, view, raw),
        RawParam::Subset { domain: raw, .. } => subset(view, names, raw),
    }
}

fn form_of_choice(choice: &Option<Choice>) -> Option<Form>
    ensures { maybe_form result ≡ chosen_form choice.now }
{
    match choice {
        None => None,
        Some(c) => Some(form(&c.domain)),
    }
}

// A name in the domain that is unknown, or a domain whose numbers are too wide.
fn param_fault(view: &View, names: &Table<Entry>, param: &RawParam) -> Option<Fault>
    ensures { result ≡ first (spec.param_fault view.now names.now param.now) }
{
    let choice = param_choice(view, names, param);
    earlier(
        unknown_in_domain(names, view, param_domain(param)),
        size(&form_of_choice(&choice), param_name(param).place),
    )
}

/// The first fault of the domains of parameters.
pub fn params_fault(view: &View, names: &Table<Entry>, params: &[RawParam]) -> Option<Fault>
    ensures { result ≡ first (spec.params_fault view.now names.now params.now) }
{
    let mut fault = None;
    for param in params {
        fault = earlier(fault, param_fault(view, names, param));
    }
    fault
}

fn add_choice(
    alloc: Global,
    domains: &mut Table<Choice>,
    name: &[u8],
    choice: Option<Choice>,
) -> Result<(), Memory>
    ensures { OnOk result (domains.new ≡ with_choice name.now choice domains.old) }
{
    match choice {
        None => Ok(()),
        Some(c) => domains.enter(alloc, name, c),
    }
}

/// The domain of each parameter that has one, by its name.
pub fn parameter_domains(
    alloc: Global,
    view: &View,
    names: &Table<Entry>,
    params: &[RawParam],
) -> Result<Table<Choice>, Memory>
    ensures { IfOk result (λ ds. ds ≡ signatures.parameters_from view.now names.now [] params.now) }
{
    let mut domains = Table::new(alloc);
    for param in params {
        let choice = param_choice(view, names, param);
        add_choice(
            alloc,
            &mut domains,
            param_name(param).text.as_slice(),
            choice,
        )?;
    }
    Ok(domains)
}

/// The forms of parameters with these domains.
pub fn forms_in(
    alloc: Global,
    domains: &Table<Choice>,
    params: &[RawParam],
) -> Result<Items<Form>, Memory>
    ensures { IfOk result (λ fs. fs ≡ signatures.forms_of domains.now (map signatures.param_name params.now)) }
{
    let mut forms = Items::new(alloc);
    for param in params {
        let choice = domains.find(param_name(param).text.as_slice());
        forms.push(form_or_zero(&choice))?;
    }
    Ok(forms)
}

/// Declares parameters with these domains.
pub fn declare_params(
    alloc: Global,
    names: &mut Table<Entry>,
    domains: &Table<Choice>,
    params: &[RawParam],
) -> Result<Option<Fault>, Memory>
    ensures names { OnOk result (names.new ≡ declared parameter [] domains.now 0 names.old (map signatures.param_name params.now)) }
    ensures fault { IfOk result (λ f. f ≡ first (declare_fault parameter [] domains.now 0 names.old (map signatures.param_name params.now))) }
{
    let mut fault = None;
    for param in params {
        let own = declare_typed(
            alloc,
            names,
            Sort::Parameter,
            domains,
            from_ref(param_name(param)),
        )?;
        fault = earlier(fault, own);
    }
    Ok(fault)
}
