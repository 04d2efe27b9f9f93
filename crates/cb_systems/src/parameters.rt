//! Parameters of definitions with their domains.

ghost use Rattle.std.specs.Prelude.{◌≡◌, [], IfOk, OnOk, map};
ghost use Rattle.cb_controls.specs.Sets.{sets_of};
ghost use Rattle.cb_text_laws.specs.Signatures as signatures;
ghost use Rattle.cb_types.specs.Declares.{with_choice};
ghost use Rattle.cb_types.specs.NormalMachines.{declared_name};

use cb_forms::table::Table;
use cb_judge::domain::{Choice, domain};
use cb_judge::names::{Entry, View};
use cb_lex::Memory;
use cb_lex::raw::domain::{RawDomain, RawParam};
use cb_lex::raw::name::RawName;
use cb_normal::formula::{copy_name, domain_or_zero};
use cb_spec::system::Declared;
use cb_term::kind::Domain;
use sqlite_items::Items;
use std::alloc::Global;

// The sets of what is in the domain.
fn sets(choice: Option<Choice>) -> Option<Choice>
    ensures { result ≡ sets_of choice }
{
    match choice {
        None => None,
        Some(c) => match c.domain {
            Domain::Range { lo, hi } => Some(Choice {
                domain: Domain::Subsets { lo, hi },
                size: c.size,
            }),
            Domain::Elems(set) => Some(Choice {
                domain: Domain::ElemSubsets(set),
                size: c.size,
            }),
            _ => None,
        },
    }
}

// The domain that is written after `<:`.
fn subset(view: &View, names: &Table<Entry>, raw: &RawDomain) -> Option<Choice>
    ensures { result ≡ signatures.subset_in view.now names.now raw.now }
{
    match raw {
        RawDomain::Range { .. } | RawDomain::Name(_) => sets(domain(names, view, raw)),
        _ => None,
    }
}

fn param_name(param: &RawParam) -> &RawName
    ensures { result.now ≡ signatures.param_name param.now }
{
    match param {
        RawParam::Member { name, .. } | RawParam::Subset { name, .. } => name,
    }
}

fn param_choice(view: &View, names: &Table<Entry>, param: &RawParam) -> Option<Choice>
    ensures { result ≡ signatures.param_choice view.now names.now param.now }
{
    match param {
        RawParam::Member { domain: raw, .. } => domain(names, view, raw),
        RawParam::Subset { domain: raw, .. } => subset(view, names, raw),
    }
}

fn add_choice(
    alloc: Global,
    domains: &mut Table<Choice>,
    name: &[u8],
    choice: Option<Choice>,
) -> Result<(), Memory>
    ensures { OnOk result (domains.new ≡ with_choice name.now choice domains.old) }
{
    match choice {
        None => Ok(()),
        Some(c) => domains.enter(alloc, name, c),
    }
}

// The domain of each parameter that has one, by its name.
fn domains_of(
    alloc: Global,
    view: &View,
    names: &Table<Entry>,
    params: &[RawParam],
) -> Result<Table<Choice>, Memory>
    ensures { IfOk result (λ ds. ds ≡ signatures.parameters_from view.now names.now [] params.now) }
{
    let mut domains = Table::new(alloc);
    for param in params {
        let choice = param_choice(view, names, param);
        let name = param_name(param).text.as_slice();
        add_choice(alloc, &mut domains, name, choice)?;
    }
    Ok(domains)
}

#[tactic(auto, unfolding(cb_types::specs::NormalMachines::declared_name))]
fn declared(alloc: Global, domains: &Table<Choice>, name: &RawName) -> Result<Declared, Memory>
    ensures { IfOk result (λ d. d ≡ declared_name domains.now name.now) }
{
    let domain = domain_or_zero(&domains.find(name.text.as_slice()));
    let name = copy_name(alloc, name)?;
    Ok(Declared { name, domain })
}

/// Names with their domains.
pub(crate) fn declared_names(
    alloc: Global,
    domains: &Table<Choice>,
    list: &[RawName],
) -> Result<Items<Declared>, Memory>
    ensures { IfOk result (λ ds. ds ≡ map (declared_name domains.now) list.now) }
{
    let mut all = Items::new(alloc);
    for name in list {
        all.push(declared(alloc, domains, name)?)?;
    }
    Ok(all)
}

fn all_declared(
    alloc: Global,
    domains: &Table<Choice>,
    params: &[RawParam],
) -> Result<Items<Declared>, Memory>
    ensures { IfOk result (λ ds. ds ≡ map (declared_name domains.now) (map signatures.param_name params.now)) }
{
    let mut all = Items::new(alloc);
    for param in params {
        all.push(declared(alloc, domains, param_name(param))?)?;
    }
    Ok(all)
}

/// Parameters with their domains.
pub fn declared_parameters(
    alloc: Global,
    view: &View,
    names: &Table<Entry>,
    params: &[RawParam],
) -> Result<Items<Declared>, Memory>
    ensures { IfOk result (λ ds. ds ≡ map (declared_name (signatures.parameters_from view.now names.now [] params.now)) (map signatures.param_name params.now)) }
{
    let domains = domains_of(alloc, view, names, params)?;
    all_declared(alloc, &domains, params)
}
