//! The normal form of definitions.

ghost use Rattle.std.specs.Prelude.{◌≡◌, IfOk, OnOk, map};
ghost use Rattle.cb_signatures.specs.Calls.{AreCallees};
ghost use Rattle.cb_text_laws.specs.NormalProcesses.{process_in};
ghost use Rattle.cb_text_laws.specs.NormalTexts.{definition_in};
ghost use Rattle.cb_text_laws.specs.Signatures.{inside_definition, parameter_domains, parameter_names, value_forms};
ghost use Rattle.cb_text_laws.specs.TextNames.{outer_view, view_with};
ghost use Rattle.cb_types.specs.NormalMachines.{declared_name, maybe_formula, written_name};

use crate::parameters::declared_parameters;
use crate::parts::normal_maybe;
use crate::process::normal_process;
use cb_controls::definition::declare_parameters;
use cb_forms::table::Table;
use cb_judge::names::{Entry, View};
use cb_lex::Memory;
use cb_lex::raw::text::RawDefinition;
use cb_normal::formula::copy_name;
use cb_processes::process::Around;
use cb_spec::process::Process;
use cb_spec::system::{Declared, Definition};
use cb_term::name::Name;
use cb_term::tree::Formula;
use sqlite_items::Items;
use std::alloc::Global;

fn name_and_parameters(
    alloc: Global,
    view: &View,
    names: &Table<Entry>,
    definition: &RawDefinition,
) -> Result<(Name, Items<Declared>), Memory>
    ensures name { IfOk result (λ r. r.0 ≡ written_name definition.now.name) }
    ensures parameters { IfOk result (λ r. r.1 ≡ map (declared_name (parameter_domains view.now names.now definition.now)) (parameter_names definition.now)) }
{
    let name = copy_name(alloc, &definition.name)?;
    let params = declared_parameters(alloc, view, names, definition.parameters.as_slice())?;
    Ok((name, params))
}

// The invariant and the process of a definition, where its parameters are known.
fn invariant_and_body(
    alloc: Global,
    around: &Around,
    reading: &View,
    globals: &mut Table<Entry>,
    names: &mut Table<Entry>,
    definition: &RawDefinition,
) -> Result<(Formula, Process), Memory>
    requires forms { around.now.forms.now ≡ map (value_forms around.now.view.now globals.old) around.now.channels.now }
    requires operations { AreCallees around.now.known.now globals.old around.now.machines.now around.now.operations.now }
    ensures invariant { IfOk result (λ r. r.0 ≡ maybe_formula reading.now names.old definition.now.invariant) }
    ensures body { IfOk result (λ r. r.1 ≡ process_in around.now.known.now globals.old around.now.machines.now around.now.channels.now around.now.view.now around.now.own.now around.now.definitions.now names.old definition.now.process) }
    ensures globals { OnOk result (globals.new ≡ globals.old) }
    ensures names { OnOk result (names.new ≡ names.old) }
{
    let invariant = normal_maybe(alloc, reading, names, &definition.invariant)?;
    let body = normal_process(alloc, around, globals, names, &definition.process)?;
    Ok((invariant, body))
}

// The invariant and the process of a definition.
fn inside(
    alloc: Global,
    around: &Around,
    reading: &View,
    globals: &mut Table<Entry>,
    names: &mut Table<Entry>,
    definition: &RawDefinition,
) -> Result<(Formula, Process), Memory>
    requires forms { around.now.forms.now ≡ map (value_forms around.now.view.now globals.old) around.now.channels.now }
    requires operations { AreCallees around.now.known.now globals.old around.now.machines.now around.now.operations.now }
    ensures invariant { IfOk result (λ r. r.0 ≡ maybe_formula reading.now (inside_definition around.now.view.now names.old definition.now) definition.now.invariant) }
    ensures body { IfOk result (λ r. r.1 ≡ process_in around.now.known.now globals.old around.now.machines.now around.now.channels.now around.now.view.now around.now.own.now around.now.definitions.now (inside_definition around.now.view.now names.old definition.now) definition.now.process) }
    ensures globals { OnOk result (globals.new ≡ globals.old) }
    ensures names { OnOk result (names.new ≡ names.old) }
{
    let outside = names.len();
    declare_parameters(alloc, around.view, names, definition)?;
    let parts = invariant_and_body(alloc, around, reading, globals, names, definition)?;
    names.leave(outside);
    Ok(parts)
}

// A definition in normal form. Its invariant alone reads variables, in the view `reading`.
#[tactic(auto, unfolding(cb_text_laws::specs::NormalTexts::definition_with))]
fn normal_definition(
    alloc: Global,
    around: &Around,
    reading: &View,
    globals: &mut Table<Entry>,
    names: &mut Table<Entry>,
    definition: &RawDefinition,
) -> Result<Definition, Memory>
    requires names { globals.old ≡ names.old }
    requires outer { around.now.view.now ≡ outer_view around.now.machines.now }
    requires reading { reading.now ≡ view_with around.now.own.now around.now.machines.now }
    requires forms { around.now.forms.now ≡ map (value_forms around.now.view.now globals.old) around.now.channels.now }
    requires operations { AreCallees around.now.known.now globals.old around.now.machines.now around.now.operations.now }
    ensures form { IfOk result (λ d. d ≡ definition_in around.now.known.now names.old around.now.machines.now around.now.channels.now around.now.own.now around.now.definitions.now definition.now) }
    ensures globals { OnOk result (globals.new ≡ globals.old) }
    ensures names { OnOk result (names.new ≡ names.old) }
{
    let (name, params) = name_and_parameters(alloc, around.view, names, definition)?;
    let (invariant, body) = inside(alloc, around, reading, globals, names, definition)?;
    Ok(Definition {
        name,
        params,
        invariant,
        body,
    })
}

/// Definitions in normal form. Their invariants alone read variables, in the view `reading`.
pub fn normal_definitions(
    alloc: Global,
    around: &Around,
    reading: &View,
    globals: &mut Table<Entry>,
    names: &mut Table<Entry>,
    definitions: &[RawDefinition],
) -> Result<Items<Definition>, Memory>
    requires names { globals.old ≡ names.old }
    requires outer { around.now.view.now ≡ outer_view around.now.machines.now }
    requires reading { reading.now ≡ view_with around.now.own.now around.now.machines.now }
    requires forms { around.now.forms.now ≡ map (value_forms around.now.view.now globals.old) around.now.channels.now }
    requires operations { AreCallees around.now.known.now globals.old around.now.machines.now around.now.operations.now }
    ensures form { IfOk result (λ ds. ds ≡ map (definition_in around.now.known.now names.old around.now.machines.now around.now.channels.now around.now.own.now around.now.definitions.now) definitions.now) }
    ensures globals { OnOk result (globals.new ≡ globals.old) }
    ensures names { OnOk result (names.new ≡ names.old) }
{
    let mut all = Items::new(alloc);
    for definition in definitions {
        all.push(normal_definition(alloc, around, reading, globals, names, definition)?)?;
    }
    Ok(all)
}
