//! The forms of names that a formula gives domains.

ghost use Rattle.std.specs.Prelude.{◌≡◌, IfOk};
ghost use Rattle.cb_text_laws.specs.Signatures.{forms_of};

use cb_forms::form::Form;
use cb_forms::table::Table;
use cb_judge::domain::{Choice, form_or_zero};
use cb_lex::Memory;
use cb_lex::raw::name::RawName;
use sqlite_items::Items;
use std::alloc::Global;

/// The forms of these names; 0 stands for a name without a domain.
pub fn parameter_forms(
    alloc: Global,
    domains: &Table<Choice>,
    names: &[RawName],
) -> Result<Items<Form>, Memory>
    ensures { IfOk result (λ fs. fs ≡ forms_of domains.now names.now) }
{
    let mut forms = Items::new(alloc);
    for name in names {
        forms.push(form_or_zero(&domains.find(name.text.as_slice())))?;
    }
    Ok(forms)
}
