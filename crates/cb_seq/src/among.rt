//! Rules whose terms are told their kinds among the names of a sequent.

ghost use Rattle.std.specs.Prelude.{◌≡◌, IfOk};
ghost use Rattle.cb_term.specs.Table.{sizes_of};
ghost use Rattle.cb_seq.specs.Arguments as spec;

use crate::kinds::kind_of;
use crate::rule::{Rule, TermArgument};
use cb_term::Memory;
use cb_term::kind::Kind;
use cb_term::name::Name;
use cb_term::table::SetTable;
use std::alloc::Global;

// The argument with its kind.
fn told(
    alloc: Global,
    sets: &SetTable,
    names: &[(Name, Kind)],
    argument: &TermArgument,
) -> Result<TermArgument, Memory>
    ensures { IfOk result (λ a. a ≡ spec.argument_among (sizes_of sets.now) names.now argument.now) }
{
    match argument {
        TermArgument::Read(term) => match kind_of(alloc, sets, names, &[], term)? {
            Some(kind) => Ok(TermArgument::Term {
                term: term.copy(alloc)?,
                kind,
            }),
            None => Ok(TermArgument::Unclear),
        },
        TermArgument::Term { term, kind } => Ok(TermArgument::Term {
            term: term.copy(alloc)?,
            kind: *kind,
        }),
        TermArgument::Unclear => Ok(TermArgument::Unclear),
    }
}

/// The rule with the kinds of its terms among the names. None where it takes no term, and so stays as it is.
pub fn rule_among(
    alloc: Global,
    sets: &SetTable,
    names: &[(Name, Kind)],
    rule: &Rule,
) -> Result<Option<Rule>, Memory>
    ensures { IfOk result (λ o. spec.or_itself rule.now o ≡ spec.rule_among (sizes_of sets.now) names.now rule.now) }
{
    let told_rule = match rule {
        Rule::ExR { term } => Rule::ExR {
            term: told(alloc, sets, names, term)?,
        },
        Rule::AllL { hypothesis, term } => Rule::AllL {
            hypothesis: *hypothesis,
            term: told(alloc, sets, names, term)?,
        },
        Rule::BoolCases { term } => Rule::BoolCases {
            term: told(alloc, sets, names, term)?,
        },
        Rule::Elems { term } => Rule::Elems {
            term: told(alloc, sets, names, term)?,
        },
        Rule::Split { left, right } => Rule::Split {
            left: told(alloc, sets, names, left)?,
            right: told(alloc, sets, names, right)?,
        },
        Rule::DivMod { term, divisor } => Rule::DivMod {
            term: told(alloc, sets, names, term)?,
            divisor: *divisor,
        },
        Rule::MulSign { left, right } => Rule::MulSign {
            left: told(alloc, sets, names, left)?,
            right: told(alloc, sets, names, right)?,
        },
        Rule::SubsetL { hypothesis, term } => Rule::SubsetL {
            hypothesis: *hypothesis,
            term: told(alloc, sets, names, term)?,
        },
        Rule::CardPos { set } => Rule::CardPos {
            set: told(alloc, sets, names, set)?,
        },
        Rule::CardAdd { set, item } => Rule::CardAdd {
            set: told(alloc, sets, names, set)?,
            item: told(alloc, sets, names, item)?,
        },
        Rule::CardDel { set, item } => Rule::CardDel {
            set: told(alloc, sets, names, set)?,
            item: told(alloc, sets, names, item)?,
        },
        Rule::CardSub { inner, outer } => Rule::CardSub {
            inner: told(alloc, sets, names, inner)?,
            outer: told(alloc, sets, names, outer)?,
        },
        _ => return Ok(None),
    };
    Ok(Some(told_rule))
}
