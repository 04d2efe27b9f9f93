//! Appends tokens, each with a blank behind it.

ghost use Rattle.std.specs.Prelude.{◌≡◌, ◌++◌, OnOk};
ghost use Rattle.cb_lex.specs.declared.token.Sort.TheVariants as sort;
ghost use Rattle.cb_amn_parse.specs.Words.{atom_sort, operator_sort, relation_sort};
ghost use Rattle.cb_amn_print.specs.Tokens.{said, name_text, only_if};

use crate::Memory;
use cb_lex::raw::name::RawName;
use cb_lex::raw::sign::{RawAtom, RawOperator, RawRelation};
use std::alloc::Global;

/// Appends bytes as they are.
pub fn put(out: &mut Vec<u8>, bytes: &[u8]) -> Result<(), Memory>
    ensures { OnOk result (out.new.items ≡ out.old.items ++ bytes.now) }
{
    out.extend_from_slice(bytes)?;
    Ok(())
}

/// Appends the bytes where they are wanted.
pub fn put_if(out: &mut Vec<u8>, wanted: bool, bytes: &[u8]) -> Result<(), Memory>
    ensures { OnOk result (out.new.items ≡ out.old.items ++ only_if wanted bytes.now) }
{
    if wanted { put(out, bytes) } else { Ok(()) }
}

/// Appends a number.
pub fn put_number(alloc: Global, out: &mut Vec<u8>, number: i64) -> Result<(), Memory>
    ensures { OnOk result (out.new.items ≡ out.old.items ++ said (sort.Number number)) }
{
    let digits = number.to_string(alloc)?;
    put(out, digits.as_bytes())?;
    put(out, b" ")
}

/// Appends a name: `x` as written, `x#k` opened.
pub fn put_name(alloc: Global, out: &mut Vec<u8>, name: &RawName) -> Result<(), Memory>
    ensures { OnOk result (out.new.items ≡ out.old.items ++ name_text name.now) }
{
    put(out, name.text.as_slice())?;
    if name.number != 0 {
        put(out, b"#")?;
        let digits = name.number.to_string(alloc)?;
        put(out, digits.as_bytes())?;
    }
    put(out, b" ")
}

pub(crate) fn atom_text(atom: RawAtom) -> &'static [u8]
    ensures { result.now ≡ said (atom_sort atom) }
{
    match atom {
        RawAtom::True => b"TRUE ",
        RawAtom::False => b"FALSE ",
        RawAtom::MaxInt => b"MAXINT ",
        RawAtom::MinInt => b"MININT ",
        RawAtom::Nat => b"NAT ",
        RawAtom::Nat1 => b"NAT1 ",
        RawAtom::Int => b"INT ",
        RawAtom::Truths => b"BOOL ",
    }
}

pub(crate) fn operator_text(operator: RawOperator) -> &'static [u8]
    ensures { result.now ≡ said (operator_sort operator) }
{
    match operator {
        RawOperator::Plus => b"+ ",
        RawOperator::Minus => b"- ",
        RawOperator::Times => b"* ",
        RawOperator::Divide => b"/ ",
        RawOperator::Mod => b"mod ",
        RawOperator::UpTo => b".. ",
        RawOperator::Union => b"\\/ ",
        RawOperator::Intersection => b"/\\ ",
    }
}

pub(crate) fn relation_text(relation: RawRelation) -> &'static [u8]
    ensures { result.now ≡ said (relation_sort relation) }
{
    match relation {
        RawRelation::Equal => b"= ",
        RawRelation::Unequal => b"/= ",
        RawRelation::Less => b"< ",
        RawRelation::AtMost => b"<= ",
        RawRelation::Greater => b"> ",
        RawRelation::AtLeast => b">= ",
        RawRelation::Member => b": ",
        RawRelation::NotMember => b"/: ",
        RawRelation::Subset => b"<: ",
    }
}
