//! Faults and their order.

ghost use Rattle.std.specs.Prelude.{◌≡◌};
ghost use Rattle.cb_forms.specs.Faults.{above, later_of, before, least, fault_if, first};

use cb_lex::token::Place;

/// A code, 1 to 24, and where it occurs.
#[derive(Clone, Copy, Debug, PartialEq, Eq)]
pub struct Fault {
    pub code: u8,
    pub place: Place,
}

/// Whether the first place is before the second in the text.
pub fn is_above(p: &Place, q: &Place) -> bool
    ensures { result ≡ above p.now q.now }
{
    p.line < q.line || (p.line == q.line && p.col < q.col)
}

/// The later of two places.
pub fn later(p: Place, q: Place) -> Place
    ensures { result ≡ later_of p q }
{
    if is_above(&p, &q) { q } else { p }
}

/// Whether the first has the less code, or at one code the earlier place.
pub fn is_before(a: &Fault, b: &Fault) -> bool
    ensures { result ≡ before a.now b.now }
{
    a.code < b.code || (a.code == b.code && is_above(&a.place, &b.place))
}

/// The first of two.
pub fn earlier(a: Option<Fault>, b: Option<Fault>) -> Option<Fault>
    ensures { result ≡ least a b }
{
    match (a, b) {
        (None, _) => b,
        (Some(_), None) => a,
        (Some(f), Some(g)) => { if is_before(&g, &f) { b } else { a } }
    }
}

/// The fault, where there is one.
pub fn when(bad: bool, code: u8, place: Place) -> Option<Fault>
    ensures { result ≡ first (fault_if bad code place) }
{
    if bad {
        Some(Fault { code, place })
    } else {
        None
    }
}
