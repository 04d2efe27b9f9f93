//! Intervals of whole numbers.

ghost use Rattle.std.specs.Prelude.{◌≡◌, ◌+ℤ◌, ◌-ℤ◌, ◌*ℤ◌, neg_ℤ, ◌<ℤ◌, pos};
ghost use Rattle.std.specs.Int.{int_div_euclid};
ghost use Rattle.cb_forms.specs.Spans.{cut, leaves, added, taken, negated, scaled, least4, greatest4, point, divided, rest_of, has_more};

// Ends are kept within 2^126 of 0, and intervals of terms within 2^62.
const CAP: i128 = 85070591730234615865843651857942052864;

const EDGE: i128 = 4611686018427387904;

/// The numbers from `lo` to `hi`.
#[derive(Clone, Copy, Debug, PartialEq, Eq)]
pub struct Span {
    pub lo: i128,
    pub hi: i128,
}

fn cap(n: i128) -> i128
    ensures { result ≡ cut n }
{
    if n > CAP {
        CAP
    } else if n < -CAP {
        -CAP
    } else {
        n
    }
}

fn sum(a: i128, b: i128) -> i128
    ensures { result ≡ cut (a +ℤ b) }
{
    match a.checked_add(b) {
        Some(n) => cap(n),
        None => { if a < 0 { -CAP } else { CAP } }
    }
}

fn difference(a: i128, b: i128) -> i128
    ensures { result ≡ cut (a -ℤ b) }
{
    match a.checked_sub(b) {
        Some(n) => cap(n),
        None => { if a < 0 { -CAP } else { CAP } }
    }
}

fn product(a: &i128, b: &i128) -> i128
    ensures { result ≡ cut (a.now *ℤ b.now) }
{
    match a.checked_mul(*b) {
        Some(n) => cap(n),
        None => { if (*a < 0) == (*b < 0) { CAP } else { -CAP } }
    }
}

/// Whether a number of it is further than 2^62 from 0.
pub fn is_wide(s: &Span) -> bool
    ensures { result ≡ leaves s.now }
{
    s.lo < -EDGE || EDGE < s.hi
}

/// The sums of two numbers.
pub fn add(s: &Span, t: &Span) -> Span
    ensures { result ≡ added s.now t.now }
{
    Span {
        lo: sum(s.lo, t.lo),
        hi: sum(s.hi, t.hi),
    }
}

/// The differences of two numbers.
pub fn subtract(s: &Span, t: &Span) -> Span
    ensures { result ≡ taken s.now t.now }
{
    Span {
        lo: difference(s.lo, t.hi),
        hi: difference(s.hi, t.lo),
    }
}

fn least_of(a: &i128, b: &i128, c: &i128, d: &i128) -> i128
    ensures { result ≡ least4 a.now b.now c.now d.now }
{
    (*a).min(*b).min((*c).min(*d))
}

fn greatest_of(a: &i128, b: &i128, c: &i128, d: &i128) -> i128
    ensures { result ≡ greatest4 a.now b.now c.now d.now }
{
    (*a).max(*b).max((*c).max(*d))
}

/// The products of two numbers.
pub fn multiply(s: &Span, t: &Span) -> Span
    ensures { result ≡ scaled s.now t.now }
{
    let a = product(&s.lo, &t.lo);
    let b = product(&s.lo, &t.hi);
    let c = product(&s.hi, &t.lo);
    let d = product(&s.hi, &t.hi);
    Span {
        lo: least_of(&a, &b, &c, &d),
        hi: greatest_of(&a, &b, &c, &d),
    }
}

/// The numbers with the other sign.
pub fn negate(s: &Span) -> Span
    ensures { result ≡ negated s.now }
{
    Span {
        lo: difference(0, s.hi),
        hi: difference(0, s.lo),
    }
}

/// One number.
pub fn at(n: i64) -> Span
    ensures { result ≡ point n }
{
    Span {
        lo: i128::from(n),
        hi: i128::from(n),
    }
}

/// Whether it has more than so many numbers.
pub fn is_longer(s: &Span, most: i128) -> bool
    ensures { result ≡ has_more most s.now }
{
    match s.hi.checked_sub(s.lo) {
        Some(n) => n >= most,
        None => s.lo < 0,
    }
}

/// The floors of the ends, where the divisor is positive.
pub fn divide(s: &Span, d: i64) -> Span
    requires { pos 0 <ℤ d }
    ensures { result ≡ divided s.now d }
{
    let d = i128::from(d);
    Span {
        lo: s.lo.div_euclid(d),
        hi: s.hi.div_euclid(d),
    }
}

/// The rests of a positive divisor.
pub fn rests(d: i64) -> Span
    requires { pos 0 <ℤ d }
    ensures { result ≡ rest_of d }
{
    Span {
        lo: 0,
        hi: i128::from(d) - 1,
    }
}
