//! Numbers whose size is at most 2^100.

ghost use Rattle.std.specs.Prelude.{◌≡◌, ◌+ℤ◌, ◌*ℤ◌};
ghost use Rattle.cb_lin.specs.Small.{is_small};
ghost use Rattle.cb_lin.specs.Steps.{small};

/// 2^100.
pub const CAP: i128 = 1267650600228229401496703205376;

/// Whether the size is at most 2^100.
pub fn fits(n: i128) -> bool
    ensures { result ≡ is_small n }
{
    -CAP <= n && n <= CAP
}

/// The sum, unless it passes 2^100.
pub fn small_sum(a: i128, b: i128) -> Option<i128>
    ensures { result ≡ small (a +ℤ b) }
{
    match a.checked_add(b) {
        Some(n) => if fits(n) { Some(n) } else { None },
        None => None,
    }
}

/// The product, unless it passes 2^100.
pub fn small_product(a: i128, b: i128) -> Option<i128>
    ensures { result ≡ small (a *ℤ b) }
{
    match a.checked_mul(b) {
        Some(n) => if fits(n) { Some(n) } else { None },
        None => None,
    }
}
