//! The numbers of the options, in decimal digits.
ghost use Rattle.std.specs.Prelude.{◌≡◌, ◌^◌, ◌<◌, ◌≤◌, IfSome, option_map};
ghost use Rattle.std.specs.Char.{is_ascii_digit};
ghost use Rattle.std.specs.List.{list_all};
ghost use Rattle.cb_words.specs.Numbers.{at_most, has_leading_zero, is_number, limit_by, number_of, seed_by};

const MISSING_LIMIT: u32 = 1000;

const MOST_LIMIT: u64 = 100_000;

const MISSING_SEED: u64 = 0;

const MOST_SEED: u64 = 4_294_967_295;

/// The limit that the word of `--limit` spells: 0 to 100000, or 1000 where the option is missing.
///
/// A number is decimal digits without a sign, and without a leading zero but in `0` itself. `None` where the word is
/// no such number, or the number is above the bound.
pub fn limit_of(word: Option<&str>) -> Option<u32>
    ensures { result ≡ limit_by (option_map (λ w. w.now) word.entry) }
{
    let Some(word) = word else {
        return Some(MISSING_LIMIT);
    };
    let limit = number_within(MOST_LIMIT, word)?;
    Some(limit as u32)
}

/// The seed that the word of `--seed` spells: 0 to 4294967295, or 0 where the option is missing.
///
/// The digits are as in [`limit_of`]. `None` where the word is no such number, or the number is above the bound.
pub fn seed_of(word: Option<&str>) -> Option<u64>
    ensures { result ≡ seed_by (option_map (λ w. w.now) word.entry) }
{
    let Some(word) = word else {
        return Some(MISSING_SEED);
    };
    number_within(MOST_SEED, word)
}

// The number, if it is `most` at most. It stops at the first digit that takes it above, so nothing overflows.
fn number_within(most: u64, word: &str) -> Option<u64>
    requires { most < 2 ^ 60 }
    ensures number { result ≡ at_most most (number_of word.now) }
    ensures bound { IfSome result (λ n. n ≤ most) }
{
    let digits = word.as_bytes();
    if !is_decimal(digits) {
        return None;
    }
    let mut number = 0;
    for &digit in digits {
        number = number * 10 + u64::from(digit - b'0');
        if number > most {
            return None;
        }
    }
    Some(number)
}

fn is_decimal(text: &[u8]) -> bool
    ensures { result ≡ is_number text.now }
{
    !text.is_empty() && !has_leading_zero(text) && has_only_digits(text)
}

fn has_leading_zero(text: &[u8]) -> bool
    ensures { result ≡ has_leading_zero text.now }
{
    text.len() > 1 && text[0] == b'0'
}

fn has_only_digits(text: &[u8]) -> bool
    ensures { result ≡ list_all is_ascii_digit text.now }
{
    text.iter().all(|byte| byte.is_ascii_digit())
}
