//! Numbers as a text has them.

ghost use Rattle.std.specs.Prelude.{◌≡◌, ◌^◌, ◌-◌, true, false, min, MatchOption};
ghost use Rattle.uc_clause.specs.Bytes.{is_digits};
ghost use Rattle.uc_system.specs.Numerals.{is_numeral, value_of};

// The number that one or more digits write, or the greatest `u32` where it is greater.
pub(crate) fn number(digits: &[u8]) -> Option<u32>
    ensures { MatchOption result (is_digits digits.now ≡ false) (λ n. (is_digits digits.now ≡ true) × (n ≡ min (value_of digits.now) (2 ^ 32 - 1))) }
{
    if digits.is_empty() {
        return None;
    }
    let mut value: u32 = 0;
    for digit in digits {
        if !digit.is_ascii_digit() {
            return None;
        }
        value = value
            .saturating_mul(10)
            .saturating_add(u32::from(*digit - b'0'));
    }
    Some(value)
}

// The same of a numeral, which doesn't begin with a zero that other digits follow.
pub(crate) fn numeral(digits: &[u8]) -> Option<u32>
    ensures { MatchOption result (is_numeral digits.now ≡ false) (λ n. (is_numeral digits.now ≡ true) × (n ≡ min (value_of digits.now) (2 ^ 32 - 1))) }
{
    if digits.len() > 1 {
        if digits[0] == b'0' {
            return None;
        }
    }
    number(digits)
}
