//! Numbers as a certificate has them.

ghost use Rattle.std.specs.Prelude.{◌≡◌, ◌^◌, ◌-◌, true, false, min, MatchOption};
ghost use Rattle.std.specs.Str.Parse.{digits_value};
ghost use Rattle.uc_clause.specs.Bytes.{is_digits};

// The number that one or more digits write, or the greatest `u64` where it is greater.
pub(crate) fn number(digits: &[u8]) -> Option<u64>
    ensures { MatchOption result (is_digits digits.now ≡ false) (λ n. (is_digits digits.now ≡ true) × (n ≡ min (digits_value 10 digits.now) (2 ^ 64 - 1))) }
{
    if digits.is_empty() {
        return None;
    }
    let mut value: u64 = 0;
    for digit in digits {
        if !digit.is_ascii_digit() {
            return None;
        }
        value = value
            .saturating_mul(10)
            .saturating_add(u64::from(*digit - b'0'));
    }
    Some(value)
}
