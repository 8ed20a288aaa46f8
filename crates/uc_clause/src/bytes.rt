// Tests on bytes, and how many bytes at the front of a text pass one.

ghost use Rattle.std.specs.Prelude.{◌≡◌, ◌≤◌, length};
ghost use Rattle.std.specs.List.{prefix_len};
ghost use Rattle.uc_clause.specs.Bytes.{is_lower, is_upper, is_digit, is_word, is_white, is_sign, is_mark, in_line};

#[inline]
pub(crate) fn is_digit(b: u8) -> bool
    ensures { result ≡ is_digit b }
{
    b.is_ascii_digit()
}

#[inline]
pub(crate) fn is_lower(b: u8) -> bool
    ensures { result ≡ is_lower b }
{
    b.is_ascii_lowercase()
}

#[inline]
pub(crate) fn is_upper(b: u8) -> bool
    ensures { result ≡ is_upper b }
{
    b.is_ascii_uppercase()
}

#[inline]
pub(crate) fn is_word(b: u8) -> bool
    ensures { result ≡ is_word b }
{
    is_lower(b) || is_upper(b) || is_digit(b) || b == b'_'
}

#[inline]
pub(crate) fn is_white(b: u8) -> bool
    ensures { result ≡ is_white b }
{
    matches!(b, 9..=13 | 32)
}

#[inline]
pub(crate) fn is_sign(b: u8) -> bool
    ensures { result ≡ is_sign b }
{
    b == b'+' || b == b'-'
}

#[inline]
pub(crate) fn is_mark(b: u8) -> bool
    ensures { result ≡ is_mark b }
{
    b.is_ascii_graphic() && !(b.is_ascii_alphanumeric() || matches!(b, b'"' | b'%' | b'\''))
}

// How many letters, digits and `_` stand in front.
#[inline]
pub(crate) fn word_len(bytes: &[u8]) -> usize
    ensures longest { result ≡ prefix_len is_word bytes.now }
    ensures within { result ≤ length bytes.now }
{
    bytes.iter().take_while(|b| is_word(**b)).count()
}

// How many digits stand in front.
#[inline]
pub(crate) fn digits_len(bytes: &[u8]) -> usize
    ensures longest { result ≡ prefix_len is_digit bytes.now }
    ensures within { result ≤ length bytes.now }
{
    bytes.iter().take_while(|b| is_digit(**b)).count()
}

// How many bytes stand before the end of the line.
#[inline]
pub(crate) fn line_len(bytes: &[u8]) -> usize
    ensures longest { result ≡ prefix_len in_line bytes.now }
    ensures within { result ≤ length bytes.now }
{
    bytes.iter().take_while(|b| **b != b'\n').count()
}
