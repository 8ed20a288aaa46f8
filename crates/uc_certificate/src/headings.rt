//! The lines of a certificate that begin with `%`.

ghost use Rattle.std.specs.Prelude.{◌≡◌, ◌<◌, ◌≤◌, ◌^◌, ◌+◌, None, Some, true, false, drop, length, IfOk, MatchOption};
ghost use Rattle.std.specs.List.{prefix_len};
ghost use Rattle.uc_clause.specs.Bytes.{in_line};
ghost use Rattle.uc_system.specs.Lines.{first_line};
ghost use Rattle.uc_certificate.specs.Headings.{is_border, is_other_version, line_from, departs, FirstLine, pick, version_by, heading, the_line};
ghost use Rattle.uc_certificate.specs.Reads.{IsLine, Goes, IsStart};

use crate::CertFault;
use crate::border::Border;
use crate::numerals::number;
use uc_clause::place_behind;

const CERTIFICATE: &[u8] = b"% certificate ";

pub(crate) const CERTIFICATE_LINE: &[u8] = b"% certificate 1";

pub(crate) const DERIVATION_LINE: &[u8] = b"% derivation";

pub(crate) const FACTS: &[u8] = b"% facts";

const FACTS_NAMES: &[u8] = b"% facts ";

pub(crate) const JOINS_LINE: &[u8] = b"% joins";

pub(crate) const END_LINE: &[u8] = b"% end";

/// How many bytes stand before the first line feed, or before the end.
pub(crate) fn line_len(text: &[u8]) -> usize
    ensures longest { result ≡ prefix_len in_line text.now }
    ensures within { result ≤ length text.now }
{
    text.iter().take_while(|byte| **byte != b'\n').count()
}

// The line that begins here, whether a line feed ends it or the text.
fn line_from(text: &[u8], at: usize) -> &[u8]
    requires { at ≤ length text.now }
    ensures line { result.now ≡ line_from text.now at }
    ensures within { at + length result.now ≤ length text.now }
{
    let rest = text.split_at(at).1;
    rest.split_at(line_len(rest)).0
}

fn is_border(border: Border, line: &[u8]) -> bool
    ensures { result ≡ is_border border line.now }
{
    match border {
        Border::Start => line.starts_with(CERTIFICATE),
        Border::Facts => line == FACTS || line.starts_with(FACTS_NAMES),
        Border::End => line == END_LINE,
    }
}

/// The first byte of the first such line from a byte on, or the end of the text.
pub(crate) fn find(border: Border, text: &[u8], from: usize) -> usize
    requires { from ≤ length text.now }
    ensures found { FirstLine text.now (is_border border) from result }
    ensures within { (from ≤ result) × (result ≤ length text.now) }
{
    let mut at = from;
    'lines: while at < text.len() {
        let line = line_from(text, at);
        if is_border(border, line) {
            return at;
        }
        at = at + line.len() + 1;
    }
    text.len()
}

/// The line that begins here, without its line feed; none where no line feed ends it.
pub(crate) fn whole_line(text: &[u8], at: usize) -> Option<&[u8]>
    requires { at ≤ length text.now }
    ensures { MatchOption result (first_line (drop at text.now) ≡ None) (λ line. IsLine text.now at line.now) }
{
    let line = line_from(text, at);
    if at + line.len() < text.len() {
        Some(line)
    } else {
        None
    }
}

/// The fault that the line here, or the end of the text, isn't called for.
pub(crate) fn departs(text: &[u8], at: usize) -> CertFault
    requires small { length text.now < 2 ^ 31 }
    requires at { at ≤ length text.now }
    ensures { result ≡ departs text.now at }
{
    CertFault::Syntax(place_behind(text.split_at(at).0))
}

// Whether digits write another number than 1.
fn is_other_version(digits: &[u8]) -> bool
    ensures { result ≡ is_other_version digits.now }
{
    match number(digits) {
        Some(version) => version != 1,
        None => false,
    }
}

// What the first line of a certificate comes to.
fn version_at(text: &[u8], at: usize) -> Result<usize, CertFault>
    requires small { length text.now < 2 ^ 31 }
    requires at { at ≤ length text.now }
    ensures { Goes (pick text.now (version_by text.now)) text.now at result }
{
    let Some(line) = whole_line(text, at) else {
        return Err(departs(text, at));
    };
    if line == CERTIFICATE_LINE {
        return Ok(at + line.len() + 1);
    }
    if line.starts_with(CERTIFICATE) && is_other_version(line.split_at(CERTIFICATE.len()).1) {
        let number = at + CERTIFICATE.len();
        return Err(CertFault::Version(place_behind(text.split_at(number).0)));
    }
    Err(departs(text, at))
}

/// Goes behind the first line of the certificate that stands in a text, skipping what stands in front of it.
pub(crate) fn heading(text: &[u8]) -> Result<usize, CertFault>
    requires { length text.now < 2 ^ 31 }
    ensures { Goes (heading text.now) text.now 0 result }
{
    let start = find(Border::Start, text, 0);
    version_at(text, start)
}

/// Goes behind exactly this line.
pub(crate) fn the_line(text: &[u8], wanted: &[u8], at: usize) -> Result<usize, CertFault>
    requires small { length text.now < 2 ^ 31 }
    requires at { at ≤ length text.now }
    ensures goes { Goes (the_line text.now wanted.now) text.now at result }
    ensures start { IfOk result (IsStart text.now) }
{
    let Some(line) = whole_line(text, at) else {
        return Err(departs(text, at));
    };
    if line == wanted {
        Ok(at + line.len() + 1)
    } else {
        Err(departs(text, at))
    }
}
