//! Where parts of a certificate's text end.

/// A line at which a part of a text ends: the first one of a certificate, the facts' line, or the last one.
#[derive(Clone, Copy, PartialEq, Eq, Debug)]
pub(crate) enum Border {
    Start,
    Facts,
    End,
}
