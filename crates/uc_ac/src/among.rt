//! Whether a symbol is one of some symbols.

ghost use Rattle.std.specs.Prelude.{◌↔◌, IsTrue};
ghost use Rattle.uc_order.specs.Members.{In};

use uc_term::Sym;

/// Whether the symbol is one of these.
pub fn is_among(symbols: &[Sym], f: Sym) -> bool
    ensures { IsTrue result ↔ In symbols.now f }
{
    for g in symbols {
        if *g == f {
            return true;
        }
    }
    false
}
