//! The order by which a generated problem is completed.

ghost use Rattle.std.specs.Prelude.{◌≡◌, None, IfOk};
ghost use Rattle.uc_ordering.specs.Choice.{IsChosen};
ghost use Rattle.uc_ordering.specs.Fits.{Fits};
ghost use Rattle.uc_ordering.specs.Premises.{IsSignature};
ghost use Rattle.uc_gen.specs.Options.{no_options};

use std::alloc::{AllocError, Global};
use uc_order::OrderSpec;
use uc_ordering::{ChoiceFault, choose};
use uc_term::{Seq, Signature, Symbols};
use uc_words::OrderWords;

/// Returns the order of a signature that stands where no option names another: the Knuth-Bendix order in which each symbol and each
/// variable weighs 1, with the symbols by their arities and those of one arity in their order.
pub fn default_order(
    alloc: Global,
    symbols: &Symbols,
    signature: &Signature,
) -> Result<OrderSpec, AllocError>
    requires { IsSignature symbols.now signature.now }
    ensures chosen { IfOk result (IsChosen symbols.now signature.now no_options None) }
    ensures fits { IfOk result (Fits symbols.now signature.now.symbols) }
{
    match choose(alloc, &no_options(alloc), symbols, signature, None) {
        Ok(spec) => Ok(spec),
        Err(ChoiceFault::NoMemory) => Err(AllocError),
        Err(ChoiceFault::UnknownSymbol(_)) => unreachable!(),
        Err(ChoiceFault::NotTotal(_)) => unreachable!(),
        Err(ChoiceFault::BadWeight(_, _)) => unreachable!(),
    }
}

/// Returns the options on the order where none is given.
fn no_options(alloc: Global) -> OrderWords
    ensures { result ≡ no_options }
{
    OrderWords {
        lpo: false,
        precedence: Seq::new(alloc),
        weights: Seq::new(alloc),
        w0: 1,
    }
}
