//! The numbers that the axioms are made of: the high half of a linear congruential generator (Knuth, The Art of Computer
//! Programming, volume 2, section 3.2.1).

ghost use Rattle.std.specs.Prelude.{◌≡◌, ◌<◌, ◌^◌};
ghost use Rattle.uc_gen.specs.Sequence.{next, drawn};

const FACTOR: u64 = 1_103_515_245;

const SUMMAND: u64 = 12_345;

const MODULUS: u64 = 2_147_483_648;

const LOW: u32 = 65_536;

/// Returns the state after this one.
pub(crate) fn next(state: u32) -> u32
    requires { state < 2 ^ 31 }
    ensures value { result ≡ next state }
    ensures small { result < 2 ^ 31 }
{
    ((state as u64 * FACTOR + SUMMAND) % MODULUS) as u32
}

/// Returns the number that is drawn in this state.
pub(crate) fn drawn(state: u32) -> u32
    ensures { result ≡ drawn state }
{
    state / LOW
}
