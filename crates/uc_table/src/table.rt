//! Tables of finite algebras.

use uc_term::{Seq, Sym};

/// The most values that a table has.
pub const MAX_SIZE: u32 = 8;

/// The most cells that a table has whose text is read, or that is searched for.
pub const MAX_CELLS: usize = 65_536;

/// The most assignments of a clause that are gone through.
pub const MAX_ASSIGNMENTS: u32 = 16_777_216;

/// A finite algebra: its values are the numbers below its size, and each symbol has a cell with a value for each list of
/// arguments. The cells of a symbol stand in the order of the lists, in which the first argument changes slowest.
#[derive(Drop, Debug)]
pub struct Table {
    pub size: u32,
    pub symbols: Seq<Sym>,
    pub cells: Seq<Seq<u32>>,
}
