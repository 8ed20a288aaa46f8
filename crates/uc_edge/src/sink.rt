// Where an answer goes.

ghost use Rattle.std.specs.Prelude.{◌≡◌, ◌≤◌, ℕ};

use thiserror::Error;

/// What a sink answers when it is given a piece.
#[derive(Clone, Copy, Debug, PartialEq, Eq)]
pub enum Written {
    /// It took this many bytes from the front of the piece.
    Taken(usize),
    /// It failed, and took none.
    Failed,
}

/// A place to which bytes are written.
pub trait Sink {
    ghost use Rattle.std.specs.Prelude.{Option, List, [], ◌∷◌, ◌++◌};
    ghost use Rattle.uc_edge.specs.Pieces.{IsWritten, counted};
    ghost use Rattle.uc_edge.specs.Faults.{Rose};
    ghost use Rattle.uc_edge.specs.declared.sink.Written.TheVariants.{Failed};

    /// What has been written, where it tells that.
    ghost written: { Self → Option (List ℕ) };

    /// How often it has failed, up to the greatest `u64`.
    ghost faults: { Self → ℕ };

    /// The pieces that it was given, in order.
    ghost pieces: { Self → List (List ℕ) };

    /// Takes some of the piece from its front, at least one byte where there is one. It takes no memory, and fails only
    /// where its count of faults rose in this call, by one. Else the count stays.
    fn write(&mut self, piece: &[u8]) -> Written
        ensures answer { IsWritten (written self.old) (written self.new) piece.now result }
        ensures later { faults self.old ≤ faults self.new }
        ensures failed { result ≡ Failed → Rose (faults self.old) (faults self.new) }
        ensures counted { faults self.new ≡ counted result (faults self.old) }
        ensures given { pieces self.new ≡ pieces self.old ++ piece.now ∷ [] };
}

/// The sink failed at a write.
#[derive(Clone, Copy, Debug, PartialEq, Eq, Error)]
#[error("the sink failed")]
pub struct WriteFault;

ghost use Rattle.uc_edge.specs.Pieces.{IsPut, Gives, counted_put};

/// Writes a whole piece in one write, the rest of it again where the sink took less. It ends at the first write that fails,
/// and what was written then is a proper prefix of the piece. It takes no memory.
pub fn put<S: Sink>(sink: &mut S, piece: &[u8]) -> Result<(), WriteFault>
    ensures put { IsPut (S.written sink.old) (S.written sink.new) (S.faults sink.old) (S.faults sink.new) piece.now result }
    ensures later { S.faults sink.old ≤ S.faults sink.new }
    ensures counted { S.faults sink.new ≡ counted_put result (S.faults sink.old) }
    ensures given { Gives piece.now (S.pieces sink.old) (S.pieces sink.new) result }
{
    let mut from = 0;
    while from < piece.len() {
        let (_, rest) = piece.split_at(from);
        match sink.write(rest) {
            Written::Taken(n) => from += n,
            Written::Failed => return Err(WriteFault),
        }
    }
    Ok(())
}
