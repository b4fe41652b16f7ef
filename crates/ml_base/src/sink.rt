// Where bytes go.
ghost use Rattle.std.specs.Prelude.{◌≡◌, ℕ, ◌<◌, ◌≤◌, List, length, take, Option, IfOk, OnOk, OnErr};
ghost use Rattle.std.specs.Io.KnownBytes.{append_known};
ghost use Rattle.ml_base.specs.Faults.{Rose};

use crate::source::Failed;

/// Takes bytes, piece by piece.
pub trait Sink {
    // The bytes taken so far, where the sink tells them: it tells them always or never.
    ghost taken: { Self → Option (List ℕ) };

    // How many faults were counted so far, in 64 bits: see `Rose`.
    ghost faults: { Self → ℕ };

    /// Takes bytes from the front of `piece`, at least one, and says how many.
    ///
    /// # Errors
    /// `Failed` comes only where the count of faults rose in this call. A sink that tells its bytes took none then; of
    /// others nothing is said, since a flush may fail behind bytes that were passed on. To take nothing is a fault.
    fn write(&mut self, piece: &[u8]) -> Result<usize, Failed>
        requires { 0 < length piece.now }
        ensures some { IfOk result (λ count. 0 < count) }
        ensures within { IfOk result (λ count. count ≤ length piece.now) }

        // What was taken, where it is told.
        ensures appended { IfOk result (λ count.
            taken self.new ≡ append_known (taken self.old) (take count piece.now)) }
        ensures kept { OnErr result (taken self.new ≡ taken self.old) }

        // The count of faults.
        ensures calm { OnOk result (faults self.new ≡ faults self.old) }
        ensures fault { OnErr result (Rose (faults self.old) (faults self.new)) };
}
