// Where bytes come from.
ghost use Rattle.std.specs.Prelude.{◌≡◌, ℕ, ◌<◌, ◌≤◌, ◌↔◌, List, [], length, take, Option, IfOk, IfSome, OnOk, OnErr};
ghost use Rattle.std.specs.Io.KnownBytes.{prepend_known};
ghost use Rattle.ml_base.specs.Faults.{Rose};

use thiserror::Error;

/// A call on a source or a sink failed, and the count of faults rose.
#[derive(Clone, Copy, Debug, PartialEq, Eq, Error)]
#[error("the outside failed")]
pub struct Failed;

/// Gives bytes, piece by piece, up to an end.
pub trait Source {
    // The bytes that are left, where the source tells them: it tells them always or never.
    ghost remaining: { Self → Option (List ℕ) };

    // How many faults were counted so far, in 64 bits: see `Rose`.
    ghost faults: { Self → ℕ };

    /// Gives the next bytes into the front of `buf`, and says how many; `Ok(0)` is the end of the input.
    ///
    /// # Errors
    /// `Failed` comes only where the count of faults rose in this call. A source that tells its bytes has lost none
    /// then. What stands in `buf` after it isn't said.
    fn read(&mut self, buf: &mut [u8]) -> Result<usize, Failed>
        requires { 0 < length buf.old }
        ensures within { IfOk result (λ count. count ≤ length buf.old) }

        // What is left, where it is told.
        ensures given { IfOk result (λ count.
            remaining self.old ≡ prepend_known (take count buf.new) (remaining self.new)) }
        ensures end { IfOk result (λ count.
            IfSome (remaining self.old) (λ left. (count ≡ 0) ↔ (left ≡ []))) }
        ensures kept { OnErr result (remaining self.new ≡ remaining self.old) }

        // The count of faults.
        ensures calm { OnOk result (faults self.new ≡ faults self.old) }
        ensures fault { OnErr result (Rose (faults self.old) (faults self.new)) };
}
