//! Where bytes come from and go to.

ghost use Rattle.std.specs.Prelude.{◌≡◌, ◌≢◌, ◌≤◌, ◌<◌, List, ℕ, length, Option, Err, IfOk, OnOk, IsErr, IsErrOf};
ghost use Rattle.std.specs.Io.{ReadsAtMost};
ghost use Rattle.std.specs.Io.KnownBytes.{ReadConsumes};
ghost use Rattle.qm_model.specs.Causes.{IsCause};
ghost use Rattle.qm_lines.specs.Ports.{Takes};

/// A source failed, and its count of faults rose.
#[derive(Clone, Copy, Debug, PartialEq, Eq)]
pub struct Failed;

/// Gives bytes, in order.
pub trait Source {
    /// The bytes that are left, if it tells them.
    ghost left: { Self → Option (List ℕ) };

    ghost faults: { Self → ℕ };

    /// Puts the next bytes at the front of `out`, and says how many. None, if `out` has room, is the end.
    /// After a failure a further call goes on as if the failed one had not been made.
    fn read(&mut self, out: &mut [u8]) -> Result<usize, Failed>
        ensures bound { ReadsAtMost result out.new }
        ensures bytes { ReadConsumes (left self.old) (left self.new) result out.new }
        ensures cause { IsCause (faults self.old) (faults self.new) (IsErr result) }
        ensures steady { OnOk result (faults self.new ≡ faults self.old) };

    /// How often it failed, up to `u64::MAX`.
    fn faults(&self) -> u64
        ensures { result ≡ faults self.now };
}

/// Why a sink took less than all.
#[derive(Clone, Copy, Debug, PartialEq, Eq)]
pub enum SinkError {
    Memory,
    /// The sink's count of faults rose.
    Failed,
}

/// Takes bytes, in order.
pub trait Sink {
    /// The bytes that went in, if it tells them.
    ghost text: { Self → Option (List ℕ) };

    ghost faults: { Self → ℕ };

    /// Takes bytes from the front of the piece, and says how many: at least one, if there is one.
    fn write(&mut self, piece: &[u8]) -> Result<usize, SinkError>
        ensures bound { IfOk result (λ n. n ≤ length piece.now) }
        ensures progress { IfOk result (λ n. 0 < length piece.now → 0 < n) }
        ensures bytes { Takes (text self.old) (text self.new) result piece.now }
        ensures cause { IsCause (faults self.old) (faults self.new)
            (IsErrOf result SinkError.Failed) }
        ensures steady { result ≢ Err SinkError.Failed → faults self.new ≡ faults self.old };

    /// How often it failed, up to `u64::MAX`.
    fn faults(&self) -> u64
        ensures { result ≡ faults self.now };
}
