// Where bytes come from and go to, with a count of faults.
ghost use Rattle.std.specs.Prelude.{◌<◌, ℕ, List, Option, length, IfOk};
ghost use Rattle.std.specs.Io.{ReadsAtMost, WritesAtMost};
ghost use Rattle.std.specs.Io.KnownBytes.{ReadConsumes, WriteAppends};
ghost use Rattle.svc_value.specs.Causes.{HasCause};

use crate::Failed;

/// What bytes come from.
pub trait Source {
    /// The bytes still to come, where the source tells.
    ghost left: { Self → Option (List ℕ) };

    /// How often it has failed.
    ghost faults: { Self → ℕ };

    /// Takes the first bytes that are left and puts them at the front of `buf`; the answer is their number, at most the
    /// length of `buf`. 0 for a buffer that is not empty says that nothing is left. `Failed` comes only where the count
    /// of faults rose; what is left is then as it was.
    fn read(&mut self, buf: &mut [u8]) -> Result<usize, Failed>
        ensures bound { ReadsAtMost result buf.new }
        ensures bytes { ReadConsumes (left self.old) (left self.new) result buf.new }
        ensures cause { HasCause (faults self.old) (faults self.new) result };
}

/// What bytes go to.
pub trait Sink {
    /// The bytes that it holds, where the sink tells.
    ghost held: { Self → Option (List ℕ) };

    /// How often it has failed.
    ghost faults: { Self → ℕ };

    /// Appends the first bytes of `piece`; the answer is their number, at most the length of `piece`, and at least 1
    /// where `piece` is not empty. `Failed` comes only where the count of faults rose; what is held is then as it was.
    fn write(&mut self, piece: &[u8]) -> Result<usize, Failed>
        ensures bound { WritesAtMost result piece.now }
        ensures some { 0 < length piece.now → IfOk result (λ n. 0 < n) }
        ensures bytes { WriteAppends (held self.old) (held self.new) result piece.now }
        ensures cause { HasCause (faults self.old) (faults self.new) result };
}
