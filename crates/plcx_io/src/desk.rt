ghost use Rattle.std.specs.Prelude.{◌≡◌, ◌≤◌, ℕ, List, length, take, IfOk, OnErr};
ghost use Rattle.std.specs.declared.option.Option.{Option};
ghost use Rattle.std.specs.Io.{ReadsAtMost};
ghost use Rattle.plcx_io.specs.Counts.{Rose};
ghost use Rattle.plcx_io.specs.Told.{ReadsFrom};

/// The outside failed, and has counted it.
#[derive(Clone, Copy, Debug, PartialEq, Eq)]
pub struct Failed;

/// Files by name.
pub trait Desk {
    /// What a file holds, where the desk tells it.
    ghost file: { Self → List ℕ → Option (List ℕ) };

    /// How many faults a name has had.
    ghost faults: { Self → List ℕ → ℕ };

    /// Copies bytes of the named file, from that place on, into the front of the buffer.
    fn read(&mut self, name: &str, from: u64, buf: &mut [u8]) -> Result<usize, Failed>
        ensures bound { ReadsAtMost result buf.new }
        ensures piece { IfOk result
            (λ count. ReadsFrom (file self.old name.now) from (length buf.new) (take count buf.new)) }
        ensures files { (other : List ℕ) → file self.new other ≡ file self.old other }
        ensures later { (other : List ℕ) → faults self.old other ≤ faults self.new other }
        ensures cause { OnErr result (Rose (faults self.old name.now) (faults self.new name.now)) };
}
