//! What the program reaches outside itself: files that it reads and streams that it writes.
//!
//! The two traits say what a call did by ghost members, which an implementation tells or keeps to
//! itself. What is told of files and of the bytes written is in `specs/Outside.antt`.
ghost use Rattle.std.specs.Prelude.{◌≡◌, ◌<◌, ◌≤◌, ℕ, Bool, List, length, Some, IsTrue, IsSome, IsOk, IfOk, IfSome, OnOk, OnErr};
ghost use Rattle.std.specs.declared.option.Option.{Option};
ghost use Rattle.std.specs.Io.KnownBytes.{Appends};
ghost use Rattle.irdl_bytes.specs.Outside.{FileMap, OpenFile, first_byte, Rose, Lacks, ReadsTold, AppendsPrefix};

/// A call of a file or a sink failed, by a fault that its object counted.
#[derive(Clone, Copy, Debug, PartialEq, Eq)]
pub struct Failed;

/// Named files, of which one at a time is read from its first byte on.
pub trait Files {
    /// The bytes of each name, where told. No call of `open` or `read` changes them.
    ghost file_map: { Self → Option FileMap };

    /// The name and the place read to of the open file, where told and where one is open.
    ghost open_file: { Self → Option OpenFile };

    /// Nothing but a name that the map lacks fails from now on.
    ghost steady: { Self → Bool };

    /// How many calls have failed, counted in 64 bits.
    ghost faults: { Self → ℕ };

    /// Turns to the first byte of the file of this name.
    fn open(&mut self, name: &str) -> Result<(), Failed>
        ensures same_map { file_map self.new ≡ file_map self.old }
        ensures has { OnOk result (IfSome (file_map self.old) (λ files. IsSome (files name.now))) }
        ensures opened { OnOk result (IfSome (file_map self.old)
            (λ _. open_file self.new ≡ Some (first_byte name.now))) }

        // Steady files stay so, and lack the name that they fail on.
        ensures stays_steady { IsTrue (steady self.old) → IsTrue (steady self.new) }
        ensures lacking { IsTrue (steady self.old) →
            OnErr result (Lacks (file_map self.old) name.now) }

        ensures later { faults self.old ≤ faults self.new }
        ensures cause { OnErr result (Rose (faults self.old) (faults self.new)) };

    /// Puts the next bytes of the open file at the front of `into`, and answers how many.
    fn read(&mut self, into: &mut [u8]) -> Result<usize, Failed>
        requires { 0 < length into.old }
        ensures same_map { file_map self.new ≡ file_map self.old }
        ensures within { IfOk result (λ n. n ≤ length into.new) }
        ensures bytes { IfOk result (λ n. ReadsTold (file_map self.old)
            (open_file self.old) (open_file self.new) n into.new) }

        // Steady files stay so, and don't fail.
        ensures stays_steady { IsTrue (steady self.old) → IsTrue (steady self.new) }
        ensures steady_reads { IsTrue (steady self.old) → IsOk result }

        ensures later { faults self.old ≤ faults self.new }
        ensures cause { OnErr result (Rose (faults self.old) (faults self.new)) };
}

/// A stream that bytes are written to.
pub trait Sink {
    /// The bytes written so far, where told.
    ghost written: { Self → Option (List ℕ) };

    /// How many calls have failed, counted in 64 bits.
    ghost faults: { Self → ℕ };

    /// Appends the whole piece, or fails after a front of it, which may be nothing.
    fn write_all(&mut self, piece: &[u8]) -> Result<(), Failed>
        ensures ok { OnOk result (Appends (written self.old) (written self.new) piece.now) }
        ensures err { OnErr result (AppendsPrefix (written self.old) (written self.new) piece.now) }

        ensures later { faults self.old ≤ faults self.new }
        ensures cause { OnErr result (Rose (faults self.old) (faults self.new)) };
}
