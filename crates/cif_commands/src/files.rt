//! Where a call's inputs come from.
ghost use Rattle.std.specs.Prelude.{◌≡◌, ℕ, List, Option, IfOk};

use cif_columns::ReadDevice;
use std::io;

/// What opens the inputs of a call: files by their names, and the standard input.
pub trait Files: Copy {
    type File: ReadDevice + Drop;

    type Standard: ReadDevice + Drop;

    // What the file of a name gives, where that is known. A name that can't be opened gives nothing that is known.
    ghost of_file: { Self → List ℕ → Option (List ℕ) };

    // What the standard input gives, where that is known.
    ghost of_standard: { Self → Option (List ℕ) };

    /// The file of this name, of which nothing was read.
    fn open(self, name: &str) -> io::Result<Self::File>
        ensures { IfOk result (λ file. Self.File.remaining file ≡ of_file self name.now) };

    /// The standard input, of which nothing was read.
    fn standard(self) -> Self::Standard
        ensures { Self.Standard.remaining result ≡ of_standard self };

    /// Whether a file that was read to its end can be opened again and read from its beginning, as no pipe can.
    fn reopens(self, file: &mut Self::File) -> bool
        ensures { Self.File.remaining file.new ≡ Self.File.remaining file.old };
}
