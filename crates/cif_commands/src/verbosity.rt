//! How much is said on standard error.
ghost use Rattle.std.specs.Prelude.{◌≡◌, ◌||◌};
ghost use Rattle.cif_commands.specs.Verbosity.{helps};

/// How much is said on standard error.
#[derive(Clone, Copy, PartialEq, Eq)]
pub enum Verbosity {
    /// Only the lines of faults, for scripts.
    Fault,
    /// What helps with a fault too: standard error is a terminal.
    Help,
    /// What was read and done too: `--verbose`.
    All,
}

impl Verbosity {
    /// As much as is asked for, or as a terminal gets.
    pub fn of(is_terminal: bool, verbose: bool) -> Verbosity
        ensures { helps result ≡ (is_terminal || verbose) }
    {
        if verbose {
            Verbosity::All
        } else if is_terminal {
            Verbosity::Help
        } else {
            Verbosity::Fault
        }
    }

    /// Whether it is more than the lines of faults.
    pub fn helps(self) -> bool
        ensures { result ≡ helps self }
    {
        match self {
            Verbosity::Fault => false,
            Verbosity::Help | Verbosity::All => true,
        }
    }
}
