//! Which of the standard devices are terminals.

ghost use Rattle.std.specs.Prelude.{◌≡◌, ◌&&◌};

use std::io::IsTerminal;

/// Which of the standard devices are terminals. The system is asked once, as the program begins.
#[derive(Clone, Copy)]
pub struct Terminals {
    /// Standard input is one: a person types what is read of it.
    pub input: bool,
    /// Standard output is one: a person is shown its bytes.
    pub output: bool,
    /// Standard error is one: a person watches.
    pub errors: bool,
}

impl Terminals {
    /// Asks the system.
    pub fn ask(rt: HostRuntime) -> Terminals {
        Terminals {
            input: rt.stdin().is_terminal(),
            output: rt.stdout().is_terminal(),
            errors: rt.stderr().is_terminal(),
        }
    }

    /// Whether the person who watches also types.
    pub fn has_typist(self) -> bool
        ensures { result ≡ (self.errors && self.input) }
    {
        self.errors && self.input
    }
}
