//! What the program opens.

ghost use Rattle.std.specs.Prelude.{◌≡◌, true};
ghost use Rattle.htl_world.specs.Worlds.{IsOpened, IsReadWhole, IsStandard, IsWritten, WorldState};
ghost use Rattle.htl_world.specs.Worlds.{for_questions, for_standard};

use htl_device::Parted;

/// Why a name could not be opened.
#[derive(Clone, Copy, Debug, PartialEq, Eq)]
pub enum OpenFault {
    /// There is nothing that can be opened.
    Refused,
    /// An allocation was refused.
    NoMemory,
}

/// Where files are: it has bytes under names, and a standard input. It may keep a log of what it was
/// asked for.
pub trait World {
    type Input: Parted + Drop;

    // What is known of it, and what it was asked for so far.
    ghost state: { Self → WorldState };

    /// The source of a name, of which nothing was read.
    fn open(&mut self, name: &str) -> Result<Self::Input, OpenFault>
        ensures { IsOpened Self.Input.state (state self.old) (state self.new) name.now result };

    /// All bytes of a name.
    fn read(&mut self, name: &str) -> Result<Vec<u8>, OpenFault>
        ensures { IsReadWhole (state self.old) (state self.new) name.now result };

    /// Has a name hold these bytes, all of them or what it held before, whatever happens meanwhile.
    /// Of a name that may be written it isn't known what it holds.
    fn write(&mut self, name: &str, bytes: &[u8]) -> Result<(), OpenFault>
        ensures { IsWritten (state self.old) (state self.new) name.now bytes.now result };

    /// Standard input, of which nothing was read.
    fn standard_input(&mut self) -> Self::Input
        ensures { IsStandard Self.Input.state (state self.old) (state self.new) for_standard result };

    /// Standard input as the lines of a dialogue, of which nothing was read.
    fn questions(&mut self) -> Self::Input
        ensures { IsStandard Self.Input.state (state self.old) (state self.new) for_questions result };

    /// Whether a name gives the same bytes, as fast, when it is opened again. A regular file does;
    /// a pipe or a device doesn't.
    fn can_be_read_again(&self, name: &str) -> bool
        ensures { result ≡ true → (state self.now).known.can_be_read_again name.now ≡ true };

    /// Whether standard input gives the same bytes, as fast, when it is asked for again. A regular
    /// file does.
    fn standard_can_be_read_again(&self) -> bool
        ensures { result ≡ true → (state self.now).known.standard_can_be_read_again ≡ true };
}
