//! Why the system refuses to open, to read or to write something.

ghost use Rattle.std.specs.Prelude.{◌≡◌};
ghost use Rattle.std_io.specs.IoError.{error_kind, raw_os_error};
ghost use Rattle.hleak.specs.Reasons.{is_too_many, reason_of, reason_of_kind};

use std::cell::Cell;
use std::io;
use std::io::ErrorKind;

/// Why something can't be opened, read or written, where a person can do something about it.
#[derive(Clone, Copy, Debug, PartialEq, Eq)]
pub enum Reason {
    /// There is nothing of its name; or no folder, where it is written.
    NotThere,
    /// The rights of the file, or of a folder above it, don't allow it.
    NotAllowed,
    /// It is a folder, which has no bytes.
    Folder,
    /// The process, or the system, has as many open files as it may have.
    TooManyOpen,
    /// The system gave another reason, or none.
    Unknown,
}

impl Reason {
    /// The reason that an error of the system gives.
    pub fn of(error: &io::Error) -> Reason
        ensures { result ≡ reason_of error.now }
    {
        if is_too_many(error.raw_os_error()) {
            return Reason::TooManyOpen;
        }
        Reason::of_kind(error.kind())
    }

    /// The reason that an error of this kind gives.
    fn of_kind(kind: ErrorKind) -> Reason
        ensures { result ≡ reason_of_kind kind }
    {
        match kind {
            ErrorKind::NotFound | ErrorKind::NotADirectory => Reason::NotThere,
            ErrorKind::PermissionDenied => Reason::NotAllowed,
            ErrorKind::IsADirectory => Reason::Folder,
            _ => Reason::Unknown,
        }
    }
}

/// Whether it is the number of the error that too many files are open, which has no kind of its own.
fn is_too_many(number: Option<i32>) -> bool
    ensures { result ≡ is_too_many number }
{
    matches!(number, Some(23 | 24)) // ENFILE and EMFILE
}

/// Why the system last refused to open or to read an input, or to write. Who asks the system notes it,
/// and whoever explains the fault asks for it. No contract says what a cell holds.
#[derive(Drop)]
pub struct LastRefusal {
    reason: Cell<Reason>,
}

impl LastRefusal {
    /// Nothing was refused yet.
    pub fn new() -> LastRefusal {
        LastRefusal {
            reason: Cell::new(Reason::Unknown),
        }
    }

    /// Notes an error of the system.
    pub fn note(&self, error: &io::Error) {
        self.reason.set(Reason::of(error));
    }

    /// Forgets it, since something was opened.
    pub fn forget(&self) {
        self.reason.set(Reason::Unknown);
    }

    /// The reason, where one is known.
    pub fn reason(&self) -> Reason {
        self.reason.get()
    }
}
