//! The codes that kinds have in records.
ghost use Rattle.std.specs.Prelude.{◌≡◌};
ghost use Rattle.htl_segment.specs.Content.{kind_code};

use crate::version::Version;
use htl_event::Kind;

impl Version {
    ghost use Rattle.std.specs.Prelude.{◌≡◌};
    ghost use Rattle.htl_segment.specs.Reading.{kind_in};

    /// The kind that has this code, if the version has such a kind.
    pub fn kind(self, code: u8) -> Option<Kind>
        ensures { result ≡ kind_in self code }
    {
        if code > self.limits().kinds {
            return None;
        }
        match code {
            1 => Some(Kind::Opened),
            2 => Some(Kind::Closed),
            3 => Some(Kind::BadRef),
            4 => Some(Kind::Snapshot),
            5 => Some(Kind::Ref),
            6 => Some(Kind::Deref),
            7 => Some(Kind::Exited),
            _ => None,
        }
    }
}

/// The code of a kind, the same in each version that has the kind.
pub fn code_of(kind: Kind) -> u8
    ensures { result ≡ kind_code kind }
{
    match kind {
        Kind::Opened => 1,
        Kind::Closed => 2,
        Kind::BadRef => 3,
        Kind::Snapshot => 4,
        Kind::Ref => 5,
        Kind::Deref => 6,
        Kind::Exited => 7,
    }
}
