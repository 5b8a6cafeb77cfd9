//! The two versions of the format, and what each allows.
/// A version of the format.
#[derive(Clone, Copy, Debug, PartialEq, Eq)]
pub enum Version {
    /// The first version: it has no process exits.
    V1,
    /// The second version: it adds process exits, more processors and deeper stacks.
    V2,
}

/// The limits of a version.
#[derive(Clone, Copy, Debug, PartialEq, Eq)]
pub struct Limits {
    /// The most processors of a trace.
    pub processors: u16,
    /// The most addresses of a stack.
    pub frames: u8,
    /// The greatest code of a kind.
    pub kinds: u8,
    /// The most bytes of a segment: its header and 4,096 records with the most addresses each.
    pub len: u32,
}

const V1_LIMITS: Limits = Limits {
    processors: 64,
    frames: 32,
    kinds: 6,
    len: 1_196_064,
};

const V2_LIMITS: Limits = Limits {
    processors: 256,
    frames: 64,
    kinds: 7,
    len: 2_244_640,
};

impl Version {
    ghost use Rattle.std.specs.Prelude.{◌≡◌};
    ghost use Rattle.htl_segment.specs.Versions.{version_number, limits_of};
    ghost use Rattle.htl_segment.specs.Reading.{version_of};

    /// The version whose headers have this number.
    pub fn from_number(number: u16) -> Option<Version>
        ensures { result ≡ version_of number }
    {
        match number {
            1 => Some(Version::V1),
            2 => Some(Version::V2),
            _ => None,
        }
    }

    /// The number that a header has.
    pub fn number(self) -> u16
        ensures { result ≡ version_number self }
    {
        match self {
            Version::V1 => 1,
            Version::V2 => 2,
        }
    }

    /// The limits of this version.
    pub fn limits(self) -> Limits
        ensures { result ≡ limits_of self }
    {
        match self {
            Version::V1 => V1_LIMITS,
            Version::V2 => V2_LIMITS,
        }
    }
}
