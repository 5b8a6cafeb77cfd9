//! Gaps: missing segments.

/// Segments of a processor that are missing.
#[derive(Clone, Copy, Debug, PartialEq, Eq)]
pub enum Gap {
    /// An unbroken run of numbers is missing, from the first to the last of these, and greater numbers
    /// are there.
    Between { processor: u16, from: u32, to: u32 },
    /// No number of the processor is there.
    Absent { processor: u16 },
}

impl Gap {
    ghost use Rattle.std.specs.Prelude.{◌≡◌};
    ghost use Rattle.htl_taken.specs.Gaps.{first_of, processor_of};

    /// The processor whose segments are missing.
    pub fn processor(self) -> u16
        ensures { result ≡ processor_of self }
    {
        match self {
            Gap::Between { processor, .. } | Gap::Absent { processor } => processor,
        }
    }

    /// The first missing number: 0 where no number of the processor is there.
    pub fn first(self) -> u32
        ensures { result ≡ first_of self }
    {
        match self {
            Gap::Between { from, .. } => from,
            Gap::Absent { .. } => 0,
        }
    }
}
