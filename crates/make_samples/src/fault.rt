//! Why a trace was not written.

use htl_samples::SampleFault;
use thiserror::Error;

/// Why a trace was not written.
#[derive(Clone, Copy, Debug, PartialEq, Eq, Error)]
pub enum MakeFault {
    /// A segment of it can't be made.
    #[error("{0}")]
    Sample(SampleFault),
    /// A write failed, or took none of some bytes.
    #[error("write failed")]
    Write,
}

impl From<SampleFault> for MakeFault {
    ghost use Rattle.std.specs.Prelude.{◌≡◌};
    ghost use Rattle.make_samples.specs.declared.fault.MakeFault.TheVariants.{Sample};

    ghost from_gives = { λ fault made. made ≡ Sample fault };

    fn from(fault: SampleFault) -> MakeFault {
        MakeFault::Sample(fault)
    }
}
