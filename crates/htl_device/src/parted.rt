//! Sources that several workers may read at once.

ghost use Rattle.std.specs.Prelude.{◌≡◌, ◌⊎◌, Bool, IfSome, OnSome, false, length, true};
ghost use Rattle.htl_device.specs.Devices.{tail_of};
ghost use Rattle.htl_device.specs.States.{IsOpen, IsSkipped, tailed};

use crate::{Reading, Source};
use std::io::{Empty, Read};

/// A source that may be read from several places at once, as a file may that is opened once more for
/// each. What can be read only once gives none.
pub trait Parted: Source {
    /// What reads from a place on.
    type Tail: Read + Send + Drop;

    // Whether it can be read from several places.
    ghost is_parted: { Self → Bool };

    /// The number of bytes that are left, if it can be read from several places.
    fn len(&self) -> Option<u64>
        ensures parted { OnSome result (is_parted self.now ≡ true) }
        ensures len { IfSome result (λ len. IfSome (Self.state self.now).remaining
            (λ bytes. length bytes ≡ len)) };

    /// Another reader, of the bytes that are left from an offset on. Each call counts, also one that
    /// gives none.
    fn tail(&mut self, offset: u64) -> Option<Self::Tail>
        ensures bytes { IfSome result (λ tail.
            Self.Tail.remaining tail ≡ tail_of offset (Self.state self.old).remaining) }
        ensures state { Self.state self.new ≡ tailed (Self.state self.old) }
        ensures parted { is_parted self.new ≡ is_parted self.old };

    /// Skips the next bytes, which were read by other readers. A source that can't be read from
    /// several places skips none.
    fn skip(&mut self, len: u64)
        requires parted { (len ≡ 0) ⊎ (is_parted self.old ≡ true) }
        requires ready { IsOpen (Self.state self.old) }
        ensures { IsSkipped len (Self.state self.old) (Self.state self.new) };
}

/// A reader of std is read from one place.
impl<R: Read> Parted for Reading<R> {
    type Tail = Empty;

    ghost is_parted = { λ _. false };

    fn len(&self) -> Option<u64> {
        None
    }

    fn tail(&mut self, _offset: u64) -> Option<Empty> {
        self.tails = self.tails.saturating_add(1);
        None
    }

    fn skip(&mut self, _len: u64) {}
}
