//! Where answers go.

ghost use Rattle.std.specs.Prelude.{◌≡◌, Bool, true};
ghost use Rattle.htl_device.specs.Failures.{is_broken_pipe};

use htl_device::{Sink, Writing};
use std::io::Write;

/// Where the answer goes.
pub trait Output: Sink {
    // Whether a write failed because the reader has gone, as after `head`.
    ghost has_lost_reader: { Self → Bool };

    /// Whether a write failed because the reader has gone, as after `head`.
    fn has_lost_reader(&self) -> bool
        ensures is { result ≡ has_lost_reader self.now }
        ensures failed { result ≡ true → (Self.state self.now).failed ≡ true };
}

impl<W: Write> Output for Writing<W> {
    ghost has_lost_reader = { λ s. is_broken_pipe s.failure };

    fn has_lost_reader(&self) -> bool {
        self.is_pipe_broken()
    }
}
