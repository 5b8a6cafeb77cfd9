//! The bytes that go to the output, whole or in part.

ghost use Rattle.std.specs.Prelude.{◌≡◌, false, true, IfErr, OnOk};
ghost use Rattle.std.specs.Io.KnownBytes.{Appends};
ghost use Rattle.htl_device.specs.Devices.{AppendsPrefix};

use crate::fault::RunFault;
use htl_device::{Sink, write_whole};

/// Writes the whole text, or some first part of it where the sink fails.
pub fn write_lines<W: Sink>(out: &mut W, lines: &[u8]) -> Result<(), RunFault>
    requires { (W.state out.old).failed ≡ false }
    ensures ok { OnOk result
        (Appends (W.state out.old).contents (W.state out.new).contents lines.now) }
    ensures fine { OnOk result ((W.state out.new).failed ≡ false) }
    ensures err { IfErr result (λ fault. (fault ≡ RunFault.Write)
        × ((W.state out.new).failed ≡ true)
        × AppendsPrefix (W.state out.old).contents (W.state out.new).contents lines.now) }
{
    write_whole(out, lines).map_err(|_| RunFault::Write)
}
