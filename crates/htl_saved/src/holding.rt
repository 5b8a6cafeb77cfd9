//! The held segments of rows, taken by an analyst.

ghost use Rattle.std.specs.Prelude.{◌≡◌, OnOk};
ghost use Rattle.std.specs.List.{flat_map};
ghost use Rattle.htl_analyst.specs.Restored.{AreNew, with_segments};

use htl_analyst::Analyst;
use htl_event::NoMemory;
use htl_segment::Segment;
use htl_state::PartRows;
use std::alloc::Global;

/// Takes the held segments of all parts. Each is new.
pub(crate) fn take_held(analyst: &mut Analyst<Global>, parts: &[PartRows]) -> Result<(), NoMemory>
    requires { AreNew analyst.old (flat_map (λ p. p.held) parts.now) }
    ensures { OnOk result (analyst.new
        ≡ with_segments analyst.old (flat_map (λ p. p.held) parts.now)) }
{
    for part in parts {
        take_all(analyst, &part.held)?;
    }
    Ok(())
}

/// Takes the segments. Each is new.
fn take_all(analyst: &mut Analyst<Global>, segments: &[Segment]) -> Result<(), NoMemory>
    requires { AreNew analyst.old segments.now }
    ensures { OnOk result (analyst.new ≡ with_segments analyst.old segments.now) }
{
    for segment in segments {
        match analyst.take(segment.copy()?) {
            Ok(_) => {}
            Err(_) => return Err(NoMemory),
        }
    }
    Ok(())
}
