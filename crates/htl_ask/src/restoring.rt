//! Saved states that come before all files: they are read and merged, one after the other.

ghost use Rattle.std.specs.Prelude.{◌≡◌, map, string_bytes};
ghost use Rattle.htl_world.specs.Worlds.{change};
ghost use Rattle.htl_ask.specs.Beginnings.{placed};
ghost use Rattle.htl_ask.specs.Loads.{RestoresAs};

use crate::states::{half_known, merge_named};
use htl_case::CaseFault;
use htl_command::Setting;
use htl_main::{Folded, Refused, RunFault};
use htl_world::World;
use std::alloc::Global;

/// What is folded of the states of these names. The first state that is refused is reported, with its
/// place. No gap is looked for between states.
pub(crate) fn restored<W: World>(
    alloc: Global,
    world: &mut W,
    setting: Setting,
    names: &[String],
) -> Result<Folded, Refused>
    ensures { RestoresAs (change (W.state world.old) (W.state world.new))
        (map string_bytes names.now) result }
{
    let setting = Setting {
        complete: false,
        ..setting
    };
    let mut folded = Folded::none(alloc);
    for (place, name) in names.iter().enumerate() {
        if let Err(fault) = merge_named(alloc, world, setting, &mut folded, name) {
            return Err(half_known(placed(place as u64, fault)));
        }
    }
    Ok(folded)
}

/// The fault of the state at a place.
fn placed(place: u64, fault: RunFault) -> RunFault
    ensures { result ≡ placed place fault }
{
    match fault {
        RunFault::State { offset, fault, .. } => RunFault::State {
            state: place,
            offset,
            fault,
        },
        RunFault::Unbounded { processor, .. } => RunFault::Unbounded {
            state: place,
            processor,
        },
        RunFault::StateRead { .. } => RunFault::StateRead { state: place },
        RunFault::Case(CaseFault::OtherTrace(_)) => RunFault::Case(CaseFault::OtherTrace(place)),
        RunFault::Case(CaseFault::OtherProcessors(_)) => {
            RunFault::Case(CaseFault::OtherProcessors(place))
        }
        other => other,
    }
}
