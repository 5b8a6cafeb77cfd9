//! Picks what a question asks about from sources, each of which is read to its end.

ghost use Rattle.std.specs.Prelude.{◌≡◌, false, map, IfErr, IfOk, IfSome};
ghost use Rattle.htl_device.specs.States.{AreOpen, IsOpen};
ghost use Rattle.htl_inputs.specs.Reads.{IsRead, NeverWrite, ReadsAll, StopsIn};
ghost use Rattle.htl_inputs.specs.Sources.{IsReportedOfSource};
ghost use Rattle.htl_reading.specs.Sources.{AsksReaders};
ghost use Rattle.htl_main.specs.Picked.{NeverCase};
ghost use Rattle.htl_main.specs.Picking.{AreAllPicked, ArePicksMore};

use htl_command::InputForm;
use htl_device::{MAX_READS, Parted};
use htl_event::Interest;
use htl_inputs::{Accepted, CutEnd, RunFault, accept, add_end};
use htl_reading::gather_bundle;
use htl_segment::Picks;
use std::alloc::Global;
use std::thread::Threads;

/// What was picked of all sources, and which of them were cut.
#[derive(Drop)]
pub(crate) struct AllPicks {
    pub picks: Picks,
    pub cuts: Vec<CutEnd>,
}

/// Picks what is asked about from all sources, and tells which of them were cut. The first fault is
/// reported, and ends the reading.
pub(crate) fn pick_all<Rt: Threads + Sync, R: Parted>(
    rt: &Rt,
    alloc: Global,
    form: InputForm,
    interest: Interest,
    workers: u32,
    sources: &mut [R],
) -> Result<AllPicks, RunFault>
    requires ready { AreOpen (map R.state sources.old) }
    requires bytes { form.hex ≡ false }
    ensures reads { ReadsAll false workers (map R.state sources.old) (map R.state sources.new)
        (AreAllPicked form interest) (StopsIn form (map R.state sources.new)) result }
    ensures no_write { NeverWrite result }
    ensures no_case { NeverCase result }
{
    let mut picks = Picks::new(alloc, interest);
    let mut cuts = Vec::new(alloc);
    for (place, source) in sources.iter_mut().enumerate() {
        let more = pick_source(rt, alloc, form, workers, place as u64, source, picks)?;
        picks = more.segments;
        add_end(&mut cuts, place as u64, more.end)?;
    }
    Ok(AllPicks { picks, cuts })
}

/// Adds to the picks what is asked about from the source at a place, and tells whether it was cut.
fn pick_source<Rt: Threads + Sync, R: Parted>(
    rt: &Rt,
    alloc: Global,
    form: InputForm,
    workers: u32,
    place: u64,
    source: &mut R,
    picks: Picks,
) -> Result<Accepted<Picks>, RunFault>
    requires ready { IsOpen (R.state source.old) }
    requires bytes { form.hex ≡ false }
    ensures ok { IfOk result (λ new. IfSome (R.state source.old).remaining (λ bytes.
        ArePicksMore form picks new.segments bytes new.end)) }
    ensures err { IfErr result (λ fault. IfSome (R.state source.old).remaining (λ bytes.
        IsReportedOfSource form (R.state source.new).remaining (R.state source.new).ended
        place bytes fault)) }
    ensures reading { IsRead false MAX_READS place (R.state source.old)
        (R.state source.new) result }
    ensures readers { AsksReaders workers (R.state source.old).remaining (R.state source.old)
        (R.state source.new) }
    ensures no_write { NeverWrite result }
    ensures no_case { NeverCase result }
{
    match gather_bundle(rt, alloc, workers, source, picks) {
        Ok(bundle) => accept(form, place, bundle),
        Err(fault) => Err(RunFault::from_source(place, fault)),
    }
}
