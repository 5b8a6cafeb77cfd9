//! Starting an exchange: the queue is filled with the runs of a case, and its desks are made.
ghost use Rattle.std.specs.Prelude.{◌≡◌, ◌≢◌, ◌+◌, ◌*◌, ◌≤◌, ◌<◌, ◌↔◌, ◌⊎◌, ◌++◌, ℕ, []};
ghost use Rattle.std.specs.Prelude.{filter, OnOk, IfOk, vec_len, Err};
ghost use Rattle.std.specs.List.{list_any};
ghost use Rattle.crossbeam_queue.specs.Passes.{IsPassOf, IsSamePass, ruled_capacity};
ghost use Rattle.htl_analyst.specs.Keys.{HasTaken};
ghost use Rattle.htl_analyst.specs.Right.{IsRight};
ghost use Rattle.htl_exchange.specs.Runs.{runs_of, size, is_of, IsRunOf};
ghost use Rattle.htl_exchange.specs.Rule.{all_parts, blank};
ghost use Rattle.htl_exchange.specs.Moves.{known_of};
ghost use Rattle.htl_exchange.specs.Filling.{FillsTo, IsIdle};
ghost use Rattle.htl_exchange.specs.Desks.{AreDesksOf, AreAtExchange, AreFresh};
ghost use Rattle.htl_exchange.specs.Desks.{parts_at, pushes_at};

use crate::MAX_DESKS;
use crate::desk::Desk;
use crate::exchange::Exchange;
use crate::fault::StartFault;
use crate::parcel::Parcel;
use crate::pass::DeskPass;
use crate::rule::{Fills, ParcelQueue, Parts};
use htl_analyst::{Analyst, AnalystFault};
use htl_case::Case;
use htl_event::NoMemory;
use htl_segment::Segment;
use std::alloc::Global;
use std::snapshot::Snapshot;
use std::sync::Wait;

impl Exchange {
    /// An exchange and this many desks. The queue holds each run of the case, by processor: one
    /// parcel for each processor that has a segment. Its segments share their events with the case.
    /// Besides the runs the queue has room for two posted states a desk. The desks have taken in
    /// nothing.
    pub fn start<R: Wait>(
        rt: &R,
        alloc: Global,
        case: &Case,
        desks: u32,
    ) -> Result<(Exchange, Vec<Desk>), StartFault>
        ensures of { IfOk result (λ r. (r.0.trace ≡ case.now) × (r.0.desks ≡ desks)
            × AreDesksOf r.0 r.1.items) }
        ensures fresh { IfOk result (λ r. AreFresh r.1.items × (parts_at r.1.items ≡ all_parts)
            × (vec_len r.1 ≡ desks)) }

        // One parcel for each run: by the rule each run is in a parcel, each parcel has one run
        // while nothing is posted, and there are no more parcels than pushes.
        ensures parcels { IfOk result (λ r. pushes_at r.1.items
            ≡ size (runs_of case.now.segments)) }
        ensures room { IfOk result (λ r. r.0.capacity
            ≡ size (runs_of case.now.segments) + 2 * desks) }
        ensures desks { (result ≡ Err StartFault.Desks) ↔ ((desks ≡ 0) ⊎ (8 < desks)) }
    {
        if desks == 0 || desks > MAX_DESKS {
            return Err(StartFault::Desks);
        }
        match open(rt, alloc, case, desks) {
            Ok(opened) => Ok(opened),
            Err(NoMemory) => Err(StartFault::NoMemory),
        }
    }
}

fn open<R: Wait>(
    rt: &R,
    alloc: Global,
    case: &Case,
    desks: u32,
) -> Result<(Exchange, Vec<Desk>), NoMemory>
    requires { (0 < desks) × (desks ≤ all_parts) }
    ensures of { IfOk result (λ r. (r.0.trace ≡ case.now) × (r.0.desks ≡ desks)
        × AreDesksOf r.0 r.1.items) }
    ensures fresh { IfOk result (λ r. AreFresh r.1.items × (parts_at r.1.items ≡ all_parts)
        × (vec_len r.1 ≡ desks)) }
    ensures parcels { IfOk result (λ r. pushes_at r.1.items ≡ size (runs_of case.now.segments)) }
    ensures room { IfOk result (λ r. r.0.capacity
        ≡ size (runs_of case.now.segments) + 2 * desks) }
{
    let capacity = run_count(case) + 2 * desks as usize;
    let (queue, mut pass) = ParcelQueue::ruled(alloc, capacity)?;
    fill(rt, alloc, case, &queue, &mut pass)?;
    let made = make_desks(alloc, case, &queue, pass, desks)?;
    let case = Snapshot::of(case);
    Ok((Exchange { queue, case, desks }, made))
}

// How many processors have a segment.
#[tactic(auto, using(crate::proofs::Fillings::any_of_run))]
fn run_count(case: &Case) -> usize
    ensures runs { result ≡ size (runs_of case.now.segments) }
    ensures few { result ≤ 65536 }
{
    // For the proof: what every case keeps is known once it is read.
    let _is_case = case.segments();
    let mut runs = 0;
    for processor in 0..case.processors() {
        if has_run(case, processor) {
            runs += 1;
        }
    }
    runs
}

fn has_run(case: &Case, processor: u16) -> bool
    ensures { result ≡ list_any (is_of processor) case.now.segments }
{
    case.segments()
        .iter()
        .any(|segment| segment.processor() == processor)
}

// Puts the runs into the queue, by processor. The queue has room for all of them.
fn fill<R: Wait>(
    rt: &R,
    alloc: Global,
    case: &Case,
    queue: &ParcelQueue,
    pass: &mut DeskPass,
) -> Result<(), NoMemory>
    requires pass { IsPassOf queue.now pass.old × (known_of pass.old ≡ blank) }
    requires room { size (runs_of case.now.segments) < ruled_capacity queue.now }
    ensures pass { IsSamePass pass.old pass.new }
    ensures ok { OnOk result (IsIdle case.now all_parts (known_of pass.new)) }
    ensures pushes { OnOk result ((known_of pass.new).pushes ≡ size (runs_of case.now.segments)) }
{
    // For the proof: what every case keeps is known once it is read.
    let _is_case = case.segments();
    for processor in 0..case.processors() {
        put_run(rt, alloc, case, queue, pass, processor)?;
    }
    Ok(())
}

// Puts in one run, if the processor has one.
fn put_run<R: Wait>(
    rt: &R,
    alloc: Global,
    case: &Case,
    queue: &ParcelQueue,
    pass: &mut DeskPass,
    processor: u16,
) -> Result<(), NoMemory>
    requires pass { IsPassOf queue.now pass.old }
    requires fills { FillsTo case.now processor (known_of pass.old) }
    requires room { size (runs_of case.now.segments) < ruled_capacity queue.now }
    ensures pass { IsSamePass pass.old pass.new }
    ensures ok { OnOk result (FillsTo case.now (processor + 1) (known_of pass.new)) }
{
    // For the proof: what every case keeps is known once it is read.
    let _is_case = case.segments();
    let run = copy_run(alloc, case, processor)?;
    if run.is_empty() {
        return Ok(());
    }
    let parcel = Parcel::Run(run, Snapshot::of(case));
    match queue.push_as::<Fills, R>(rt, pass, parcel) {
        Ok(()) => Ok(()),
        // No more parcels are in the queue than runs were put there.
        Err(_) => unreachable!(),
    }
}

// Copies of the segments of one processor, that of the highest number first.
fn copy_run(alloc: Global, case: &Case, processor: u16) -> Result<Vec<Segment>, NoMemory>
    ensures { IfOk result (λ run. IsRunOf case.now processor run.items) }
{
    let mut run = Vec::new(alloc);
    push_run(&mut run, case.segments(), processor)?;
    run.reverse();
    Ok(run)
}

fn push_run(run: &mut Vec<Segment>, segments: &[Segment], processor: u16) -> Result<(), NoMemory>
    ensures { OnOk result (run.new.items
        ≡ run.old.items ++ filter (is_of processor) segments.now) }
{
    for segment in segments {
        if segment.processor() == processor {
            run.push(segment.copy()?)?;
        }
    }
    Ok(())
}

// A desk for each of this many parts of the pass. The last has the first pass, with what is left of
// it.
fn make_desks(
    alloc: Global,
    case: &Case,
    queue: &ParcelQueue,
    pass: DeskPass,
    count: u32,
) -> Result<Vec<Desk>, NoMemory>
    requires pass { IsPassOf queue.now pass }
    requires idle { IsIdle case.now all_parts (known_of pass) }
    requires count { (0 < count) × (count ≤ all_parts) }
    ensures of { IfOk result (λ desks. AreAtExchange pass.table_id case.now desks.items) }
    ensures fresh { IfOk result (λ desks. AreFresh desks.items) }
    ensures parts { IfOk result (λ desks. (parts_at desks.items ≡ all_parts)
        × (vec_len desks ≡ count)) }
    ensures pushes { IfOk result (λ desks. pushes_at desks.items ≡ (known_of pass).pushes) }
{
    let mut pass = pass;
    let mut desks = Vec::with_capacity(alloc, count as usize)?;
    for _ in 1..count {
        let analyst = new_analyst(alloc, case)?;
        let part = queue.another::<Parts>(&mut pass);
        desks.push_reserved(Desk::new(analyst, part, 1));
    }
    let analyst = new_analyst(alloc, case)?;
    desks.push_reserved(Desk::new(analyst, pass, MAX_DESKS + 1 - count));
    Ok(desks)
}

// An analyst of the case that has taken nothing. Every case has a number of processors that it
// takes.
fn new_analyst(alloc: Global, case: &Case) -> Result<Analyst<Global>, NoMemory>
    ensures right { IfOk result (λ analyst. IsRight analyst case.now) }
    ensures none { IfOk result (λ analyst. (p n : ℕ) → HasTaken analyst p n → ⊥) }
    ensures some { OnOk result (case.now.segments ≢ []) }
{
    // For the proof: what every case keeps is known once it is read.
    let _is_case = case.segments();
    match Analyst::new(alloc, case.trace_id(), case.processors()) {
        Ok(analyst) => Ok(analyst),
        Err(AnalystFault::NoMemory) => Err(NoMemory),
        Err(AnalystFault::Processors) => unreachable!(),
    }
}
