//! Surveys: workers in threads of their own take in a whole case.
ghost use Rattle.std.specs.Prelude.{◌≡◌, ◌≢◌, ◌<◌, ◌≤◌, ◌↔◌, ◌⊎◌, IfOk, IfSome, Err};
ghost use Rattle.std.specs.Prelude.{vec_len, vec_capacity};
ghost use Rattle.htl_exchange.specs.Rule.{all_parts};
ghost use Rattle.htl_exchange.specs.Desks.{AreDesksOf, IsDeskOf, parts_at, IsWholeStanding};

use crate::desk::{Collected, Desk};
use crate::exchange::Exchange;
use crate::fault::{StartFault, SurveyFault, Why};
use crate::gate::Gate;
use htl_analyst::Analyst;
use htl_case::Case;
use std::alloc::Global;
use std::sync::Wait;
use std::thread;
use std::thread::{Promise, Scope, Threads};

/// The compacted state of the whole case, taken in by 1 to 8 workers at once. Each worker
/// is a started thread with a desk of its own, which calls the gate before each of its turns; a
/// turn is one `collect`. A worker stops at the first turn that finds nothing or is refused memory,
/// or after one turn more than there are processors. What a refused turn left is taken in at the
/// end.
pub fn survey<G: Gate + Sync, R: Threads + Wait + Sync>(
    rt: &R,
    alloc: Global,
    case: &Case,
    workers: u32,
    gate: &G,
) -> Result<Analyst<Global>, SurveyFault>
    ensures whole { IfOk result (λ analyst. IsWholeStanding case.now analyst) }
    ensures workers { (result ≡ Err SurveyFault.Workers) ↔ ((workers ≡ 0) ⊎ (8 < workers)) }
{
    let (exchange, desks) = start(rt, alloc, case, workers)?;
    take_in(rt, exchange, gate, most_turns(case), desks)
}

/// As `survey`, of a case that nobody needs any longer. It is dropped before the workers start, so
/// that the events of a processor are gone once they are folded, and need not lie beside the whole
/// answer. A fault drops it too.
pub fn survey_owned<G: Gate + Sync, R: Threads + Wait + Sync>(
    rt: &R,
    alloc: Global,
    case: Case,
    workers: u32,
    gate: &G,
) -> Result<Analyst<Global>, SurveyFault>
    ensures whole { IfOk result (λ analyst. IsWholeStanding case analyst) }
    ensures workers { (result ≡ Err SurveyFault.Workers) ↔ ((workers ≡ 0) ⊎ (8 < workers)) }
{
    let (exchange, desks) = start(rt, alloc, &case, workers)?;
    let turns = most_turns(&case);
    drop(case);
    take_in(rt, exchange, gate, turns, desks)
}

// An exchange of the case, and a desk for each worker.
fn start<R: Wait>(
    rt: &R,
    alloc: Global,
    case: &Case,
    workers: u32,
) -> Result<(Exchange, Vec<Desk>), SurveyFault>
    ensures of { IfOk result (λ r. (r.0.trace ≡ case.now) × AreDesksOf r.0 r.1.items) }
    ensures all { IfOk result (λ r. (parts_at r.1.items ≡ all_parts) × (vec_len r.1 ≤ all_parts)) }
    ensures workers { (result ≡ Err SurveyFault.Workers) ↔ ((workers ≡ 0) ⊎ (8 < workers)) }
{
    match Exchange::start(rt, alloc, case, workers) {
        Ok(started) => Ok(started),
        Err(StartFault::Desks) => Err(SurveyFault::Workers),
        Err(StartFault::NoMemory) => Err(SurveyFault::NoMemory),
    }
}

// One more than there are processors.
fn most_turns(case: &Case) -> u32 {
    u32::from(case.processors()) + 1
}

// Lets a worker at each desk, all at once, and puts together what they took in.
fn take_in<G: Gate + Sync, R: Threads + Wait + Sync>(
    rt: &R,
    exchange: Exchange,
    gate: &G,
    turns: u32,
    desks: Vec<Desk>,
) -> Result<Analyst<Global>, SurveyFault>
    requires { AreDesksOf exchange desks.items × (parts_at desks.items ≡ all_parts)
        × (vec_len desks ≤ all_parts) }
    ensures whole { IfOk result (λ analyst. IsWholeStanding exchange.trace analyst) }
    ensures workers { result ≢ Err SurveyFault.Workers }
{
    let Some(desks) = work_together(rt, &exchange, gate, turns, desks) else {
        return Err(SurveyFault::NoThread);
    };
    match exchange.close(rt, desks) {
        Ok(analyst) => Ok(analyst),
        Err(fault) => match fault.why {
            Why::NoMemory => Err(SurveyFault::NoMemory),
            // All desks came back.
            Why::DesksOut(_, _) => unreachable!(),
        },
    }
}

// The desks after all workers have stopped. None: a worker wasn't started.
fn work_together<G: Gate + Sync, R: Threads + Wait + Sync>(
    rt: &R,
    exchange: &Exchange,
    gate: &G,
    turns: u32,
    desks: Vec<Desk>,
) -> Option<Vec<Desk>>
    requires { AreDesksOf exchange.now desks.items × (vec_len desks ≤ all_parts) }
    ensures { IfSome result (λ v. AreDesksOf exchange.now v.items
        × (parts_at v.items ≡ parts_at desks.items)) }
{
    thread::scope(
        thread::scope_env(),
        rt,
        |scope| -> Option<Vec<Desk>>
            requires { AreDesksOf exchange.now desks.items × (vec_len desks ≤ all_parts) }
            ensures { IfSome result (λ v. AreDesksOf exchange.entry.now v.items
                × (parts_at v.items ≡ parts_at desks.items)) }
        { work_all(scope, rt, exchange, gate, turns, desks) },
    )
}

// Starts a worker for each desk, the last first, and joins them.
fn work_all<'s, E, G: Gate + Sync, R: Threads + Wait + Sync>(
    scope: &Scope<'s, E>,
    rt: &'s R,
    exchange: &'s Exchange,
    gate: &'s G,
    turns: u32,
    desks: Vec<Desk>,
) -> Option<Vec<Desk>>
    requires { AreDesksOf exchange.now desks.items × (vec_len desks ≤ all_parts) }
    ensures of { IfSome result (λ v. AreDesksOf exchange.now v.items
        × (parts_at v.items ≡ parts_at desks.items)) }
    ensures room { IfSome result (λ v. (vec_len v ≡ vec_len desks)
        × (vec_capacity v ≡ vec_capacity desks)) }
{
    let mut desks = desks;
    let Some(desk) = desks.pop() else {
        return Some(desks);
    };
    let worker = desks.len() as u32;
    let promise = ComesBack(exchange, desk.parts());
    let started = scope.spawn_with(
        promise,
        move || -> Desk
            requires { IsDeskOf exchange.now desk }
            ensures { IsDeskOf exchange.entry.now result × (result.known.parts ≡ desk.known.parts) }
        { work(rt, exchange, gate, worker, turns, desk) },
    );
    let Ok(thread) = started else {
        return None;
    };
    let rest = work_all(scope, rt, exchange, gate, turns, desks);
    let desk = thread.join(rt);
    let mut desks = rest?;
    desks.push_reserved(desk);
    Some(desks)
}

// What a worker's thread promises: a desk of this exchange comes back, with this many parts.
#[derive(Clone, Copy)]
pub(crate) struct ComesBack<'a>(pub(crate) &'a Exchange, pub(crate) u32);

impl<'a> Promise<Desk> for ComesBack<'a> {
    ghost kept_by = { λ p d. IsDeskOf p.0.now d × (d.known.parts ≡ p.1) };
}

// Collects until there is nothing, memory is refused or the turns are over.
fn work<G: Gate, R: Wait>(
    rt: &R,
    exchange: &Exchange,
    gate: &G,
    worker: u32,
    turns: u32,
    desk: Desk,
) -> Desk
    requires { IsDeskOf exchange.now desk }
    ensures { IsDeskOf exchange.now result × (result.known.parts ≡ desk.known.parts) }
{
    let mut desk = desk;
    for turn in 1..=turns {
        gate.before(worker, turn, desk.analyst());
        match desk.collect(rt, exchange) {
            Ok(Collected::Run | Collected::State) => {}
            Ok(Collected::Nothing) | Err(_) => break,
        }
    }
    desk
}
