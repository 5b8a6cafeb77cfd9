//! Callers' threads: desks that collect and post in threads of their own, and are closed.

ghost use Rattle.std.specs.Prelude.{◌≡◌, IfSome, vec_len, vec_capacity};
ghost use Rattle.htl_exchange.specs.Desks.{AreDesksOf, IsDeskOf};

use crate::exchanges::{TWO_PROCESSORS, TWO_RUNS, case_of, collect, is_whole, post};
use crate::rows::assert_row;
use htl_analyst::Analyst;
use htl_case::Case;
use htl_exchange::{Collected, Desk, Exchange};
use std::alloc::Global;
use std::process::Abort;
use std::sync::Wait;
use std::thread;
use std::thread::{Promise, Scope, Threads};

/// Collects until there is nothing, and posts after each run. There are no more states than runs.
fn play_eagerly<R: Wait + Abort>(rt: &R, exchange: &Exchange, desk: &mut Desk)
    requires { IsDeskOf exchange.now desk.old }
    ensures { IsDeskOf exchange.now desk.new }
{
    for _ in 0..16 {
        match collect(rt, exchange, desk) {
            Collected::Run => {
                post(rt, exchange, desk);
            }
            Collected::State => {}
            Collected::Nothing => return,
        }
    }
    panic!(rt; "each desk posts once a run");
}

/// The desk that plays, once it has played.
fn play<R: Wait + Abort>(rt: &R, exchange: &Exchange, desk: Desk) -> Desk
    requires { IsDeskOf exchange.now desk }
    ensures { IsDeskOf exchange.now result }
{
    let mut desk = desk;
    play_eagerly(rt, exchange, &mut desk);
    desk
}

/// What a thread promises: that a desk of this exchange comes back.
#[derive(Clone, Copy)]
struct ComesBack<'a>(&'a Exchange);

impl<'a> Promise<Desk> for ComesBack<'a> {
    ghost kept_by = { λ promise desk. IsDeskOf promise.0.now desk };
}

/// Each desk in a thread of its own, the last first, as the workers of a survey. None: a thread
/// wasn't started.
fn play_all<'s, E, R: Threads + Wait + Abort + Sync>(
    scope: &Scope<'s, E>,
    rt: &'s R,
    exchange: &'s Exchange,
    desks: Vec<Desk>,
) -> Option<Vec<Desk>>
    requires { AreDesksOf exchange.now desks.items }
    ensures of { IfSome result (λ v. AreDesksOf exchange.now v.items) }
    ensures room { IfSome result (λ v. (vec_len v ≡ vec_len desks)
        × (vec_capacity v ≡ vec_capacity desks)) }
{
    let mut desks = desks;
    let Some(desk) = desks.pop() else {
        return Some(desks);
    };
    let started = scope.spawn_with(
        ComesBack(exchange),
        move || -> Desk
            requires { IsDeskOf exchange.now desk }
            ensures { IsDeskOf exchange.entry.now result }
        { play(rt, exchange, desk) },
    );
    let Ok(thread) = started else {
        return None;
    };
    let rest = play_all(scope, rt, exchange, desks);
    let desk = thread.join(rt);
    let mut desks = rest?;
    desks.push_reserved(desk);
    Some(desks)
}

fn play_together<R: Threads + Wait + Abort + Sync>(
    rt: &R,
    exchange: &Exchange,
    desks: Vec<Desk>,
) -> Vec<Desk>
    requires { AreDesksOf exchange.now desks.items }
    ensures { AreDesksOf exchange.now result.items }
{
    let played = thread::scope(
        thread::scope_env(),
        rt,
        |scope| -> Option<Vec<Desk>>
            requires { AreDesksOf exchange.now desks.items }
            ensures { IfSome result (λ v. AreDesksOf exchange.entry.now v.items) }
        { play_all(scope, rt, exchange, desks) },
    );
    played.expect(rt, "the threads are started")
}

/// The closed state of a case after so many desks have played.
fn closed_after<R: Threads + Wait + Abort + Sync>(
    rt: &R,
    alloc: Global,
    case: &Case,
    desks: u32,
) -> Analyst<Global> {
    let (exchange, desks) = Exchange::start(rt, alloc, case, desks).expect(rt, "there is memory");
    let desks = play_together(rt, &exchange, desks);
    let closed = exchange.close(rt, desks);
    closed.ok().expect(rt, "there is memory")
}

#[test]
fn two_callers_threads(rt: HostRuntime) {
    let case = case_of(&rt, rt.alloc(), TWO_PROCESSORS, &TWO_RUNS);
    let closed = closed_after(&rt, rt.alloc(), &case, 2);
    let fronts = [closed.front(0), closed.front(1)];
    let found = (fronts, closed.held(), closed.taken());
    assert_row(&rt, "both runs", found, ([1, 1], 0, 2));
    is_whole(&rt, rt.alloc(), &case, &closed);
}
