//! Worked exchanges and surveys, with workers and callers in threads of their own.

ghost use Rattle.htl_exchange.specs.Desks.{IsDeskOf};

use htl_analyst::Analyst;
use htl_case::Case;
use htl_exchange::{
    CloseFault, Collected, Desk, Exchange, Free, Gate, Posted, Why, survey, survey_owned,
};
use htl_samples::{TRACE, Trace};
use htl_segment::Segment;
use std::alloc::Global;
use std::process::Abort;
use std::sync::Wait;
use std::sync::atomic::{AtomicU64, Ordering};
use std::thread;
use std::thread::Threads;

pub const TWO_PROCESSORS: Trace = Trace {
    processors: 2,
    ..TRACE
};

const EIGHT_PROCESSORS: Trace = Trace {
    processors: 8,
    ..TRACE
};

/// How often a worker looks for the others before it gives up. A count of turns, so that no clock
/// decides.
const PATIENCE: u64 = 10_000_000;

const ONE_RUN: [&str; 3] = [
    "0/0: R 1 0x1000 Lky8",
    "0/1: R 2 0x1000 Lky8",
    "0/2: R 3 0x1000 Lky8",
];

pub const TWO_RUNS: [&str; 2] = ["0/0: O 1 0x44", "1/0: C 2 0x44"];

pub fn case_of(rt: &impl Abort, alloc: Global, trace: Trace, lines: &[&str]) -> Case {
    let segments = trace
        .segments(alloc, lines)
        .expect(rt, "the lines are segments");
    Case::of(alloc, segments).expect(rt, "the segments are a case")
}

/// Eight processors with six segments each.
fn eight_runs(rt: &impl Abort, alloc: Global) -> Case {
    let mut segments = Vec::new(alloc);
    for processor in 0..8 {
        for number in 0..6 {
            let segment = reference(rt, alloc, processor, number);
            segments.push(segment).expect(rt, "there is memory");
        }
    }
    Case::of(alloc, segments).expect(rt, "the segments are a case")
}

/// A segment of eight processors' six each, with a reference.
fn reference(rt: &impl Abort, alloc: Global, processor: u32, number: u32) -> Segment {
    let sequence = 6u32
        .wrapping_mul(processor)
        .wrapping_add(number)
        .wrapping_add(1);
    let line = format!(in alloc; "{processor}/{number}: R {sequence} 0x1000 Lky8").expect(
        rt,
        "there is memory",
    );
    EIGHT_PROCESSORS
        .segment(alloc, &line)
        .expect(rt, "the line is a segment")
}

/// One analyst that took all of the case and was compacted.
fn alone(rt: &impl Abort, alloc: Global, case: &Case) -> Analyst<Global> {
    let mut analyst = Analyst::new(alloc, case.trace_id(), case.processors()).expect(
        rt,
        "there is memory",
    );
    for segment in case.segments() {
        let copy = segment.copy().expect(rt, "there is memory");
        assert!(rt; analyst.take(copy).is_ok());
    }
    analyst.compact().expect(rt, "there is memory");
    analyst
}

/// What comes of a post.
pub fn post<R: Wait + Abort>(rt: &R, exchange: &Exchange, desk: &mut Desk) -> Posted
    requires { IsDeskOf exchange.now desk.old }
    ensures { IsDeskOf exchange.now desk.new }
{
    desk.post(rt, exchange).expect(rt, "there is memory")
}

/// What is collected.
pub fn collect<R: Wait + Abort>(rt: &R, exchange: &Exchange, desk: &mut Desk) -> Collected
    requires { IsDeskOf exchange.now desk.old }
    ensures { IsDeskOf exchange.now desk.new }
{
    desk.collect(rt, exchange).expect(rt, "there is memory")
}

fn posts<R: Wait + Abort>(rt: &R, exchange: &Exchange, desk: &mut Desk, wanted: Posted)
    requires { IsDeskOf exchange.now desk.old }
    ensures { IsDeskOf exchange.now desk.new }
{
    assert!(rt; post(rt, exchange, desk) == wanted, "{wanted:?}");
}

fn collects<R: Wait + Abort>(rt: &R, exchange: &Exchange, desk: &mut Desk, wanted: Collected)
    requires { IsDeskOf exchange.now desk.old }
    ensures { IsDeskOf exchange.now desk.new }
{
    assert!(rt; collect(rt, exchange, desk) == wanted, "{wanted:?}");
}

/// Posts until the queue is full, and collects until there is nothing.
fn post_and_collect<R: Wait + Abort>(rt: &R, exchange: &Exchange, desk: &mut Desk)
    requires { IsDeskOf exchange.now desk.old }
    ensures { IsDeskOf exchange.now desk.new }
{
    posts(rt, exchange, desk, Posted::Yes);
    posts(rt, exchange, desk, Posted::Yes);
    posts(rt, exchange, desk, Posted::Full);
    collects(rt, exchange, desk, Collected::Run);
    collects(rt, exchange, desk, Collected::State);
    collects(rt, exchange, desk, Collected::State);
    collects(rt, exchange, desk, Collected::Nothing);
    assert!(rt; !desk.in_hand());
    assert_eq!(rt; (desk.analyst().front(0), desk.analyst().held()), (3, 0));
}

#[test]
fn one_desk_posts_and_collects(rt: HostRuntime) {
    let alloc = rt.alloc();
    let case = case_of(&rt, alloc, TRACE, &ONE_RUN);
    let (exchange, mut desks) = Exchange::start(&rt, alloc, &case, 1).expect(
        &rt,
        "there is memory",
    );
    let mut desk = desks.pop().expect(&rt, "there is a desk");
    post_and_collect(&rt, &exchange, &mut desk);
    let fault = exchange
        .close(&rt, desks)
        .err()
        .expect(&rt, "a desk is out");
    assert_eq!(rt; fault.why, Why::DesksOut(0, 1));
    let CloseFault {
        exchange,
        mut desks,
        ..
    } = fault;
    desks.push(desk).expect(&rt, "there is memory");
    let closed = exchange.close(&rt, desks);
    let closed = closed.ok().expect(&rt, "there is memory");
    assert_eq!(rt; (closed.front(0), closed.held(), closed.taken()), (3, 0, 3));
}

/// Two workers, of which the first doesn't begin before the second is there, nor the second before
/// the first, and the second goes on from its first turn to its second.
#[derive(Drop)]
struct TwoFlags {
    first: AtomicU64,
    second: AtomicU64,
    gave_up: AtomicU64,
    unexpected: AtomicU64,
}

impl TwoFlags {
    fn new() -> TwoFlags {
        TwoFlags {
            first: AtomicU64::new(0),
            second: AtomicU64::new(0),
            gave_up: AtomicU64::new(0),
            unexpected: AtomicU64::new(0),
        }
    }

    /// No worker gave up, and each analyst had what it should.
    fn has_seen_all(&self, rt: &impl Abort) {
        assert_eq!(rt; self.gave_up.load(Ordering::SeqCst), 0);
        assert_eq!(rt; self.unexpected.load(Ordering::SeqCst), 0);
    }

    fn wait_for(&self, flag: &AtomicU64) {
        for _ in 0..PATIENCE {
            if flag.load(Ordering::SeqCst) > 0 {
                return;
            }
            thread::yield_now();
        }
        self.gave_up.fetch_add(1, Ordering::SeqCst);
    }

    fn expect(&self, is_so: bool) {
        if !is_so {
            self.unexpected.fetch_add(1, Ordering::SeqCst);
        }
    }
}

impl Gate for TwoFlags {
    fn before(&self, worker: u32, turn: u32, analyst: &Analyst<Global>) {
        match (worker, turn) {
            (0, 1) => {
                self.first.fetch_add(1, Ordering::SeqCst);
                self.wait_for(&self.second);
            }
            (1, 1) => {
                self.wait_for(&self.first);
                self.expect(analyst.taken() == 0);
            }
            (1, 2) => {
                self.expect(analyst.taken() == 1 && analyst.held() == 0);
                self.second.fetch_add(1, Ordering::SeqCst);
            }
            _ => {}
        }
    }
}

/// What a survey by so many workers comes to.
fn surveyed<R: Threads + Wait + Abort + Sync>(
    rt: &R,
    alloc: Global,
    case: &Case,
    workers: u32,
    gate: &(impl Gate + Sync),
) -> Analyst<Global> {
    survey(rt, alloc, case, workers, gate).expect(rt, "there is memory")
}

/// The same of two workers that own the case.
fn surveyed_owned<R: Threads + Wait + Abort + Sync>(
    rt: &R,
    alloc: Global,
    case: Case,
) -> Analyst<Global> {
    survey_owned(rt, alloc, case, 2, &Free).expect(rt, "there is memory")
}

/// So many free workers come to the analyst's state.
fn workers_come_to<R: Threads + Wait + Abort + Sync>(
    rt: &R,
    alloc: Global,
    case: &Case,
    workers: u32,
    analyst: &Analyst<Global>,
) {
    let other = surveyed(rt, alloc, case, workers, &Free);
    assert!(rt; analyst.same(&other), "{workers}");
}

/// The analyst's state is that of one which took all of the case.
pub fn is_whole(rt: &impl Abort, alloc: Global, case: &Case, analyst: &Analyst<Global>) {
    assert!(rt; analyst.same(&alone(rt, alloc, case)));
}

#[test]
fn two_workers_at_a_gate(rt: HostRuntime) {
    let case = case_of(&rt, rt.alloc(), TWO_PROCESSORS, &TWO_RUNS);
    let gate = TwoFlags::new();
    let two = surveyed(&rt, rt.alloc(), &case, 2, &gate);
    gate.has_seen_all(&rt);
    workers_come_to(&rt, rt.alloc(), &case, 1, &two);
    is_whole(&rt, rt.alloc(), &case, &two);
    assert!(rt; surveyed_owned(&rt, rt.alloc(), case).same(&two));
}

/// Eight workers who wait for each other before their second turns. Each then has one whole run,
/// which no other has: the processors of their runs are noted as digits.
#[derive(Drop)]
struct EightTogether {
    there: AtomicU64,
    gave_up: AtomicU64,
    runs: AtomicU64,
    unexpected: AtomicU64,
}

impl Gate for EightTogether {
    fn before(&self, _worker: u32, turn: u32, analyst: &Analyst<Global>) {
        if turn != 2 {
            return;
        }
        let mut mine = 0;
        for processor in 0..8u16 {
            if analyst.front(processor) == 6 {
                mine |= 1u64 << (8 * processor);
            }
        }
        self.runs.fetch_add(mine, Ordering::SeqCst);
        if analyst.taken() != 6 || analyst.held() != 0 {
            self.unexpected.fetch_add(1, Ordering::SeqCst);
        }
        self.there.fetch_add(1, Ordering::SeqCst);
        for _ in 0..PATIENCE {
            if self.there.load(Ordering::SeqCst) >= 8 {
                return;
            }
            thread::yield_now();
        }
        self.gave_up.fetch_add(1, Ordering::SeqCst);
    }
}

impl EightTogether {
    fn new() -> EightTogether {
        EightTogether {
            there: AtomicU64::new(0),
            gave_up: AtomicU64::new(0),
            runs: AtomicU64::new(0),
            unexpected: AtomicU64::new(0),
        }
    }

    /// No worker gave up, and each analyst had a run of its own.
    fn has_seen_all(&self, rt: &impl Abort) {
        assert_eq!(rt; self.gave_up.load(Ordering::SeqCst), 0);
        assert_eq!(rt; self.unexpected.load(Ordering::SeqCst), 0);
        assert_eq!(rt; self.runs.load(Ordering::SeqCst), 0x0101_0101_0101_0101);
    }
}

#[test]
fn eight_workers_share_the_runs(rt: HostRuntime) {
    let case = eight_runs(&rt, rt.alloc());
    let gate = EightTogether::new();
    let eight = surveyed(&rt, rt.alloc(), &case, 8, &gate);
    gate.has_seen_all(&rt);
    assert_eq!(rt; (eight.taken(), eight.held()), (48, 0));
    for workers in [1, 2, 3] {
        workers_come_to(&rt, rt.alloc(), &case, workers, &eight);
    }
    is_whole(&rt, rt.alloc(), &case, &eight);
}
