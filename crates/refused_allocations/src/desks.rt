//! Calls on an exchange and its desks.

ghost use Rattle.htl_exchange.specs.Desks.{IsDeskOf};

use crate::analysts::agree;
use crate::cases::case;
use allocation_trials::{Equal, Hand, Refusal, Same, Trials, answered};
use htl_analyst::Analyst;
use htl_case::Case;
use htl_exchange::{
    CloseFault, Collected, Desk, Exchange, Free, Posted, Why, survey, survey_owned,
};
use htl_samples::{RandomTrace, SMALL};
use std::alloc::Global;
use std::marker::Model;
use std::sync::Wait;
use std::thread::Threads;

/// A trace of one run.
const RUN: RandomTrace = RandomTrace {
    processors: 1,
    ..SMALL
};

pub fn try_all<R: Threads + Wait + Sync>(rt: &R, trials: &mut Trials<'_, HostRuntime>) {
    trials.reads("start", case, |alloc, case: &Case| started(rt, alloc, case));
    try_collecting(rt, trials);
    try_posting(rt, trials);
    try_closing(rt, trials);
    trials.reads(
        "survey by two workers",
        case,
        |alloc, case: &Case| surveyed(rt, alloc, case),
    );
    trials.reads(
        "survey of a case of its own",
        case,
        |alloc, case: &Case| surveyed_owned(rt, alloc, case),
    );
}

/// What is tried of `collect`, and what the desk takes in next.
const COLLECTING: &[(&str, Next)] = &[
    ("collect, a run", Next::Run),
    ("collect, a state", Next::State),
    ("collect, what is in hand", Next::InHand),
];

fn try_collecting<R: Wait>(rt: &R, trials: &mut Trials<'_, HostRuntime>) {
    let hand = trials.hand();
    for (name, next) in COLLECTING {
        trials.changes(
            name,
            |alloc| desk(rt, &hand, alloc, *next),
            |_, seat: &mut Seat| collect(rt, seat),
        );
    }
}

/// The same of `post`.
const POSTING: &[(&str, Next)] = &[
    ("post", Next::State),
    ("post, with a run in hand", Next::InHand),
];

fn try_posting<R: Wait>(rt: &R, trials: &mut Trials<'_, HostRuntime>) {
    let hand = trials.hand();
    for (name, next) in POSTING {
        trials.changes(
            name,
            |alloc| desk(rt, &hand, alloc, *next),
            |_, seat: &mut Seat| post(rt, seat),
        );
    }
}

fn try_closing<R: Wait>(rt: &R, trials: &mut Trials<'_, HostRuntime>) {
    let hand = trials.hand();
    trials.changes(
        "close",
        |alloc| two_desks(rt, alloc),
        |_, seats: &mut Option<Seats>| close(rt, seats),
    );
    trials.changes(
        "close, with a run in hand",
        |alloc| desk_to_close(rt, &hand, alloc),
        |_, seats: &mut Option<Seats>| close(rt, seats),
    );
}

/// An exchange and all its desks.
#[derive(Drop)]
struct Seats {
    exchange: Exchange,
    desks: Vec<Desk>,
}

impl Model for Seats {
    ghost use Rattle.std.specs.Prelude.{List};
    ghost use Rattle.htl_exchange.specs.Desks.{AreDesksOf, ExchangeValue, DeskValue};

    ghost Value = { ExchangeValue × List DeskValue };

    ghost view = { λ s. (s.exchange, s.desks.items) };

    ghost invariant = { λ s. AreDesksOf s.exchange s.desks.items };
}

impl Same for Seats {
    ghost use Rattle.std.specs.Prelude.{◌≡◌, length};

    ghost IsSame = { λ one two. length one.1 ≡ length two.1 };

    fn same(&self, other: &Seats) -> bool {
        self.desks.len() == other.desks.len()
    }

    /// Desks that were merged are gone, and those that are left have all that there were.
    fn is_kept(&self, before: &Seats) -> bool {
        !self.desks.is_empty() && self.desks.len() <= before.desks.len()
    }
}

fn started<R: Wait>(rt: &R, alloc: Global, case: &Case) -> Result<Seats, Refusal> {
    let (exchange, desks) = Exchange::start(rt, alloc, case, 3)?;
    Ok(Seats { exchange, desks })
}

/// An exchange of two desks, which have got nothing yet.
fn two_desks<R: Wait>(rt: &R, alloc: Global) -> Result<Option<Seats>, Refusal> {
    let (exchange, desks) = Exchange::start(rt, alloc, &case(alloc)?, 2)?;
    Ok(Some(Seats { exchange, desks }))
}

/// An exchange whose one desk has a run in hand.
fn desk_to_close<R: Wait>(
    rt: &R,
    hand: &Hand<'_, HostRuntime>,
    alloc: Global,
) -> Result<Option<Seats>, Refusal> {
    let Seat { exchange, desk, .. } = desk_with_run_in_hand(rt, hand, alloc)?;
    let desks = vec![in alloc; desk]?;
    Ok(Some(Seats { exchange, desks }))
}

fn close<R: Wait>(rt: &R, given: &mut Option<Seats>) -> Result<Analyst<Global>, Refusal> {
    let Seats { exchange, desks } = given.take().ok_or(Refusal::Other)?;
    match exchange.close(rt, desks) {
        Ok(analyst) => Ok(analyst),
        Err(fault) => {
            let CloseFault {
                why,
                exchange,
                desks,
            } = fault;
            if why == Why::NoMemory {
                *given = Some(Seats { exchange, desks });
            }
            Err(Refusal::of(why == Why::NoMemory))
        }
    }
}

/// An exchange and one of its desks.
#[derive(Drop)]
struct Seat {
    exchange: Exchange,
    desk: Desk,
    alloc: Global,
    ghost of: { IsDeskOf exchange desk },
}

impl Same for Seat {
    ghost use Rattle.std.specs.Prelude.{◌↔◌, IsSome};

    ghost IsSame = { λ one two. IsSome one.desk.hand ↔ IsSome two.desk.hand };

    fn same(&self, other: &Seat) -> bool {
        self.desk.in_hand() == other.desk.in_hand()
            && agree(self.alloc, self.desk.analyst(), other.desk.analyst())
    }

    /// What a desk has and holds in its hand are whole runs, and it loses none.
    fn is_kept(&self, before: &Seat) -> bool {
        let (taken, earlier) = (self.desk.analyst().taken(), before.desk.analyst().taken());
        if self.desk.in_hand() {
            return taken >= earlier;
        }
        let is_whole = taken == 0 || taken == u64::from(RUN.segments);
        is_whole && (taken > earlier || taken == earlier && !before.desk.in_hand())
    }
}

/// What the one desk of an exchange takes in next.
#[derive(Clone, Copy)]
enum Next {
    Run,
    State,
    InHand,
}

fn desk<R: Wait>(
    rt: &R,
    hand: &Hand<'_, HostRuntime>,
    alloc: Global,
    next: Next,
) -> Result<Seat, Refusal> {
    match next {
        Next::Run => one_desk(rt, alloc),
        Next::State => desk_with_state(rt, alloc),
        Next::InHand => desk_with_run_in_hand(rt, hand, alloc),
    }
}

/// One desk, which has got nothing yet.
fn one_desk<R: Wait>(rt: &R, alloc: Global) -> Result<Seat, Refusal> {
    let case = Case::of(alloc, RUN.segments(alloc)?)?;
    let (exchange, mut desks) = Exchange::start(rt, alloc, &case, 1)?;
    let desk = desks.pop().ok_or(Refusal::Other)?;
    Ok(Seat {
        exchange,
        desk,
        alloc,
    })
}

/// A desk that has the run. The next thing that it finds is a state of its own.
fn desk_with_state<R: Wait>(rt: &R, alloc: Global) -> Result<Seat, Refusal> {
    let mut seat = one_desk(rt, alloc)?;
    collect(rt, &mut seat)?;
    post(rt, &mut seat)?;
    Ok(seat)
}

/// A desk that popped the run and was refused its first allocation: it has the run in hand, and
/// took in nothing of it.
fn desk_with_run_in_hand<R: Wait>(
    rt: &R,
    hand: &Hand<'_, HostRuntime>,
    alloc: Global,
) -> Result<Seat, Refusal> {
    let mut seat = one_desk(rt, alloc)?;
    hand.refuse(1)?;
    let collected = collect(rt, &mut seat);
    let was_refused = hand.release() == Some(true);
    let is_in_hand = seat.desk.in_hand() && seat.desk.analyst().taken() == 0;
    if was_refused && (collected.is_ok() || !is_in_hand) {
        return Err(Refusal::Other);
    }
    Ok(seat)
}

/// What was in hand is found and taken in. What is found otherwise isn't compared: where only the
/// compaction was refused, the next call finds nothing.
fn collect<R: Wait>(rt: &R, seat: &mut Seat) -> Result<Equal<()>, Refusal> {
    let had_in_hand = seat.desk.in_hand();
    let collected = seat.desk.collect(rt, &seat.exchange)?;
    if seat.desk.in_hand() || had_in_hand && collected == Collected::Nothing {
        return Err(Refusal::Other);
    }
    Ok(Equal(()))
}

fn post<R: Wait>(rt: &R, seat: &mut Seat) -> Result<Equal<Posted>, Refusal> {
    Equal::of(seat.desk.post(rt, &seat.exchange))
}

fn surveyed<R: Threads + Wait + Sync>(
    rt: &R,
    alloc: Global,
    case: &Case,
) -> Result<Analyst<Global>, Refusal> {
    answered(survey(rt, alloc, case, 2, &Free))
}

/// The survey of another case of the same segments.
fn surveyed_owned<R: Threads + Wait + Sync>(
    rt: &R,
    alloc: Global,
    case: &Case,
) -> Result<Analyst<Global>, Refusal> {
    answered(survey_owned(rt, alloc, copy_of(alloc, case)?, 2, &Free))
}

fn copy_of(alloc: Global, case: &Case) -> Result<Case, Refusal> {
    let mut segments = Vec::new(alloc);
    for segment in case.segments() {
        segments.push(segment.copy()?)?;
    }
    answered(Case::of(alloc, segments))
}
