//! How a call is tried.

ghost use Rattle.std.specs.Prelude.{◌≡◌, ◌≢◌, Ok, Err, Some};
ghost use Rattle.allocation_trials.specs.declared.trials.Wrong.TheVariants.{NoneRefused};

use crate::hand::Hand;
use crate::refusal::Refusal;
use crate::same::{Lent, Same};
use anyhow::{Result, bail};
use std::alloc::Global;
use std::rt::Env;
use thiserror::Error;

/// No call of the table has as many allocations.
const MOST_ALLOCATIONS: u64 = 100_000;

/// How many allocations of a call were refused, and without how many of them it answered.
#[derive(Clone, Copy, Debug, Default, PartialEq, Eq)]
struct Counts {
    refused: u64,
    done_without: u64,
}

/// What a call did that it may not do. The number is that of the allocation that was refused.
#[derive(Clone, Copy, Debug, PartialEq, Eq, Error)]
enum Wrong {
    #[error("what it is made on can't be made")]
    NotMade,
    #[error("it isn't answered, though nothing is refused")]
    NotAnswered,
    #[error("allocation {0} was refused, and it reported something else than out of memory")]
    OtherFault(u64),
    #[error("allocation {0} wasn't refused, and it reported out of memory")]
    OutOfMemory(u64),
    #[error("allocation {0} was refused, and what it was made on isn't as before")]
    Changed(u64),
    #[error("allocation {0} was refused, and it did something else when it was made again")]
    Again(u64),
    #[error("allocation {0} was refused, and it answered something else")]
    Answered(u64),
    #[error("no allocation was refused")]
    NoneRefused,
    #[error("too many allocations")]
    TooMany,
}

/// The calls that were tried so far. After one that does what it may not do no other is tried, and
/// `finish` says what it did.
#[derive(Drop)]
pub struct Trials<'a, R> {
    rt: &'a R,
    calls: u64,
    refused: u64,
    outcome: Result<()>,
}

impl<'a, R: Env + Print + Alloc<A = Global>> Trials<'a, R> {
    /// No call yet.
    pub fn new(rt: &'a R) -> Trials<'a, R> {
        Trials {
            rt,
            calls: 0,
            refused: 0,
            outcome: Ok(()),
        }
    }

    /// The hand that refuses allocations.
    pub fn hand(&self) -> Hand<'a, R> {
        Hand { rt: self.rt }
    }

    /// Tries a call that only reads what it is made on.
    pub fn reads<G, A, M, C>(&mut self, name: &str, mut make: M, mut call: C)
    where
        G: Drop,
        A: Same + Drop,
        M: FnMut(Global) -> Result<G, Refusal>,
        C: FnMut(Global, &G) -> Result<A, Refusal>,
        requires make { M.IsAlwaysCallable make }
        requires call { C.IsAlwaysCallable call }
    {
        self.changes(
            name,
            |alloc| Ok(Lent(make(alloc)?)),
            |alloc, given: &mut Lent<G>| call(alloc, &given.0),
        );
    }

    /// Tries a call that may change what it is made on.
    pub fn changes<G, A, M, C>(&mut self, name: &str, make: M, call: C)
    where
        G: Same + Drop,
        A: Same + Drop,
        M: FnMut(Global) -> Result<G, Refusal>,
        C: FnMut(Global, &mut G) -> Result<A, Refusal>,
        requires make { M.IsAlwaysCallable make }
        requires call { C.IsAlwaysCallable call }
    {
        if self.outcome.is_ok() {
            let tried = tried(&self.hand(), make, call);
            self.outcome = self.print(name, tried);
        }
    }

    /// Prints how many allocations of a call were refused.
    fn print(&mut self, name: &str, tried: Result<Option<Counts>, Wrong>) -> Result<()> {
        match tried {
            Err(wrong) => bail!("{name}: {wrong}"),
            Ok(None) => println!(self.rt; "{name}: answered")?,
            Ok(Some(counts)) => {
                println!(self.rt;
                    "{name}: {} refused, {} done without",
                    counts.refused, counts.done_without
                )?;
                self.refused = self.refused.saturating_add(counts.refused);
            }
        }
        self.calls = self.calls.saturating_add(1);
        Ok(())
    }

    /// Prints how many calls were tried, and how many allocations were refused in all of them, or
    /// says what one did that it may not do.
    pub fn finish(self) -> Result<()> {
        self.outcome?;
        println!(self.rt;
            "{} calls, {} allocations refused",
            self.calls, self.refused
        )?;
        Ok(())
    }
}

/// Makes a call with its first allocation refused, then with its second, and on, each time on what
/// is made anew, until none is refused. None: nobody refuses allocations.
fn tried<R, G, A, M, C>(
    hand: &Hand<'_, R>,
    mut make: M,
    mut call: C,
) -> Result<Option<Counts>, Wrong>
where
    R: Env + Alloc<A = Global>,
    G: Same + Drop,
    A: Same + Drop,
    M: FnMut(Global) -> Result<G, Refusal>,
    C: FnMut(Global, &mut G) -> Result<A, Refusal>,
    requires make { M.IsAlwaysCallable make }
    requires call { C.IsAlwaysCallable call }
{
    let alloc = hand.rt.alloc();
    let before = make(alloc).map_err(|_| Wrong::NotMade)?;
    let mut after = make(alloc).map_err(|_| Wrong::NotMade)?;
    let answer = call(alloc, &mut after).map_err(|_| Wrong::NotAnswered)?;
    let mut counts = Counts::default();
    for allocation in 1..MOST_ALLOCATIONS {
        let mut given = make(alloc).map_err(|_| Wrong::NotMade)?;
        hand.refuse(allocation).map_err(|_| Wrong::NotMade)?;
        let answered = call(alloc, &mut given);
        let Some(is_refused) = hand.release() else {
            return Ok(None);
        };
        match answered {
            Ok(other) if !other.same(&answer) || !given.same(&after) => {
                return Err(Wrong::Answered(allocation));
            }
            Ok(_) if !is_refused => return counts.of_call(),
            Ok(_) => counts.done_without = counts.done_without.saturating_add(1),
            Err(Refusal::Other) => return Err(Wrong::OtherFault(allocation)),
            Err(Refusal::Memory) if !is_refused => return Err(Wrong::OutOfMemory(allocation)),
            Err(Refusal::Memory) if !given.is_kept(&before) => return Err(Wrong::Changed(
                allocation,
            )),
            Err(Refusal::Memory) => {
                let again = call(alloc, &mut given).map_err(|_| Wrong::Again(allocation))?;
                if !again.same(&answer) || !given.same(&after) {
                    return Err(Wrong::Again(allocation));
                }
            }
        }
        counts.refused = counts.refused.saturating_add(1);
    }
    Err(Wrong::TooMany)
}

impl Counts {
    /// The counts of a call of which no allocation is refused at last: one has to be before.
    fn of_call(self) -> Result<Option<Counts>, Wrong>
        ensures none { self.refused ≡ 0 → result ≡ Err NoneRefused }
        ensures some { self.refused ≢ 0 → result ≡ Ok (Some self) }
    {
        if self.refused == 0 {
            Err(Wrong::NoneRefused)
        } else {
            Ok(Some(self))
        }
    }
}
