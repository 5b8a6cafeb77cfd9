//! Desks: each has the analyst of one thread, the thread's pass to the queue, and a parcel in hand.

use crate::exchange::Exchange;
use crate::parcel::Parcel;
use crate::pass::DeskPass;
use crate::rule::{Parts, Posts, Takes};
use crate::taking::take_parcel;
use htl_analyst::{Analyst, MergeFault};
use htl_event::NoMemory;
use std::alloc::Global;
use std::marker::Model;
use std::sync::Wait;

/// The answer of `collect`: what it took in.
#[derive(Clone, Copy, Debug, PartialEq, Eq)]
pub enum Collected {
    /// It took in a run: all segments of one processor.
    Run,
    /// It took in the state of an analyst that was posted.
    State,
    /// It took in nothing: the queue was empty at some moment of the call.
    Nothing,
}

/// The answer of `post`: what became of the posted state.
#[derive(Clone, Copy, Debug, PartialEq, Eq)]
pub enum Posted {
    /// It is in the queue.
    Yes,
    /// It was dropped: the queue was full at some moment of the call.
    Full,
}

/// One analyst of an exchange, which collects parcels from the others and posts its own state to
/// them. It belongs to the exchange that gave it out.
#[derive(Drop)]
pub struct Desk {
    analyst: Analyst<Global>,
    hand: Option<Parcel>,
    pass: DeskPass,
    parts: u32,
}

impl Model for Desk {
    ghost use Rattle.std.specs.Prelude.{◌≡◌, []};
    ghost use Rattle.htl_exchange.specs.Moves.{known_of};
    ghost use Rattle.htl_exchange.specs.Desks.{DeskValue, desk_value, Follows};

    ghost Value = { DeskValue };

    ghost view = { λ d. desk_value d.pass.table_id (known_of d.pass) d.analyst d.hand };

    ghost invariant = { λ d. (d.pass.me.1 ≡ []) × (d.parts ≡ (known_of d.pass).parts)
        × Follows (known_of d.pass) d.analyst d.hand };
}

impl Desk {
    ghost use Rattle.std.specs.Prelude.{◌≡◌, ◌≢◌, ◌↔◌, ◌+◌, ◌≤◌, ◌<◌, ℕ, [], Some};
    ghost use Rattle.std.specs.Prelude.{None, IsSome, IsTrue, IfErr, OnOk, OnErr, Ok};
    ghost use Rattle.htl_analyst.specs.Right.{IsRight, IsStanding, KeysAreIn};
    ghost use Rattle.htl_analyst.specs.Keys.{HasTaken};
    ghost use Rattle.htl_exchange.specs.Rule.{all_parts};
    ghost use Rattle.htl_exchange.specs.Moves.{known_of, pushed, joined};
    ghost use Rattle.htl_exchange.specs.Desks.{IsDeskOf, FollowsRule, IsFresh};
    ghost use Rattle.htl_exchange.specs.Filling.{IsIdle};
    ghost use Rattle.htl_exchange.specs.Collects.{CollectsAs, IsLeftInHand, HasRest};

    /// A desk that has taken in nothing, with this pass.
    pub(crate) fn new(analyst: Analyst<Global>, pass: DeskPass, parts: u32) -> Desk
        requires pass { pass.me.1 ≡ [] }
        requires parts { (0 < parts) × (parts ≡ (known_of pass).parts) }
        requires right { IsRight analyst (known_of pass).trace }
        requires some { (known_of pass).trace.segments ≢ [] }
        requires idle { IsIdle (known_of pass).trace parts (known_of pass)
            × ((p n : ℕ) → HasTaken analyst p n → ⊥) }
        ensures of { (result.exchange ≡ pass.table_id) × (result.known ≡ known_of pass) }
        ensures fresh { IsFresh result }
    {
        Desk {
            analyst,
            hand: None,
            pass,
            parts,
        }
    }

    /// The desk's own analyst, which is always right about the case.
    pub fn analyst(&self) -> &Analyst<Global>
        ensures value { result.now ≡ self.now.analyst }
        // What every desk keeps, so that callers have it too.
        ensures follows { FollowsRule self.now }
    {
        &self.analyst
    }

    /// Whether a popped parcel isn't taken in yet, since memory was refused.
    pub fn in_hand(&self) -> bool
        ensures { IsTrue result ↔ IsSome self.now.hand }
    {
        self.hand.is_some()
    }

    /// Takes in what is in hand, or pops one parcel and takes that in, and compacts the analyst.
    /// What isn't taken in when memory is refused stays in hand; where only the compaction was
    /// refused, nothing does. It may wait for other threads that are at the queue.
    pub fn collect<R: Wait>(&mut self, rt: &R, exchange: &Exchange) -> Result<Collected, NoMemory>
        requires { IsDeskOf exchange.now self.old }
        ensures of { IsDeskOf exchange.now self.new
            × (self.new.known.parts ≡ self.old.known.parts) }
        ensures follows { FollowsRule self.new }
        ensures got { CollectsAs self.old.hand result self.old.known self.new.known }
        ensures grows { KeysAreIn self.old.analyst self.new.analyst }
        ensures hand { OnOk result (self.new.hand ≡ None) }
        ensures left { OnErr result (IsLeftInHand self.old.analyst self.new.analyst self.new.hand) }
        ensures standing { result ≢ Ok Collected.Nothing
            → OnOk result (IsStanding self.new.analyst self.new.known.trace) }
        ensures nothing { result ≡ Ok Collected.Nothing → self.new ≡ self.old }

        // Who has all parts finds nothing only where it has got every run.
        ensures last { result ≡ Ok Collected.Nothing → HasRest self.new.known }
    {
        let collected = self.fetch(rt, exchange);
        if collected == Collected::Nothing {
            return Ok(collected);
        }
        self.take_in()?;
        self.compact()?;
        Ok(collected)
    }

    /// Takes in what is in hand, without compacting, and pushes a copy of the analyst. Where only
    /// the copy was refused memory, nothing is in hand. It may wait for other threads that are at
    /// the queue.
    pub fn post<R: Wait>(&mut self, rt: &R, exchange: &Exchange) -> Result<Posted, NoMemory>
        requires { IsDeskOf exchange.now self.old }
        ensures of { IsDeskOf exchange.now self.new
            × (self.new.known.parts ≡ self.old.known.parts) }
        ensures follows { FollowsRule self.new }
        ensures yes { result ≡ Ok Posted.Yes → self.new.known ≡ pushed self.old.known }
        ensures no { result ≢ Ok Posted.Yes → self.new.known ≡ self.old.known }
        ensures grows { KeysAreIn self.old.analyst self.new.analyst }
        ensures hand { OnOk result (self.new.hand ≡ None) }
        ensures left { OnErr result (IsLeftInHand self.old.analyst self.new.analyst self.new.hand) }
    {
        self.take_in()?;
        let copy = self.analyst.copy()?;
        match exchange
            .queue
            .push_as::<Posts, R>(rt, &mut self.pass, Parcel::State(copy))
        {
            Ok(()) => Ok(Posted::Yes),
            Err(_) => Ok(Posted::Full),
        }
    }

    /// The desk's shares of the right to know the whole.
    pub(crate) fn parts(&self) -> u32
        ensures value { result ≡ self.now.known.parts }
        ensures some { 0 < result }
    {
        self.parts
    }

    pub(crate) fn into_analyst(self) -> Analyst<Global>
        ensures { result ≡ self.analyst }
    {
        let Desk {
            analyst,
            hand: _,
            pass: _,
            parts: _,
        } = self;
        analyst
    }

    // What is in hand, by name. Where nothing was, one parcel is popped.
    pub(crate) fn fetch<R: Wait>(&mut self, rt: &R, exchange: &Exchange) -> Collected
        requires { IsDeskOf exchange.now self.old }
        ensures of { IsDeskOf exchange.now self.new
            × (self.new.known.parts ≡ self.old.known.parts) }
        ensures follows { FollowsRule self.new }
        ensures got { CollectsAs self.old.hand (Ok result) self.old.known self.new.known }
        ensures nothing { result ≡ Collected.Nothing → (self.new ≡ self.old)
            × (self.old.hand ≡ None) }
        ensures analyst { self.new.analyst ≡ self.old.analyst }
        ensures last { result ≡ Collected.Nothing → HasRest self.new.known }
    {
        if let Some(parcel) = &self.hand {
            return parcel.name();
        }
        match exchange.queue.pop_as::<Takes, R>(rt, &mut self.pass) {
            None => Collected::Nothing,
            Some(parcel) => {
                let name = parcel.name();
                self.hand = Some(parcel);
                name
            }
        }
    }

    // Takes in what is in hand.
    fn take_in(&mut self) -> Result<(), NoMemory>
        ensures grows { KeysAreIn self.old.analyst self.new.analyst }
        ensures same { (self.new.exchange ≡ self.old.exchange) × (self.new.known ≡ self.old.known) }
        ensures follows { FollowsRule self.new }
        ensures hand { OnOk result (self.new.hand ≡ None) }
        ensures left { OnErr result (IsLeftInHand self.old.analyst self.new.analyst self.new.hand) }
    {
        let Some(parcel) = self.hand.take() else {
            return Ok(());
        };
        match take_parcel(&mut self.analyst, parcel) {
            Ok(()) => Ok(()),
            Err(rest) => {
                self.hand = Some(rest);
                Err(NoMemory)
            }
        }
    }

    // Folds what the analyst holds.
    pub(crate) fn compact(&mut self) -> Result<(), NoMemory>
        ensures grows { KeysAreIn self.old.analyst self.new.analyst }
        ensures same { (self.new.exchange ≡ self.old.exchange) × (self.new.known ≡ self.old.known)
            × (self.new.hand ≡ self.old.hand) }
        ensures follows { FollowsRule self.new }
        ensures standing { OnOk result (IsStanding self.new.analyst self.new.known.trace) }
    {
        self.analyst.compact()
    }

    /// Takes in another desk of the exchange, with what is in its hand and what its pass has. What
    /// is in this desk's own hand is taken in first. A refusal hands the other back; both have got
    /// what they had.
    pub(crate) fn adopt(&mut self, exchange: &Exchange, other: Desk) -> Result<(), Desk>
        requires this { IsDeskOf exchange.now self.old }
        requires other { IsDeskOf exchange.now other }
        requires parts { self.old.known.parts + other.known.parts ≤ all_parts }
        ensures of { IsDeskOf exchange.now self.new }
        ensures ok { OnOk result (self.new.known ≡ joined self.old.known other.known) }
        ensures err { IfErr result (λ desk. (self.new.known ≡ self.old.known)
            × (desk.known ≡ other.known)
            × IsDeskOf exchange.now desk) }
    {
        let mut other = other;
        if self.take_in().is_err() {
            return Err(other);
        }
        if other.take_in().is_err() {
            return Err(other);
        }
        let Desk {
            analyst,
            hand,
            pass,
            parts,
        } = other;
        match self.analyst.absorb(analyst) {
            Ok(()) => {
                exchange.queue.absorb::<Parts>(&mut self.pass, pass);
                self.parts += parts;
                Ok(())
            }
            Err((MergeFault::NoMemory, analyst)) => Err(Desk {
                analyst,
                hand,
                pass,
                parts,
            }),
            // Both analysts are right about the exchange's case.
            Err(_) => unreachable!(),
        }
    }
}
