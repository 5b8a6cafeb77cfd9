//! Closing an exchange.
ghost use Rattle.std.specs.Prelude.{◌≡◌, ◌≢◌, ◌+◌, ◌≤◌, ◌<◌, ◌↔◌, [], ◌∷◌, None, IsTrue};
ghost use Rattle.std.specs.Prelude.{true, IfOk, IfErr, OnOk, length, vec_len, vec_capacity};
ghost use Rattle.htl_exchange.specs.Rule.{all_parts};
ghost use Rattle.htl_exchange.specs.Desks.{IsDeskOf, AreDesksOf, parts_at};
ghost use Rattle.htl_exchange.specs.Desks.{KeepAll, KeepsGot, IsWholeStanding};
ghost use Rattle.htl_exchange.specs.Collects.{HasRest};

use crate::MAX_DESKS;
use crate::desk::{Collected, Desk};
use crate::exchange::Exchange;
use crate::fault::{CloseFault, Why};
use htl_analyst::Analyst;
use htl_event::NoMemory;
use std::alloc::Global;
use std::sync::Wait;

impl Exchange {
    /// Puts all desks together, and takes in what the queue still holds. The answer is the
    /// compacted state of the whole case. Where memory is refused, the desks that are left come
    /// back with all that those handed in had, and are all that are out.
    pub fn close<R: Wait>(self, rt: &R, desks: Vec<Desk>) -> Result<Analyst<Global>, CloseFault>
        requires { AreDesksOf self desks.items }
        ensures whole { IfOk result (λ analyst. IsWholeStanding self.trace analyst) }
        ensures parts { IfErr result (λ fault. (fault.why ≢ Why.NoMemory)
            ↔ (parts_at desks.items ≢ all_parts)) }
        ensures out { IfErr result (λ fault. fault.why ≢ Why.NoMemory
            → (vec_len desks ≤ u32.MAX → fault.why ≡ Why.DesksOut (vec_len desks) self.desks)
            × (fault.exchange ≡ self) × (fault.desks.items ≡ desks.items)) }
        ensures all { OnOk result (parts_at desks.items ≡ all_parts) }
        ensures memory { IfErr result (λ fault. fault.why ≡ Why.NoMemory
            → AreDesksOf fault.exchange fault.desks.items × (parts_at fault.desks.items ≡ all_parts)
            × (fault.exchange.desks ≡ vec_len fault.desks)) }
        ensures same { IfErr result (λ fault. (fault.exchange.id ≡ self.id)
            × (fault.exchange.trace ≡ self.trace)
            × (fault.exchange.capacity ≡ self.capacity)) }
        ensures kept { IfErr result (λ fault. KeepAll desks.items fault.desks.items) }
    {
        let mut exchange = self;
        let mut desks = desks;
        if !have_all_parts(&desks) {
            return Err(CloseFault {
                why: Why::DesksOut(count(&desks), exchange.desks),
                exchange,
                desks,
            });
        }
        let Some(mut first) = desks.pop() else {
            unreachable!()
        };
        if finish(rt, &exchange, &mut first, &mut desks).is_ok() {
            return Ok(first.into_analyst());
        }
        desks.push_reserved(first);
        exchange.desks = desks.len() as u32;
        Err(CloseFault {
            why: Why::NoMemory,
            exchange,
            desks,
        })
    }
}

fn count(desks: &[Desk]) -> u32
    ensures { length desks.now ≤ u32.MAX → result ≡ length desks.now }
{
    u32::try_from(desks.len()).unwrap_or(u32::MAX)
}

// Whether these desks have every part. As each has one at least, they are eight at most.
fn have_all_parts(desks: &[Desk]) -> bool
    ensures parts { IsTrue result ↔ (parts_at desks.now ≡ all_parts) }
    ensures few { result ≡ true → length desks.now ≤ all_parts }
{
    let mut left = MAX_DESKS;
    for desk in desks {
        if desk.parts() > left {
            return false;
        }
        left -= desk.parts();
    }
    left == 0
}

// Takes in the other desks, the last first, collects what is left, and compacts.
fn finish<R: Wait>(
    rt: &R,
    exchange: &Exchange,
    first: &mut Desk,
    desks: &mut Vec<Desk>,
) -> Result<(), NoMemory>
    requires first { IsDeskOf exchange.now first.old }
    requires others { AreDesksOf exchange.now desks.old.items }
    requires parts { first.old.known.parts + parts_at desks.old.items ≡ all_parts }
    ensures of { IsDeskOf exchange.now first.new × AreDesksOf exchange.now desks.new.items }
    ensures parts { first.new.known.parts + parts_at desks.new.items ≡ all_parts }
    ensures kept { KeepAll (first.old ∷ desks.old.items) (first.new ∷ desks.new.items) }
    ensures ok { OnOk result (IsWholeStanding exchange.now.trace first.new.analyst) }
    ensures room { (vec_capacity desks.new ≡ vec_capacity desks.old)
        × (vec_len desks.new ≤ vec_len desks.old) }
{
    gather(exchange, first, desks)?;
    drain(rt, exchange, first)?;
    first.compact()?;
    Ok(())
}

fn gather(exchange: &Exchange, first: &mut Desk, desks: &mut Vec<Desk>) -> Result<(), NoMemory>
    requires first { IsDeskOf exchange.now first.old }
    requires others { AreDesksOf exchange.now desks.old.items }
    requires parts { first.old.known.parts + parts_at desks.old.items ≡ all_parts }
    ensures of { IsDeskOf exchange.now first.new × AreDesksOf exchange.now desks.new.items }
    ensures parts { first.new.known.parts + parts_at desks.new.items ≡ all_parts }
    ensures kept { KeepAll (first.old ∷ desks.old.items) (first.new ∷ desks.new.items) }
    ensures ok { OnOk result (desks.new.items ≡ []) }
    ensures room { (vec_capacity desks.new ≡ vec_capacity desks.old)
        × (vec_len desks.new ≤ vec_len desks.old) }
{
    while let Some(other) = desks.pop() {
        if let Err(other) = first.adopt(exchange, other) {
            desks.push_reserved(other);
            return Err(NoMemory);
        }
    }
    Ok(())
}

// Collects with the only pass until the queue is empty.
fn drain<R: Wait>(rt: &R, exchange: &Exchange, first: &mut Desk) -> Result<(), NoMemory>
    requires of { IsDeskOf exchange.now first.old }
    requires parts { first.old.known.parts ≡ all_parts }
    ensures of { IsDeskOf exchange.now first.new }
    ensures parts { first.new.known.parts ≡ all_parts }
    ensures kept { KeepsGot first.old.known first.new.known }
    ensures ok { OnOk result ((first.new.hand ≡ None) × HasRest first.new.known) }
{
    for _ in rt.forever() {
        if let Collected::Nothing = first.collect(rt, exchange)? {
            return Ok(());
        }
    }
    unreachable!()
}
