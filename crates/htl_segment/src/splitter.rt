//! The splitter: a bundle that comes in pieces.
ghost use Rattle.std.specs.Prelude.{◌≡◌, ◌⊎◌, ◌<◌, ◌^◌, [], length, IfOk, IfErr};
ghost use Rattle.htl_segment.specs.Bundles.{Splits, BundleFault, IsBoundary};
ghost use Rattle.htl_segment.specs.Pieces.{joined, AsksMemory};

use crate::bundle::cut_off;
use crate::fault::Fault;
use crate::feeding::absorb;
use crate::keeper::Segments;
use crate::segment::Segment;
use std::alloc::{AllocError, Global};
use std::marker::Model;
use std::mem;

/// Splits a bundle into its segments while its bytes come, however they are cut into pieces.
#[derive(Debug, Drop)]
pub struct Splitter {
    rest: Vec<u8>,
    fed: u64,
    /// The stacks that were met lately. Its list is empty between two calls.
    kept: Segments,
    fault: Option<(u64, Fault)>,
}

impl Model for Splitter {
    ghost use Rattle.std.specs.Prelude.{◌≡◌, ◌≤◌, [], length, vec_capacity};
    ghost use Rattle.htl_segment.specs.Bundles.{IsRest};
    ghost use Rattle.htl_segment.specs.Pieces.{SplitterState};
    ghost use Rattle.htl_segment.specs.Feeding.{HasRoom};

    ghost Value = { SplitterState };

    ghost view = { λ s. record { fed = s.fed; rest = s.rest.items; fault = s.fault } };

    ghost invariant = { λ s. IsRest s.rest.items
        × (HasRoom s.rest.items (vec_capacity s.rest) × ((length s.rest.items ≤ s.fed)
        × (s.kept.list.items ≡ []))) };
}

impl Splitter {
    ghost use Rattle.std.specs.Prelude.{◌≡◌, ℕ, ◌+◌, ◌<◌, ◌≤◌, ◌^◌, ◌++◌, [], length};
    ghost use Rattle.std.specs.Prelude.{None, Some, Ok, Err, IfOk, IfErr};
    ghost use Rattle.htl_segment.specs.declared.fault.Fault.{Fault};
    ghost use Rattle.htl_segment.specs.Bundles.{Splits, IsRest};
    ghost use Rattle.htl_segment.specs.Pieces.{start_of, RefusesPiece, after_refusal, finish_of};

    /// A splitter that was fed nothing.
    pub fn new(alloc: Global) -> Splitter
        ensures { result ≡ record { fed = 0; rest = []; fault = None } }
    {
        Splitter {
            rest: Vec::new(alloc),
            fed: 0,
            kept: Segments::new(alloc),
            fault: None,
        }
    }

    /// The number of bytes that were fed, without those of a refused piece.
    pub fn fed(&self) -> u64
        ensures value { result ≡ self.now.fed }
        // What every splitter keeps, so that callers have it too.
        ensures rest { IsRest self.now.rest }
        ensures inside { length self.now.rest ≤ self.now.fed }
    {
        self.fed
    }

    /// The bytes fed that make no segment yet.
    pub fn rest(&self) -> &[u8]
        ensures { result.now ≡ self.now.rest }
    {
        &self.rest
    }

    /// Where the bytes that make no segment yet begin among all bytes fed.
    fn start(&self) -> u64
        ensures { result ≡ start_of self.now }
    {
        self.fed - self.rest.len() as u64
    }

    /// The segments that this piece completes.
    ///
    /// A fault of the header is reported by the call that completes the header, and one of the records
    /// by the call that completes the segment. Its offset is where the segment begins. It is reported
    /// again by each later call, and segments that the same piece completed before it are not handed
    /// out. After out of memory the splitter is as before; that is reported only where the bytes at
    /// its offset have no fault.
    pub fn feed(&mut self, alloc: Global, piece: &[u8]) -> Result<Vec<Segment>, (u64, Fault)>
        requires { self.old.fed + length piece.now < 2 ^ 64 }
        ensures again { (fault : ℕ × Fault) → self.old.fault ≡ Some fault
            → (result ≡ Err fault) × (self.new ≡ self.old) }
        ensures taken { self.old.fault ≡ None → IfOk result (λ segments.
            Splits (self.old.rest ++ piece.now) segments.items self.new.rest
            × (self.new ≡ record self.new {
              fed = self.old.fed + length piece.now;
              fault = None;
            })) }
        ensures refused { self.old.fault ≡ None → IfErr result (λ refusal.
            RefusesPiece self.old piece.now refusal × self.new ≡ after_refusal self.old refusal) }
        // What every splitter keeps, so that callers have it too.
        ensures rest { IsRest self.new.rest }
    {
        if let Some(fault) = self.fault {
            return Err(fault);
        }
        let held = self.rest.len();
        match absorb(alloc, &mut self.kept, &mut self.rest, piece) {
            Ok(()) => {
                self.fed += piece.len() as u64;
                Ok(mem::replace(&mut self.kept.list, Vec::new(alloc)))
            }
            Err((offset, fault)) => {
                self.rest.truncate(held);
                self.kept.list.clear();
                let refused = (self.fed - held as u64 + offset, fault);
                if fault != Fault::NoMemory {
                    self.fault = Some(refused);
                }
                Err(refused)
            }
        }
    }

    /// Ends the bytes: a fault where one was reported, or where they end inside a segment.
    pub fn finish(self) -> Result<(), (u64, Fault)>
        ensures value { result ≡ finish_of self }
        // What every splitter keeps, so that callers have it too.
        ensures rest { IsRest self.rest }
    {
        if let Some(fault) = self.fault {
            return Err(fault);
        }
        if self.rest.is_empty() {
            return Ok(());
        }
        Err((self.start(), cut_off(&self.rest)))
    }
}

/// The segments of a bundle that lies in pieces, by a splitter that is fed one after the other. The
/// answer is that of `decode_bundle` on the pieces put together, so it doesn't matter how they were
/// cut.
pub fn decode_pieces(alloc: Global, pieces: &[&[u8]]) -> Result<Vec<Segment>, (u64, Fault)>
    requires { length (joined pieces.now) < 2 ^ 64 }
    ensures found { IfOk result (λ segments. Splits (joined pieces.now) segments.items []) }
    ensures boundary { IfErr result (λ refused. IsBoundary (joined pieces.now) refused.0) }
    // The first fault is reported. Memory is asked for only where no fault stands in what was taken in.
    ensures fault { IfErr result (λ refused.
        BundleFault (joined pieces.now) refused.0 refused.1
        ⊎ ((refused.1 ≡ Fault.NoMemory) × AsksMemory pieces.now refused.0)) }
{
    let mut splitter = Splitter::new(alloc);
    let mut segments = Vec::new(alloc);
    for piece in pieces {
        let start = splitter.start();
        let mut more = splitter.feed(alloc, piece)?;
        if let Err(AllocError) = segments.append(&mut more) {
            return Err((start, Fault::NoMemory));
        }
    }
    splitter.finish()?;
    Ok(segments)
}
