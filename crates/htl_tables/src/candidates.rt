//! Candidates: the events that may be the latest of their handles, gathered from lists in one pass.

ghost use Rattle.std.specs.Prelude.{◌≡◌, IfOk, IsSorted};
ghost use Rattle.htl_tables.specs.OfProcess.{touches};
ghost use Rattle.htl_tables.specs.SortKeys.{sort_key_cmp, AreCandidates};

use crate::hints::{KeyHints, WAYS};
use crate::sort_key::{SortKey, place_of};
use htl_event::{EventList, NoMemory, SharedEvent, number_of_events};
use std::alloc::{AllocError, Allocator};

/// The sort keys of opens and closes, mostly one for each handle, and hints where they are.
#[derive(Drop)]
struct Candidates<A: Allocator> {
    keys: Vec<SortKey, A>,
    hints: KeyHints<A>,
}

/// The sort keys of the lists' opens and closes in order: those of one process, or of all processes
/// where none is named. The latest event of each handle is among them.
pub(crate) fn candidates_in<R: EventList, A: Allocator + Clone>(
    alloc: A,
    lists: &[R],
    chosen: Option<u32>,
) -> Result<Vec<SortKey, A>, NoMemory>
    ensures all { IfOk result (λ keys.
        AreCandidates R.events_of lists.now (touches chosen) keys.items) }
    ensures sorted { IfOk result (λ keys. IsSorted sort_key_cmp keys.items) }
{
    let mut candidates = Candidates::new(alloc, number_of_events(lists).unwrap_or(usize::MAX))?;
    for (list, events) in lists.iter().enumerate() {
        candidates.gather(place_of(list)?, events.events(), chosen)?;
    }
    let mut keys = candidates.keys;
    keys.sort_unstable();
    Ok(keys)
}

/// Whether the event opens or closes a handle of the chosen process, or of any where none is
/// chosen.
fn touches(event: &SharedEvent, chosen: Option<u32>) -> bool
    ensures { result ≡ touches chosen event.now }
{
    event.kind.opens_or_closes() && chosen.is_none_or(|process| event.process == process)
}

impl<A: Allocator + Clone> Candidates<A> {
    ghost use Rattle.std.specs.Prelude.{◌≡◌, [], IfOk};

    /// No key yet, and hints for this many events.
    fn new(alloc: A, events: usize) -> Result<Candidates<A>, AllocError>
        ensures { IfOk result (λ candidates. candidates.keys.items ≡ []) }
    {
        Ok(Candidates {
            hints: KeyHints::new(alloc.clone()?, events)?,
            keys: Vec::new(alloc),
        })
    }
}

impl<A: Allocator> Candidates<A> {
    ghost use Rattle.std.specs.Prelude.{IfOk, OnOk};
    ghost use Rattle.htl_tables.specs.OfProcess.{touches};
    ghost use Rattle.htl_tables.specs.SortKeys.{IsPlaceOf, Gathers, Offers};

    /// Offers the keys of one list's opens and closes of the chosen process, or of all processes.
    fn gather(
        &mut self,
        list: u32,
        events: &[SharedEvent],
        chosen: Option<u32>,
    ) -> Result<(), AllocError>
        ensures { OnOk result
            (Gathers list events.now (touches chosen) self.old.keys.items self.new.keys.items) }
    {
        for (index, event) in events.iter().enumerate() {
            let likely = self.hints.likely_place(&self.keys, events, index);
            if touches(event, chosen) {
                self.offer(SortKey::of(event, list, place_of(index)?), likely)?;
            }
        }
        Ok(())
    }

    /// Puts the key where its handle has a key that comes later, likely at this place. A handle whose
    /// key isn't found gets one more.
    fn offer(&mut self, key: SortKey, likely: usize) -> Result<(), AllocError>
        ensures { OnOk result (Offers key self.old.keys.items self.new.keys.items) }
    {
        match self.find(&key, likely) {
            Ok(place) => {
                let kept = &mut self.keys[place];
                if key.cmp(kept).is_lt() {
                    *kept = key;
                }
            }
            Err(cell) => {
                self.hints.put(cell, self.keys.len());
                self.keys.push(key)?;
            }
        }
        Ok(())
    }

    /// The place of a key of the same handle where a hint has it, likely this place, or else a cell
    /// for a hint.
    fn find(&self, key: &SortKey, likely: usize) -> Result<usize, usize>
        ensures { IfOk result (IsPlaceOf self.now.keys.items key.now) }
    {
        if let Some(other) = self.keys.get(likely)
            && other.is_of_handle_of(key)
        {
            return Ok(likely);
        }
        let first = self.hints.first_cell(key.process, key.base);
        for way in 0..WAYS {
            let cell = first.wrapping_add(way);
            let place = self.hints.place(cell);
            match self.keys.get(place) {
                None => return Err(cell),
                Some(other) if other.is_of_handle_of(key) => return Ok(place),
                Some(_) => {}
            }
        }
        Err(first)
    }
}
