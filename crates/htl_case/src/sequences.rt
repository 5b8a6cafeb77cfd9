//! The test that no sequence of a trace comes twice.

ghost use Rattle.std.specs.Prelude.{◌≡◌, ℕ, ◌<◌, ◌≤◌, ◌++◌, false, List, map, All, IfOk, OnOk};
ghost use Rattle.std.specs.Prelude.{MatchOption};
ghost use Rattle.htl_event.specs.Handles.{HaveOwnSequences};
ghost use Rattle.htl_segment.specs.Content.{Fits};
ghost use Rattle.htl_segment.specs.Traces.{AreInOrder, all_events};
ghost use Rattle.htl_event.specs.Members.{IsLeastSuch};
ghost use Rattle.htl_case.specs.Faults.{ComesTwice};
ghost use Rattle.htl_segment.specs.Repeated.{sequence_of, times};
ghost use Rattle.htl_segment.specs.Seen.{Saw};

use htl_event::{NoMemory, SharedEvent, number_of_events};
use htl_segment::{Seen, Segment, first_repeated};
use std::alloc::Global;

/// The least sequence that comes twice in segments of different keys.
pub fn repeated_sequence(alloc: Global, segments: &[Segment]) -> Result<Option<u64>, NoMemory>
    requires { AreInOrder segments.now }
    ensures found { IfOk result (λ found. MatchOption found
        (((x : ℕ) → ComesTwice segments.now x → ⊥) × HaveOwnSequences (all_events segments.now))
        (IsLeastSuch ◌<◌ (ComesTwice segments.now))) }
    ensures fit { OnOk result (All Fits segments.now) }
{
    if !one_comes_twice(alloc, segments)? {
        return Ok(None);
    }
    let mut sequences = sequences_of(alloc, segments)?;
    sequences.sort()?;
    Ok(first_repeated(&sequences))
}

/// Whether a sequence comes twice. One pass over the events tells that. Only a sort tells which one.
fn one_comes_twice(alloc: Global, segments: &[Segment]) -> Result<bool, NoMemory>
    ensures once { IfOk result (λ twice. twice ≡ false
        → (n : ℕ) → times n (map sequence_of (all_events segments.now)) ≤ 1) }
    ensures fit { OnOk result (All Fits segments.now) }
{
    let mut seen = Seen::new(alloc);
    for segment in segments {
        note_sequences(&mut seen, segment.events())?;
    }
    Ok(seen.comes_twice())
}

/// Notes the sequences of the events.
pub fn note_sequences(seen: &mut Seen, events: &[SharedEvent]) -> Result<(), NoMemory>
    ensures { (numbers : List ℕ) → Saw seen.old numbers
        → OnOk result (Saw seen.new (numbers ++ map sequence_of events.now)) }
{
    for event in events {
        seen.note(event.sequence)?;
    }
    Ok(())
}

fn sequences_of(alloc: Global, segments: &[Segment]) -> Result<Vec<u64>, NoMemory>
    ensures value { IfOk result (λ sequences.
        sequences.items ≡ map sequence_of (all_events segments.now)) }
    ensures fit { OnOk result (All Fits segments.now) }
{
    let mut sequences = Vec::with_capacity(alloc, number_of_events(segments).unwrap_or(0))?;
    for segment in segments {
        push_sequences(&mut sequences, segment.events())?;
    }
    Ok(sequences)
}

fn push_sequences(sequences: &mut Vec<u64>, events: &[SharedEvent]) -> Result<(), NoMemory>
    ensures { OnOk result (sequences.new.items
        ≡ sequences.old.items ++ map sequence_of events.now) }
{
    for event in events {
        sequences.push(event.sequence)?;
    }
    Ok(())
}
