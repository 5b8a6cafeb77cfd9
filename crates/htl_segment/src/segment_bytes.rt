//! Segments in place: their bytes, checked.
ghost use Rattle.std.specs.Prelude.{◌≡◌, ◌++◌, ℕ, List, None, Some, IfOk, OnOk, MatchResult};
ghost use Rattle.htl_event.specs.Interests.{wanted};
ghost use Rattle.htl_segment.specs.Faults.{records_fault};
ghost use Rattle.htl_segment.specs.Outlines.{last_sequence};
ghost use Rattle.htl_segment.specs.Repeated.{sequences_of};
ghost use Rattle.htl_segment.specs.Seen.{Saw};

use crate::fault::Fault;
use crate::header::{HEADER_LEN, Header, read_header};
use crate::outline::Outline;
use crate::record::{Record, check_record};
use crate::records::Records;
use crate::seen::Seen;
use crate::segment::Segment;
use crate::sharing::{BATCH, put, share_all};
use crate::stack_cache::StackCache;
use crate::version::Version;
use htl_event::{Interest, NoMemory, SharedEvent};
use std::alloc::Global;
use std::marker::Model;
use std::sync::Arc;

/// The bytes of one segment, checked. It has what `decode` reads, and takes no memory.
#[derive(Debug, Drop)]
pub struct SegmentBytes<'a> {
    header: Header,
    /// The bytes of the records.
    body: &'a [u8],
}

impl<'a> Model for SegmentBytes<'a> {
    ghost use Rattle.htl_segment.specs.Content.{Content};
    ghost use Rattle.htl_segment.specs.InPlace.{content_of};
    ghost use Rattle.htl_segment.specs.InPlace.{IsSegment};

    ghost Value = { Content };

    ghost view = { λ s. content_of s.header s.body.now };

    ghost invariant = { λ s. IsSegment s.header s.body.now };
}

impl<'a> SegmentBytes<'a> {
    ghost use Rattle.std.specs.Prelude.{◌≡◌, ◌≤◌, ◌++◌, length, None, Some, IfOk, MatchResult};
    ghost use Rattle.htl_segment.specs.Content.{Fits};
    ghost use Rattle.htl_segment.specs.Encoding.{encoding, BeginsWith};
    ghost use Rattle.htl_segment.specs.Faults.{first_fault};

    /// The segment that `bytes` begin with.
    pub fn check(bytes: &'a [u8]) -> Result<SegmentBytes<'a>, Fault>
        ensures found { IfOk result (λ s. BeginsWith bytes.now (length (encoding s)) s) }
        ensures fault { MatchResult result
            (λ _. first_fault bytes.now ≡ None)
            (λ fault. first_fault bytes.now ≡ Some fault) }
    {
        if bytes.len() < HEADER_LEN {
            return Err(Fault::Short);
        }
        let (header, rest) = bytes.split_at(HEADER_LEN);
        SegmentBytes::check_parts(header, rest)
    }

    /// The segment that a header and the bytes after it begin with.
    pub(crate) fn check_parts(head: &[u8], rest: &'a [u8]) -> Result<SegmentBytes<'a>, Fault>
        requires { length head.now ≡ HEADER_LEN }
        ensures found { IfOk result (λ s.
            BeginsWith (head.now ++ rest.now) (length (encoding s)) s) }
        ensures fault { MatchResult result
            (λ _. first_fault (head.now ++ rest.now) ≡ None)
            (λ fault. first_fault (head.now ++ rest.now) ≡ Some fault) }
    {
        let header = read_header(head)?;
        let len = header.len as usize - HEADER_LEN;
        if rest.len() < len {
            return Err(Fault::Cut);
        }
        let body = &rest[..len];
        check_records(header.version, header.count, body)?;
        Ok(SegmentBytes { header, body })
    }

    /// The length of the segment in bytes, its header included.
    pub fn byte_len(&self) -> usize
        ensures value { result ≡ length (encoding self.now) }
        ensures long { HEADER_LEN ≤ result }
    {
        HEADER_LEN + self.body.len()
    }

    /// The records in order, each read in place.
    pub fn records(&self) -> Records<'a>
        ensures value { result ≡ self.now.events }
        // What every segment keeps, so that callers have it too.
        ensures fits { Fits self.now }
    {
        Records::new(self.header.version, self.header.count, self.body)
    }

    /// The segment, in memory of its own.
    pub fn to_segment(&self, alloc: Global) -> Result<Segment, NoMemory>
        ensures { IfOk result (λ segment. segment ≡ self.now) }
    {
        self.to_segment_with(alloc, &mut StackCache::new(alloc))
    }

    /// As `to_segment`, but equal stacks come from the cache.
    pub fn to_segment_with(
        &self,
        alloc: Global,
        cache: &mut StackCache,
    ) -> Result<Segment, NoMemory>
        ensures { IfOk result (λ segment. segment ≡ self.now) }
    {
        let count = self.header.count as usize;
        let events = gather(alloc, cache, count, self.records())?;
        Ok(Segment::new(
            self.header.version,
            self.header.trace_id,
            self.header.processors,
            self.header.processor,
            self.header.number,
            Arc::new(alloc, events)?,
        ))
    }
}

impl SegmentBytes<'_> {
    ghost use Rattle.std.specs.Prelude.{◌≡◌, ◌++◌, ℕ, List, length, IfOk, OnOk};
    ghost use Rattle.htl_event.specs.Interests.{wanted};
    ghost use Rattle.htl_segment.specs.Outlines.{first_sequence, last_sequence, outline_of};
    ghost use Rattle.htl_segment.specs.Repeated.{sequences_of};
    ghost use Rattle.htl_segment.specs.Seen.{Saw};

    /// Puts the events that the question asks about behind `events`, notes the sequences of all events,
    /// and gives the last sequence, or 0 where the segment has no event.
    pub(crate) fn pick_with(
        &self,
        alloc: Global,
        cache: &mut StackCache,
        interest: Interest,
        seen: &mut Seen,
        events: &mut Vec<SharedEvent>,
    ) -> Result<u64, NoMemory>
        ensures events { OnOk result
            (events.new.items ≡ events.old.items ++ wanted interest self.now.events) }
        ensures seen { (numbers : List ℕ) → Saw seen.old numbers
            → OnOk result (Saw seen.new (numbers ++ sequences_of self.now.events)) }
        ensures last { IfOk result (λ last. last ≡ last_sequence 0 self.now.events) }
    {
        pick(alloc, cache, interest, seen, events, self.records())
    }

    /// The number of the segment's events, as its header says.
    pub(crate) fn number_of_events(&self) -> usize
        ensures { result ≡ length self.now.events }
    {
        self.header.count as usize
    }

    /// The outline of the segment, whose last event has this sequence.
    pub(crate) fn outline(&self, last: u64) -> Outline
        requires { last ≡ last_sequence 0 self.now.events }
        ensures { result ≡ outline_of self.now }
    {
        Outline {
            trace_id: self.header.trace_id,
            processors: self.header.processors,
            processor: self.header.processor,
            number: self.header.number,
            first: self.first_sequence(),
            last,
        }
    }

    /// The sequence of the first event, or 0 where the segment has no event.
    fn first_sequence(&self) -> u64
        ensures { result ≡ first_sequence self.now.events }
    {
        match self.records().next() {
            Some(first) => first.sequence,
            None => 0,
        }
    }
}

impl SegmentBytes<'_> {
    ghost use Rattle.std.specs.Prelude.{◌≡◌, ◌<◌};
    ghost use Rattle.htl_segment.specs.Versions.{version_number};

    /// The version of the format: 1 or 2.
    pub fn version(&self) -> u16
        ensures { result ≡ version_number self.now.version }
    {
        self.header.version.number()
    }

    /// The number that all segments of one trace share.
    pub fn trace_id(&self) -> u64
        ensures { result ≡ self.now.trace_id }
    {
        self.header.trace_id
    }

    /// The number of processors of the trace.
    pub fn processors(&self) -> u16
        ensures { result ≡ self.now.processors }
    {
        self.header.processors
    }

    /// The processor that wrote this segment.
    pub fn processor(&self) -> u16
        ensures value { result ≡ self.now.processor }
        ensures below { result < self.now.processors }
    {
        self.header.processor
    }

    /// The place of this segment among those of its processor.
    pub fn number(&self) -> u32
        ensures { result ≡ self.now.number }
    {
        self.header.number
    }
}

/// The events of `count` records.
fn gather(
    alloc: Global,
    cache: &mut StackCache,
    count: usize,
    records: Records<'_>,
) -> Result<Vec<SharedEvent>, NoMemory>
    ensures { IfOk result (λ events. events.items ≡ records.entry) }
{
    let mut events = Vec::with_capacity(alloc, count)?;
    let mut batch = Vec::with_capacity(alloc, BATCH)?;
    for record in records {
        put(alloc, cache, &mut batch, &mut events, record)?;
    }
    share_all(alloc, cache, &batch, &mut events)?;
    Ok(events)
}

/// Puts the events that the question asks about behind `events`, notes the sequences of all records,
/// and gives the last sequence, or 0 where there is no record.
fn pick(
    alloc: Global,
    cache: &mut StackCache,
    interest: Interest,
    seen: &mut Seen,
    events: &mut Vec<SharedEvent>,
    records: Records<'_>,
) -> Result<u64, NoMemory>
    ensures events { OnOk result
        (events.new.items ≡ events.old.items ++ wanted interest records.entry) }
    ensures seen { (numbers : List ℕ) → Saw seen.old numbers
        → OnOk result (Saw seen.new (numbers ++ sequences_of records.entry)) }
    ensures last { IfOk result (λ last. last ≡ last_sequence 0 records.entry) }
{
    let mut last = 0;
    let mut batch = Vec::with_capacity(alloc, BATCH)?;
    for record in records {
        last = record.sequence;
        seen.note(last)?;
        if record.is_wanted(interest) {
            put(alloc, cache, &mut batch, events, record.as_needed(interest))?;
        }
    }
    share_all(alloc, cache, &batch, events)?;
    Ok(last)
}

/// Tests this many records. They have to fill `body`.
fn check_records(version: Version, count: u32, body: &[u8]) -> Result<(), Fault>
    ensures { MatchResult result
        (λ _. records_fault version count 0 0 body.now ≡ None)
        (λ fault. records_fault version count 0 0 body.now ≡ Some fault) }
{
    let mut rest = body;
    let mut last = 0;
    for place in 0..count {
        check_record(version, place as u64, last, rest)?;
        let (record, after) = Record::split(version, rest);
        last = record.sequence;
        rest = after;
    }
    if !rest.is_empty() {
        return Err(Fault::Excess);
    }
    Ok(())
}
