//! A case of which many questions are asked.

ghost use Rattle.std.specs.Prelude.{◌≡◌, Some, flat_map, IfOk};
ghost use Rattle.htl_segment.specs.Traces.{all_events};
ghost use Rattle.htl_event.specs.Moments.{counted_events};
ghost use Rattle.htl_evidence.specs.Columns.{HaveColumns};
ghost use Rattle.htl_evidence.specs.Told.{own_events};

use crate::answering::answer;
use crate::as_of::AsOf;
use crate::columns::{Columns, columns_after, columns_of};
use crate::one::One;
use crate::owner::Owner;
use htl_case::Case;
use htl_event::{EventList, NoMemory, Span};
use htl_question::{Answer, Question};
use htl_segment::Segment;
use std::alloc::Global;
use std::marker::Model;
use std::thread::Threads;

/// A case, which may have an index: then a question about a process, an object or a handle looks at
/// little more than its own events.
#[derive(Drop)]
pub struct Indexed {
    case: Case,
    columns: Option<Vec<Columns>>,
}

impl Model for Indexed {
    ghost use Rattle.std.specs.Prelude.{IfSome};
    ghost use Rattle.htl_segment.specs.Traces.{Trace};
    ghost use Rattle.htl_evidence.specs.Columns.{HaveColumns};

    ghost Value = { Trace };

    ghost view = { λ i. i.case };

    ghost invariant = { λ i. IfSome i.columns (λ all. HaveColumns i.case.segments all.items) };
}

impl Indexed {
    ghost use Rattle.std.specs.Prelude.{◌≡◌, ◌++◌, Contains, IfOk, IfSome};
    ghost use Rattle.htl_segment.specs.Content.{Content};
    ghost use Rattle.htl_segment.specs.Traces.{all_events};
    ghost use Rattle.htl_case.specs.Cases.{IsCase, IsCaseOf};
    ghost use Rattle.htl_case.specs.Spans.{IsSpan};
    ghost use Rattle.htl_evidence.specs.Bases.{IsAnswer};

    /// The case without an index, which is enough for one question.
    pub fn without(case: Case) -> Indexed
        ensures { result ≡ case }
    {
        Indexed {
            case,
            columns: None,
        }
    }

    /// The same case with an index, which takes three bytes an event. Where memory for it is refused,
    /// the case has none.
    pub fn with_index(self, alloc: Global) -> Indexed
        ensures { result ≡ self }
    {
        let case = self.case;
        let columns = columns_of(alloc, case.segments()).ok();
        Indexed { case, columns }
    }

    /// The case of these segments and its own, without an index. There is none if they form no case,
    /// or if memory is refused. Few segments cost little.
    pub fn with_more(&self, alloc: Global, more: &[Segment]) -> Option<Case>
        ensures { IfSome result (IsCaseOf (more.now ++ self.now.segments)) }
    {
        self.case.with_more(alloc, more)
    }

    /// Becomes this case, which has all of its segments and others. An index is only made of the
    /// others, as it keeps what it has of its own. Where memory for it is refused, the case has none.
    pub fn grow(&mut self, alloc: Global, grown: Indexed)
        requires { (s : Content) → Contains self.old.segments s → Contains grown.segments s }
        ensures { self.new ≡ grown }
    {
        let case = grown.case;
        let columns = match self.columns.take() {
            Some(own) => columns_after(alloc, self.case.segments(), own, case.segments()).ok(),
            None => columns_of(alloc, case.segments()).ok(),
        };
        self.case = case;
        self.columns = columns;
    }

    /// The segments by processor, then by number, each once.
    pub fn segments(&self) -> &[Segment]
        ensures value { result.now ≡ self.now.segments }
        // What every case keeps, so that callers have it too.
        ensures is_case { IsCase self.now }
    {
        self.case.segments()
    }

    /// The first and the last sequence of all events, or none where there is no event.
    pub fn span(&self) -> Option<Span>
        ensures { IsSpan (all_events self.now.segments) result }
    {
        self.case.span()
    }

    /// The answer to a question over the events of the case up to a moment. It is made from the
    /// segments where they lie, without folding any.
    pub fn answer<Rt: Threads + Sync>(
        &self,
        rt: &Rt,
        alloc: Global,
        workers: u32,
        until: Option<u64>,
        question: Question,
    ) -> Result<Answer, NoMemory>
        ensures { IfOk result (IsAnswer self.now until question) }
    {
        if let (Some(columns), Some(owner)) = (&self.columns, Owner::of(question)) {
            let lists = own_lists(alloc, self.case.segments(), columns, owner, until)?;
            let own = AsOf::new(alloc, &self.case, until, Some(owner), &lists);
            return answer(rt, alloc, workers, &own, question);
        }
        let lists = self.case.until(alloc, until)?;
        let all = AsOf::new(alloc, &self.case, until, None, &lists);
        answer(rt, alloc, workers, &all, question)
    }
}

/// The events of the process, object or handle, up to a moment.
fn own_lists<'a>(
    alloc: Global,
    segments: &'a [Segment],
    columns: &[Columns],
    owner: Owner,
    until: Option<u64>,
) -> Result<Vec<One<'a>>, NoMemory>
    requires { HaveColumns segments.now columns.now }
    ensures { IfOk result (λ lists. flat_map ⟦<One<'a> as EventList>⟧.events_of lists.items
        ≡ own_events (Some owner) (counted_events until (all_events segments.now))) }
{
    let mut lists = Vec::new(alloc);
    for (place, segment) in segments.iter().enumerate() {
        columns[place].push_own(&mut lists, segment.events(), owner, until)?;
    }
    Ok(lists)
}
