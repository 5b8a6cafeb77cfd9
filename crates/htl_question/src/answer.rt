//! Answers.

use crate::question::Question;
use htl_event::{
    Balance, Count, ObjectRow, Point, ProcessRow, SharedEvent, SharedStack, Since, Site,
};
use htl_taken::Gap;
use std::marker::Model;

/// The answer to a question, with what was asked.
#[derive(Debug, Drop)]
pub struct Answer {
    pub question: Question,
    /// The sequence after which handles count, where it was asked since when and there is one.
    pub since: Option<u64>,
    pub rows: Rows,
}

impl Model for Answer {
    ghost use Rattle.htl_question.specs.Rows.{Found, found, listed};

    ghost Value = { Found };

    ghost view = { λ a. found a.question a.since (listed a.rows) };
}

/// The rows of an answer, in the order in which they are printed.
#[derive(Debug, Drop)]
pub enum Rows {
    /// The events that opened handles.
    Opens(Vec<SharedEvent>),
    /// The events of a handle.
    Listing(Vec<SharedEvent>),
    /// Tags, each with its references and dereferences.
    Tags(Vec<([u8; 4], Count)>),
    /// Handles as written, each with a stack, and how often they came.
    Bad(Vec<(u32, SharedStack, u64)>),
    /// Stacks, each with how many handles it opened.
    Leaks(Vec<(SharedStack, u64)>),
    /// Stacks, each with how many handles it opened, and of how many processes.
    Sites(Vec<Site<SharedStack>>),
    /// Stacks, each with its references and dereferences.
    Stacks(Vec<(SharedStack, Count)>),
    /// How many objects have an event, and tags, each with its references and dereferences on all of
    /// them.
    Balances {
        objects: u64,
        tags: Vec<Balance<[u8; 4]>>,
    },
    /// Stacks, each with its references and dereferences of all objects.
    TagStacks(Vec<Balance<SharedStack>>),
    /// How many handles were open as of moments.
    Points(Vec<Point>),
    /// What leaks at all: the segments that are missing, each process, and the objects with an
    /// unbalanced tag.
    Summary {
        totals: Totals,
        gaps: Vec<Gap>,
        processes: Vec<ProcessRow>,
        objects: Vec<ObjectRow>,
    },
}

/// The numbers of a summary: of processors, of segments, of events and of objects with an event.
#[derive(Clone, Copy, Debug, PartialEq, Eq)]
pub struct Totals {
    pub processors: u16,
    pub segments: u64,
    pub events: u64,
    /// The sequence up to which no segment is missing.
    pub complete_to: u64,
    pub objects: u64,
}

impl Answer {
    ghost use Rattle.std.specs.Prelude.{◌≡◌};
    ghost use Rattle.htl_question.specs.Rows.{has_finding, is_unmarked};

    /// Whether it finds something: any row; for `tags` a tag that doesn't balance; of balances one
    /// that doesn't on some object; for `summary` an unbalanced object, or a process with outstanding
    /// handles or bad references.
    pub fn has_finding(&self) -> bool
        ensures { result ≡ has_finding self.now.rows }
    {
        has_finding(&self.rows)
    }

    /// Whether it was asked since the snapshot of a process that has none: it is since the
    /// beginning.
    pub fn is_unmarked(&self) -> bool
        ensures { result ≡ is_unmarked self.now }
    {
        self.question.since() == Some(Since::Snapshot) && self.since == Some(0)
    }
}

ghost use Rattle.std.specs.Prelude.{◌≡◌, ◌==◌, ◌||◌, nat_lt, not};
ghost use Rattle.std.specs.List.{list_any};
ghost use Rattle.htl_question.specs.Rows.{has_finding, listed};

fn has_finding(rows: &Rows) -> bool
    ensures { result ≡ has_finding (listed rows.now) }
{
    match rows {
        Rows::Opens(rows) | Rows::Listing(rows) => !rows.is_empty(),
        Rows::Tags(rows) => has_unbalanced(rows),
        Rows::Bad(rows) => !rows.is_empty(),
        Rows::Leaks(rows) => !rows.is_empty(),
        Rows::Sites(rows) => !rows.is_empty(),
        Rows::Stacks(rows) => !rows.is_empty(),
        Rows::Balances { tags, .. } => have_objects(tags),
        Rows::TagStacks(rows) => !rows.is_empty(),
        Rows::Points(rows) => !rows.is_empty(),
        Rows::Summary {
            processes,
            objects,
            ..
        } => has_use(processes) || !objects.is_empty(),
    }
}

/// Whether a tag doesn't balance.
fn has_unbalanced(rows: &[([u8; 4], Count)]) -> bool
    ensures { result ≡ list_any (λ row. not (row.1.plus == row.1.minus)) rows.now }
{
    rows.iter().any(|row| row.1.plus != row.1.minus)
}

/// Whether a tag doesn't balance on some object.
fn have_objects(rows: &[Balance<[u8; 4]>]) -> bool
    ensures { result ≡ list_any (λ row. nat_lt 0 row.objects) rows.now }
{
    rows.iter().any(|row| row.objects > 0)
}

/// Whether a process has outstanding handles or bad references.
fn has_use(processes: &[ProcessRow]) -> bool
    ensures { result ≡ list_any (λ row. not (row.outstanding == 0) || not (row.bad == 0))
        processes.now }
{
    processes
        .iter()
        .any(|row| row.outstanding != 0 || row.bad != 0)
}
