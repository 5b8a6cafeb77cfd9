//! What a run or a dialogue tells of an answer beside its lines.

ghost use Rattle.std.specs.Prelude.{◌≡◌};
ghost use Rattle.htl_main.specs.Remarks.{remarks_on};

use htl_command::Job;
use htl_question::Answer;
use htl_report::shows_no_name;
use htl_symbols::Symbols;

/// What is told of an answer beside its lines.
#[derive(Clone, Copy, Debug, PartialEq, Eq)]
pub struct Remarks {
    /// Whether it finds something: any row; for `tags` a tag that doesn't balance; for `summary` an
    /// unbalanced object, or a process with outstanding handles or bad references.
    pub has_finding: bool,
    /// Whether it was asked since the snapshot of a process that has no snapshot which counts: so
    /// it is since the beginning.
    pub is_unmarked: bool,
    /// Whether it shows addresses, and the table of symbols has none of them. Without a table this
    /// is so of each answer that shows an address.
    pub is_unnamed: bool,
}

/// What is told of the answer to the job's question, whose addresses are printed by these symbols.
pub(crate) fn remarks_on(job: &Job, answer: &Answer, symbols: &Symbols) -> Remarks
    ensures { result ≡ remarks_on symbols.now job.now answer.now }
{
    Remarks {
        has_finding: answer.has_finding(),
        is_unmarked: answer.is_unmarked(),
        is_unnamed: shows_no_name(answer, symbols, job.top),
    }
}
