//! The run over inputs that lie in memory, and the steps that all runs share.

ghost use Rattle.std.specs.Prelude.{◌≡◌, ◌⊎◌, false, true, map, IfOk, IfErr, OnOk};
ghost use Rattle.std.specs.Prelude.{None, Some};
ghost use Rattle.std.specs.Option.{option_copied};
ghost use Rattle.htl_segment.specs.Traces.{Trace};
ghost use Rattle.htl_main.specs.Runs.{IsRunOver};
ghost use Rattle.htl_main.specs.CaseOutlines.{IsMissed};
ghost use Rattle.htl_main.specs.Completeness.{ReportsMissing};
ghost use Rattle.htl_main.specs.Coverages.{IsCoverage};
ghost use Rattle.htl_main.specs.Printed.{HasSymbols, HasSymbolFault, IsText, WorkersFit};
ghost use Rattle.htl_main.specs.Printed.{lines_of_answer};
ghost use Rattle.htl_main.specs.Moments.{IsCompleteUntil};
ghost use Rattle.htl_main.specs.Picking.{EndsAnswer, NamesMissing};
ghost use Rattle.htl_main.specs.Printing.{PrintsAnswer};
ghost use Rattle.htl_main.specs.Remarks.{RemarksOver};

use crate::completed::{Absence, Completed, absence_of};
use crate::coverage::{Missed, is_above};
use crate::loading::{Loaded, load_decoded};
use crate::refused::Refused;
use crate::remarks::{Remarks, remarks_on};
use htl_command::{Format, Job, Moment};
use htl_device::Sink;
use htl_event::NoMemory;
use htl_inputs::{CutEnd, RunFault, decode_all, write_lines};
use htl_json::json_lines;
use htl_question::Answer;
use htl_report::{folded, text};
use htl_symbols::{SymbolFault, Symbols};
use std::alloc::Global;
use std::thread::Threads;

/// Prints the answer to the job's question over the segments of all inputs, in the job's form and
/// with addresses by name where the symbol table has them.
///
/// The number of workers is tested first; then each input in order is decoded, the segments are
/// made a case, which is refused where it has a gap and the job asks for a complete one, the
/// symbols are read, a question of which nothing can be found is refused where the job asks for its
/// status, and the answer is made. The first fault ends the run. Nothing is written
/// before the whole text is made; after a failed write some first part of it went out. What is
/// printed is the same for every number of workers. A run that ends well reports how much of its
/// trace the case of all segments has, why nothing can be found of what was asked about, and what
/// is told of the answer beside its lines.
pub fn run<Rt: Threads + Sync, W: Sink>(
    rt: &Rt,
    alloc: Global,
    job: &Job,
    inputs: &[Vec<u8>],
    symbols: Option<&[u8]>,
    out: &mut W,
) -> Result<Completed, Refused>
    requires { (W.state out.old).failed ≡ false }
    ensures { IsRunOver job.now (map (λ input. input.items) inputs.now)
        (option_copied symbols.entry) (W.state out.old) (W.state out.new) result }
{
    check_workers(job.setting.workers)?;
    let decoded = decode_all(alloc, job.setting.form, inputs)?;
    let loaded = load_decoded(alloc, job.setting.complete, job.until, decoded, symbols)?;
    let completed = print_answer(rt, alloc, job, &loaded, out)?;
    Ok(completed)
}

/// Prints the answer to the job's question over what was loaded, and says what is reported beside
/// it. If the exit status says what the answer finds, a question of which nothing can be found is
/// refused.
pub(crate) fn print_answer<Rt: Threads + Sync, W: Sink>(
    rt: &Rt,
    alloc: Global,
    job: &Job,
    loaded: &Loaded,
    out: &mut W,
) -> Result<Completed, RunFault>
    requires known { IsCoverage loaded.now.case loaded.now.coverage }
    requires workers { WorkersFit job.now.setting.workers }
    requires out { (W.state out.old).failed ≡ false }
    ensures { PrintsAnswer loaded.now job.now (W.state out.old) (W.state out.new) result }
{
    let absence = absence_of(job, loaded);
    check_absence(job, absence)?;
    let text = answer_text(rt, alloc, job.setting.workers, job, loaded)?;
    write_lines(out, &text.lines)?;
    Ok(Completed {
        coverage: loaded.coverage,
        cut: loaded.cut,
        absence,
        remarks: text.remarks,
    })
}

/// If the exit status says what the answer finds, refuses a question of which nothing can be found.
pub(crate) fn check_absence(job: &Job, absence: Option<Absence>) -> Result<(), RunFault>
    ensures ok { OnOk result (job.now.exit_code ≡ true → absence ≡ None) }
    ensures err { IfErr result (λ fault. (fault ≡ RunFault.NoSubject)
        × (job.now.exit_code ≡ true) × ((why : Absence) × (absence ≡ Some why))) }
{
    match absence {
        Some(_) if job.exit_code => Err(RunFault::NoSubject),
        _ => Ok(()),
    }
}

/// Tests the number of workers.
pub(crate) fn check_workers(workers: u32) -> Result<(), RunFault>
    ensures ok { OnOk result (WorkersFit workers) }
    ensures err { IfErr result (λ fault. (fault ≡ RunFault.Workers) × (WorkersFit workers → ⊥)) }
{
    if (1..=8).contains(&workers) {
        Ok(())
    } else {
        Err(RunFault::Workers)
    }
}

/// The lines of the answer to a question, and what is told of it beside them.
#[derive(Drop)]
pub struct AnswerText {
    pub lines: Vec<u8>,
    pub remarks: Remarks,
}

impl AnswerText {
    ghost use Rattle.std.specs.Prelude.{◌≡◌, []};

    /// No lines, of which nothing is told.
    pub(crate) fn none(alloc: Global) -> AnswerText
        ensures { result.lines.items ≡ [] }
    {
        AnswerText {
            lines: Vec::new(alloc),
            remarks: Remarks {
                has_finding: false,
                is_unmarked: false,
                is_unnamed: false,
            },
        }
    }
}

/// Answers the job's question over what was loaded. A run over the same inputs prints exactly these
/// lines, for every number of workers that a run takes. `workers` counts here, and not the job's own
/// number, which a line of a dialogue can't give.
pub fn answer_text(
    rt: &(impl Threads + Sync),
    alloc: Global,
    workers: u32,
    job: &Job,
    loaded: &Loaded,
) -> Result<AnswerText, NoMemory>
    requires { WorkersFit workers }
    ensures lines { IfOk result (λ text. IsCoverage loaded.now.case loaded.now.coverage
        → IsText loaded.now.case loaded.now.symbols job.now text.lines.items) }
    ensures remarks { IfOk result (λ text. IsCoverage loaded.now.case loaded.now.coverage
        → RemarksOver loaded.now.case loaded.now.symbols job.now text.remarks) }
{
    let until = loaded.moment(job.until);
    let answer = loaded.case.answer(rt, alloc, workers, until, job.question)?;
    let lines = lines(alloc, job, until, &answer, &loaded.symbols)?;
    Ok(AnswerText {
        lines,
        remarks: remarks_on(job, &answer, &loaded.symbols),
    })
}

/// The lines of an answer in the job's form, where events count up to a moment.
pub(crate) fn lines(
    alloc: Global,
    job: &Job,
    until: Option<u64>,
    answer: &Answer,
    symbols: &Symbols,
) -> Result<Vec<u8>, NoMemory>
    ensures { IfOk result (λ lines.
        lines.items ≡ lines_of_answer job.now.format symbols.now until job.now.top answer.now) }
{
    match job.format {
        Format::Plain => text(alloc, answer, symbols, until, job.top),
        Format::Json => json_lines(alloc, answer, symbols, until, job.top),
        Format::Folded => folded(alloc, answer, symbols, until, job.top),
    }
}

/// If a complete case is asked for, refuses one of which a segment up to the moment is missing, or
/// may be: an input is cut within a segment of which it isn't known which it is.
#[tactic(auto, using(crate::proofs::MomentLaws::complete_until, crate::proofs::MomentLaws::not_above))]
pub(crate) fn check_gaps(
    complete: bool,
    until: Option<Moment>,
    missed: &Missed,
    cuts: &[CutEnd],
) -> Result<(), RunFault>
    ensures ok { OnOk result (complete ≡ true
        → (T : Trace) → IsMissed T missed.now → IsCompleteUntil T cuts.now until) }
    ensures err { IfErr result (λ fault. (complete ≡ true) × ((T : Trace) → IsMissed T missed.now
        → (IsCompleteUntil T cuts.now until → ⊥) × ReportsMissing T cuts.now fault)) }
    ensures after { IfErr result EndsAnswer }
    ensures names { IfErr result NamesMissing }
{
    if !complete || !is_above(until, missed.extent.complete_to) {
        return Ok(());
    }
    match missed.fault(cuts) {
        Some(fault) => Err(fault),
        None => Ok(()),
    }
}

/// The symbols of a table's bytes, or none where no table is given.
pub(crate) fn read_symbols(alloc: Global, symbols: Option<&[u8]>) -> Result<Symbols, SymbolFault>
    ensures ok { IfOk result (HasSymbols (option_copied symbols.entry)) }
    ensures err { IfErr result (λ fault. (fault ≡ SymbolFault.NoMemory)
        ⊎ HasSymbolFault (option_copied symbols.entry) fault) }
{
    match symbols {
        Some(bytes) => Symbols::read(alloc, bytes),
        None => Ok(Symbols::none(alloc)),
    }
}
