//! Laws of what a run comes to. Each function's contract is the law; none does anything when it
//! runs.

ghost use Rattle.std.specs.Prelude.{◌≡◌, ◌≢◌, ◌↔◌, [], ℕ, Bool, Contains, List, Option, None, Some};
ghost use Rattle.std.specs.Prelude.{Result, false, length};
ghost use Rattle.std.specs.Global.{Vec};
ghost use Rattle.htl_event.specs.Events.{Event};
ghost use Rattle.htl_event.specs.declared.slot.Count.{Count};
ghost use Rattle.htl_event.specs.declared.summary.ObjectRow.{ObjectRow};
ghost use Rattle.htl_event.specs.declared.summary.ProcessRow.{ProcessRow};
ghost use Rattle.htl_event.specs.declared.since.Since.TheVariants.{Sequence};
ghost use Rattle.htl_segment.specs.Content.{Content};
ghost use Rattle.htl_segment.specs.Traces.{Trace, IsTrace};
ghost use Rattle.htl_taken.specs.declared.gap.Gap.{Gap};
ghost use Rattle.htl_analyst.specs.Keys.{keys};
ghost use Rattle.htl_analyst.specs.Right.{IsRight};
ghost use Rattle.htl_analyst.specs.States.{State};
ghost use Rattle.htl_analyst.specs.TakenAll.{IsFirstOf};
ghost use Rattle.htl_case.specs.Answers.{IsAnswerOver as IsAnalystsOver};
ghost use Rattle.htl_case.specs.Cases.{IsCaseOf};
ghost use Rattle.htl_case.specs.Final.{IsFinalAt};
ghost use Rattle.htl_case.specs.TakenCases.{IsTakenCase};
ghost use Rattle.htl_case.specs.declared.question.AnalystAnswer.TheVariants as told;
ghost use Rattle.htl_case.specs.declared.question.AnalystQuestion.TheVariants as analysts;
ghost use Rattle.htl_command.specs.declared.question.InputForm.{InputForm};
ghost use Rattle.htl_command.specs.declared.question.Job.{Job};
ghost use Rattle.htl_command.specs.declared.question.Moment.{Moment};
ghost use Rattle.htl_question.specs.Answers.{IsAnswerOver};
ghost use Rattle.htl_question.specs.Bases.{Basis};
ghost use Rattle.htl_question.specs.Rows.{Found, bad, found, has_finding, leaks, opens, stacks, summary};
ghost use Rattle.htl_question.specs.Rows.{tags};
ghost use Rattle.htl_question.specs.declared.answer.Totals.{Totals};
ghost use Rattle.htl_question.specs.declared.question.Question.{Question};
ghost use Rattle.htl_question.specs.declared.question.Question.TheVariants as questions;
ghost use Rattle.htl_inputs.specs.declared.fault.RunFault.{RunFault};
ghost use Rattle.htl_main.specs.Analysts.{AreAnswers};
ghost use Rattle.htl_evidence.specs.Bases.{IsAnswer};
ghost use Rattle.htl_main.specs.Coverages.{Covers, IsCoverage};
ghost use Rattle.htl_main.specs.Folding.{AreTaken, IsAskedOver, IsCaseOfFirsts};
ghost use Rattle.htl_main.specs.Histories.{AnyCanBeCompacted, AnyHistoryLeavesAState};
ghost use Rattle.htl_main.specs.Moments.{IsCompleteUntil, IsNamedMoment, is_touched};
ghost use Rattle.htl_main.specs.Printed.{Printed, WorkersFit, by_workers};
ghost use Rattle.htl_main.specs.Remarks.{ReportsRemarks};
ghost use Rattle.htl_main.specs.Subjects.{HasAbsence, is_growth};
ghost use Rattle.htl_main.specs.declared.completed.Absence.{Absence};
ghost use Rattle.htl_main.specs.declared.coverage.Coverage.{Coverage};
ghost use Rattle.htl_main.specs.declared.remarks.Remarks.{Remarks};

/// Inputs and a symbol table have at most one outcome: a printed text or a fault. It is the same
/// for every number of workers that is allowed. (A refused allocation or thread and a failed read
/// or write are no faults of what is given.)
pub fn one_outcome()
    ensures one { (job : Job) (inputs : List (List ℕ)) (symbols : Option (List ℕ))
        (a b : Result (List ℕ) RunFault)
        → Printed job inputs symbols a → Printed job inputs symbols b → a ≡ b }
    ensures workers { (job : Job) (workers other : ℕ) (inputs : List (List ℕ))
        (symbols : Option (List ℕ)) (a b : Result (List ℕ) RunFault)
        → WorkersFit workers → WorkersFit other
        → Printed (by_workers workers job) inputs symbols a
        → Printed (by_workers other job) inputs symbols b → a ≡ b }
{}

/// Over the same inputs the same is told of an answer beside its lines: it always finds something,
/// or never does.
pub fn one_finding()
    ensures { (job : Job) (inputs : List (List ℕ)) (symbols : Option (List ℕ)) (a b : Remarks)
        → ReportsRemarks job inputs symbols a → ReportsRemarks job inputs symbols b → a ≡ b }
{}

/// An answer over events has the rows that an analyst's answer over them to the same question has.
/// (An analyst isn't asked for a listing or a growth. A difference since the snapshot is one since
/// the mark.)
pub fn analysts_agree()
    ensures outstanding { (B : Basis) (process : ℕ) (rows : Vec Event)
        → IsAnswerOver B (questions.Outstanding process)
        (found (questions.Outstanding process) None (opens rows.items))
        ↔ IsAnalystsOver B.events (analysts.Outstanding process) (told.Outstanding rows) }
    ensures diff { (B : Basis) (process since : ℕ) (rows : Vec Event)
        → IsAnswerOver B (questions.Diff process (Sequence since))
        (found (questions.Diff process (Sequence since)) (Some since) (opens rows.items))
        ↔ IsAnalystsOver B.events (analysts.Diff process since) (told.Diff rows) }
    ensures tags { (B : Basis) (object : ℕ) (rows : Vec (List ℕ × Count))
        → IsAnswerOver B (questions.Tags object)
        (found (questions.Tags object) None (tags rows.items))
        ↔ IsAnalystsOver B.events (analysts.Tags object) (told.Tags rows) }
    ensures bad { (B : Basis) (process : ℕ) (rows : Vec (ℕ × List ℕ × ℕ))
        → IsAnswerOver B (questions.Bad process)
        (found (questions.Bad process) None (bad rows.items))
        ↔ IsAnalystsOver B.events (analysts.Bad process) (told.Bad rows) }
    ensures leaks { (B : Basis) (process : ℕ) (rows : Vec (List ℕ × ℕ))
        → IsAnswerOver B (questions.Leaks process None 1)
        (found (questions.Leaks process None 1) None (leaks rows.items))
        ↔ IsAnalystsOver B.events (analysts.Leaks process) (told.Leaks rows) }
    ensures stacks { (B : Basis) (object : ℕ) (tag : List ℕ) (rows : Vec (List ℕ × Count))
        → IsAnswerOver B (questions.Stacks object tag)
        (found (questions.Stacks object tag) None (stacks rows.items))
        ↔ IsAnalystsOver B.events (analysts.Stacks object tag) (told.Stacks rows) }
{}

/// A summary of a case says exactly what an analyst answers that took the segments of the case: how
/// many segments and events there are, which segments are missing, and which processes and objects
/// there are. Beside these it says of the case how many processors there are and up to which
/// sequence no segment is missing, which are no questions to an analyst.
pub fn summaries_agree()
    ensures { (T : Trace) (S : ℕ → ℕ → Bool) (C : Trace) (totals : Totals) (gaps : Vec Gap)
        (processes : Vec ProcessRow) (objects : Vec ObjectRow) → IsTakenCase T S C
        → IsAnswer C None questions.Summary (found questions.Summary None
        (summary totals gaps.items processes.items objects.items))
        ↔ AreAnswers T S C totals gaps processes objects }
{}

/// Of segments that have a case, each is equal to the first one of its key. So what is promised of
/// the first segments, and of each question that is asked over them, is promised of the case.
pub fn segments_of_a_case_are_first()
    ensures case { (segments : List Content) (T : Trace) → IsCaseOf segments T
        → IsCaseOfFirsts segments T }
    ensures asked { (segments : List Content) (T : Trace) → IsCaseOf segments T
        → (question : Question) → IsAskedOver question segments T }
{}

/// What was folded of segments, the first of each key of a trace, is an analyst as the headline of
/// `htl_case` has them: it is right about the trace, and its keys are exactly the keys of the case
/// of these first segments. So its answers over its keys are those over the case
/// (`answers_are_of_the_case` of `htl_case`).
pub fn folded_analysts_agree()
    ensures { (T : Trace) (segments : List Content) (a : State) (C : Trace) → IsTrace T
        → ((s : Content) → IsFirstOf segments s → Contains T.segments s)
        → AreTaken segments (Some a) → IsCaseOfFirsts segments C
        → IsRight a T × IsTakenCase T (keys a) C }
{}

/// Any analyst of a trace can be compacted: there is a state that a compaction may leave.
pub fn any_can_be_compacted()
    ensures { AnyCanBeCompacted }
{}

/// There are analysts of every history: whatever segments of a trace an analyst takes, and however
/// it and others are merged and compacted, there is a state that this leaves.
pub fn any_history_leaves_a_state()
    ensures { AnyHistoryLeavesAState }
{}

/// An answer as of a moment is final where no segment is missing up to it: over a case of some
/// segments of a trace it is the answer over the whole trace, whatever the missing segments hold. So
/// is a growth. Only a summary is not, since it also says which segments there are.
pub fn answers_of_runs_are_final()
    ensures { (T C : Trace) (moment : ℕ) → IsFinalAt T C moment
        → (question : Question) (answer : Found) → question ≢ questions.Summary
        → IsAnswer C (Some moment) question answer ↔ IsAnswer T (Some moment) question answer }
{}

/// Inputs have one coverage, and a summary reports the same.
pub fn one_coverage()
    ensures one { (form : InputForm) (inputs : List (List ℕ)) (a b : Coverage)
        → Covers form inputs a → Covers form inputs b → a ≡ b }
    ensures summary { (T : Trace) (until : Option ℕ) (coverage : Coverage) (totals : Totals)
        (gaps : List Gap) (processes : List ProcessRow) (objects : List ObjectRow)
        → IsCoverage T coverage
        → IsAnswer T until questions.Summary (found questions.Summary None
        (summary totals gaps processes objects))
        → (coverage.gaps ≡ length gaps) × (coverage.complete_to ≡ totals.complete_to) }
{}

/// Where there is nothing of what a question asks about, its answer finds nothing. So `C9`, which
/// comes in place of a finding, hides none. (A growth has a row for each moment all the same.)
pub fn nothing_is_found_of_what_is_absent()
    ensures { (T : Trace) (job : Job) (absence : Absence) (until : Option ℕ) (answer : Found)
        → HasAbsence T job (Some absence) → IsNamedMoment T job.until until
        → IsAnswer T until job.question answer → is_growth job.question ≡ false
        → has_finding answer.rows ≡ false }
{}

/// A coverage shows that segments are missing which may change an answer exactly where the case isn't
/// complete up to the moment.
pub fn touched_unless_complete()
    ensures { (T : Trace) (coverage : Coverage) (until : Option Moment) → IsCoverage T coverage
        → (is_touched coverage until ≡ false) ↔ IsCompleteUntil T [] until }
{}
