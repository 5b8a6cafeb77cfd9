//! The headline, that there are analysts as it has them, when an answer is final, and what an
//! answer over a case is. Each function does nothing when it runs.

ghost use Rattle.htl_case.specs.Answers.{AnswersAreDetermined};
ghost use Rattle.htl_case.specs.Final.{AnswersAreFinal};
ghost use Rattle.htl_case.specs.Headline.{AnyCanBeMerged, AnySegmentsCanBeTaken, AreSameOnceWhole};
ghost use Rattle.htl_case.specs.Headline.{Headline};
ghost use Rattle.htl_case.specs.TakenCases.{TakenCasesAnswer};

/// Take a trace, and any number of analysts that begin with nothing. They take its segments, merge
/// one another or themselves, and compact, as often and in whatever order they like. S is the set
/// of segments that reached one of them.
///
/// 1. It has taken S: nothing is lost, and nothing is counted twice.
/// 2. Each of its answers is the definition's over the events of S.
/// 3. So analysts with one S answer alike, however the segments came to them.
/// 4. Once compacted they are equal.
/// 5. A merge of S and R has S and R together; its order, grouping and repetition don't matter.
pub fn headline()
    ensures { Headline }
{}

/// There are such analysts: any segments of a trace can be taken.
pub fn any_segments_can_be_taken()
    ensures { AnySegmentsCanBeTaken }
{}

/// Any two analysts of one trace can be merged.
pub fn any_can_be_merged()
    ensures { AnyCanBeMerged }
{}

/// Analysts that every segment of a trace reached are the same once compacted, whatever they went
/// through.
pub fn same_once_whole()
    ensures { AreSameOnceWhole }
{}

/// Analysts that the same segments reached agree: each question has one answer over the segments of
/// a trace whose keys are in a set. So two answers of `answer_after` to one question say the same
/// wherever the steps bring the same keys to both analysts.
pub fn answers_are_determined()
    ensures { AnswersAreDetermined }
{}

/// An answer as of a moment is final where no segment is missing up to it. Take a case of some
/// segments of a trace, and such a moment. The events of the case until then are those of the whole
/// trace, so an answer over them is the trace's, whatever the missing segments hold and however
/// many come later.
pub fn answers_are_final()
    ensures { AnswersAreFinal }
{}

/// An analyst that took exactly the segments of a case answers over the case. Its answers about events
/// are the answers over all events of the case, and the other way round. It has taken the segments of
/// the case and no others, and the gaps that it reports are the gaps of the case. So what is promised
/// over the case of the segments that were read is what the headline promises over their keys.
pub fn answers_are_of_the_case()
    ensures { TakenCasesAnswer }
{}
