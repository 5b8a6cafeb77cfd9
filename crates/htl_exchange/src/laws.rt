//! A law of what surveys answer. The function's contract is the law; it does nothing when it runs.

ghost use Rattle.htl_exchange.specs.Laws.{AreSame};

/// Surveys of one case are the same, by whatever two numbers of workers and with whatever gates,
/// and so is what `close` answers: each is the standing state of the whole case.
pub fn surveys_are_the_same()
    ensures { AreSame }
{}
