//! The laws of rows. Each function's contract is the law; none does anything when it runs.
ghost use Rattle.htl_saved.specs.Laws.{AreDetermined, TellItself, TellTheState};
ghost use Rattle.htl_saved.specs.Laws.{AreLoadedAgain, ArePlain, AreWellFormed};

/// An analyst has one list of rows. With the laws of `htl_state` it has one spelling.
pub fn rows_are_determined()
    ensures { AreDetermined }
{}

/// Rows tell the state: analysts that have the same rows are the same.
pub fn rows_tell_the_state()
    ensures { TellTheState }
{}

/// The state that rows of an analyst tell is the analyst's: `load` gives back what was saved.
pub fn rows_tell_their_own_state()
    ensures { TellItself }
{}

/// A state that is right about a trace is plain, and rows of a standing one are well-formed: what
/// `save` writes of it, `decode` reads.
pub fn rows_are_well_formed()
    ensures plain { ArePlain }
    ensures well_formed { AreWellFormed }
{}

/// What is saved of a standing analyst is loaded as the same, unless memory is refused. An analyst is
/// standing once it is compacted.
pub fn saved_is_loaded_again()
    ensures { AreLoadedAgain }
{}
