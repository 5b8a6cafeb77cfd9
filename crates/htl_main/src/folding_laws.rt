//! The law that when a reading folds doesn't tell which segments it takes.

ghost use Rattle.std.specs.Prelude.{◌≡◌, ◌++◌, List, Option};
ghost use Rattle.htl_segment.specs.Content.{Content};
ghost use Rattle.htl_case.specs.Faults.{HaveOneContent};
ghost use Rattle.htl_case.specs.declared.fault.CaseFault.{CaseFault};
ghost use Rattle.htl_main.specs.Folding.{TakesUpTo};

/// Where no key comes with two contents, what was taken before and what is given determine which
/// segments are taken, and why the next one is unfit, if one is. So neither the number of workers
/// nor the division into reads tells, nor when it is folded.
pub fn one_reading()
    ensures { (before given first second : List Content) (one other : Option CaseFault)
        → HaveOneContent (before ++ given)
        → TakesUpTo before given first one → TakesUpTo before given second other
        → (first ≡ second) × (one ≡ other) }
{}
