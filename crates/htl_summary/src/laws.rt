//! Laws of sites. Each function's contract is the law; none does anything when it runs.

ghost use Rattle.std.specs.Prelude.{ℕ, List};
ghost use Rattle.htl_event.specs.Events.{Event};
ghost use Rattle.htl_summary.specs.SiteLaws.{SitesAddUp, SitesAreLeaks};

/// The sum of the handles of all sites is the sum of the outstanding handles of all processes.
pub fn sites_add_up()
    ensures { (events : List Event) → SitesAddUp events }
{}

/// Where all events are of one process, sites are its leaks, whatever the threshold, and since
/// whenever handles count.
#[tactic(auto, using(crate::proofs::SiteLaws::sites_are_leaks))]
pub fn sites_of_one_process_are_its_leaks()
    ensures { (events : List Event) (process : ℕ) → SitesAreLeaks events process }
{}
