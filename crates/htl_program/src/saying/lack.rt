//! What a question lacks in the segments, as a person is told.

ghost use Rattle.std.specs.Prelude.{◌≡◌};
ghost use Rattle.htl_program.specs.AskedAbout.{event_lack, lack_of, later_lack, snapshot_lack};

use htl_command::Job;
use htl_main::{Absence, Remarks, since_of};
use htl_question::Subject;

/// What a question lacks in the segments. Its answer may say less than it seems to.
#[derive(Clone, Copy, Debug, PartialEq, Eq)]
pub enum Lack {
    /// Its subject has no event that counts. A moment up to which events count may be the cause,
    /// where one was given.
    Event { subject: Subject, has_moment: bool },
    /// No event that counts comes after the sequence since which it asks.
    Later { since: u64 },
    /// Its process has no snapshot that counts, since which it asks.
    Snapshot { subject: Subject, has_moment: bool },
}

impl Lack {
    /// What the job's question lacks, if anything, by why nothing can be found and by what is told
    /// of the answer.
    pub fn of(job: &Job, absence: Option<Absence>, remarks: Remarks) -> Option<Lack>
        ensures { result ≡ lack_of job.now absence remarks }
    {
        match absence {
            Some(Absence::Subject) => Lack::event(job),
            Some(Absence::Later) => Lack::later(job),
            None if remarks.is_unmarked => Lack::snapshot(job),
            None => None,
        }
    }

    fn event(job: &Job) -> Option<Lack>
        ensures { result ≡ event_lack job.now }
    {
        let subject = job.question.subject()?;
        Some(Lack::Event {
            subject,
            has_moment: job.until.is_some(),
        })
    }

    fn later(job: &Job) -> Option<Lack>
        ensures { result ≡ later_lack job.now }
    {
        let since = since_of(job.question)?;
        Some(Lack::Later { since })
    }

    fn snapshot(job: &Job) -> Option<Lack>
        ensures { result ≡ snapshot_lack job.now }
    {
        let subject = job.question.subject()?;
        Some(Lack::Snapshot {
            subject,
            has_moment: job.until.is_some(),
        })
    }
}
