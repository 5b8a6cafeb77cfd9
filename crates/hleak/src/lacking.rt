//! What a person reads of what a question lacks in the segments: a number that was mistyped looks
//! like a process without a leak.

ghost use Rattle.std.specs.Prelude.{◌≡◌};
ghost use Rattle.hleak.specs.Notes.{or_moment};

use htl_program::{Lack, SubjectText};
use std::fmt;

/// The note on what a question lacks.
#[derive(Clone, Copy)]
pub struct Lacking {
    pub lack: Lack,
}

impl fmt::Display for Lacking {
    ghost use Rattle.std.specs.Prelude.{Some};
    ghost use Rattle.hleak.specs.Notes.{lack_text};

    ghost output = { λ lacking. Some (lack_text lacking.lack) };

    fn fmt<W: fmt::Write>(&self, f: &mut fmt::Formatter<W>) -> fmt::Result {
        match self.lack {
            Lack::Event {
                subject,
                has_moment,
            } => {
                let (subject, moment) = (SubjectText { subject }, or_moment(has_moment));
                write!(
                    f,
                    "hleak: note: {subject} has no event in these segments{moment}"
                )
            }
            Lack::Later { since } => {
                write!(
                    f,
                    "hleak: note: no event that counts is above --since {since}"
                )
            }
            Lack::Snapshot {
                subject,
                has_moment,
            } => {
                let (subject, moment) = (SubjectText { subject }, or_moment(has_moment));
                write!(
                    f,
                    "hleak: note: {subject} has no snapshot{moment}, so all its open handles count"
                )
            }
        }
    }
}

/// That events up to a moment alone may be the cause, where one was given.
fn or_moment(has_moment: bool) -> &'static str
    ensures { result.now ≡ or_moment has_moment }
{
    if has_moment {
        ", or none up to --until"
    } else {
        ""
    }
}
