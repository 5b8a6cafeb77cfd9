//! The records of a segment, one after the other.
use crate::record::Record;
use crate::version::Version;
use std::marker::Model;

/// An iterator over the records of a segment. It reads each in place, and takes no memory.
#[derive(Debug, Drop)]
pub struct Records<'a> {
    version: Version,
    left: u32,
    rest: &'a [u8],
}

impl<'a> Model for Records<'a> {
    ghost use Rattle.std.specs.Prelude.{List};
    ghost use Rattle.htl_event.specs.Events.{Event};
    ghost use Rattle.htl_segment.specs.Reading.{events_in};
    ghost use Rattle.htl_segment.specs.InPlace.{HasRecords};

    ghost Value = { List Event };

    ghost view = { λ r. events_in r.left r.rest.now };

    ghost invariant = { λ r. HasRecords r.version r.left r.rest.now };
}

impl<'a> Records<'a> {
    ghost use Rattle.std.specs.Prelude.{◌≡◌};
    ghost use Rattle.htl_segment.specs.Reading.{events_in};
    ghost use Rattle.htl_segment.specs.InPlace.{HasRecords};

    /// The first `count` records of these bytes.
    pub(crate) fn new(version: Version, count: u32, body: &'a [u8]) -> Records<'a>
        requires { HasRecords version count body.now }
        ensures { result ≡ events_in count body.now }
    {
        Records {
            version,
            left: count,
            rest: body,
        }
    }
}

impl<'a> Iterator for Records<'a> {
    ghost use Rattle.std.specs.Iterator.{YieldsFirstBy, item_count};
    ghost use Rattle.htl_segment.specs.Records.{event_of};

    type Item = Record<'a>;

    ghost next_gives = { YieldsFirstBy event_of (λ events. events) };

    ghost remaining = { item_count (λ events. events) };

    fn next(&mut self) -> Option<Record<'a>> {
        if self.left == 0 {
            return None;
        }
        let (record, rest) = Record::split(self.version, self.rest);
        self.left -= 1;
        self.rest = rest;
        Some(record)
    }
}
