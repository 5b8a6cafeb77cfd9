//! The fields of lines.
ghost use Rattle.std.specs.Prelude.{◌≡◌};
ghost use Rattle.htl_text.specs.Fields.{field_name};

use std::fmt;

/// A field of a line. Its text is its name.
#[derive(Clone, Copy, Debug, PartialEq, Eq)]
pub enum Field {
    Version,
    Trace,
    Processors,
    Processor,
    Number,
    Handle,
    Object,
    Tag,
    Sequence,
    Process,
    Thread,
    /// The address of a frame, which is a line of its own.
    Frame,
}

impl Field {
    /// The name of the field, which a line has before the `=` of its value. No line has that of a frame.
    pub fn name(self) -> &'static str
        ensures { result.now ≡ field_name self }
    {
        match self {
            Field::Version => "version",
            Field::Trace => "trace",
            Field::Processors => "processors",
            Field::Processor => "processor",
            Field::Number => "number",
            Field::Handle => "handle",
            Field::Object => "object",
            Field::Tag => "tag",
            Field::Sequence => "seq",
            Field::Process => "process",
            Field::Thread => "thread",
            Field::Frame => "frame",
        }
    }
}

impl fmt::Display for Field {
    ghost use Rattle.std.specs.Prelude.{Some};

    ghost output = { λ field. Some (field_name field) };

    fn fmt<W: fmt::Write>(&self, f: &mut fmt::Formatter<W>) -> fmt::Result {
        f.write_str(self.name())
    }
}
