//! What can be measured.

/// A measurement: one word of the command line, and one file.
#[derive(Clone, Copy)]
pub enum Measurement {
    Segments,
    Trees,
    Tables,
    Analysts,
    Cases,
    Surveys,
    Reports,
}

impl Measurement {
    pub const ALL: &'static [Measurement] = &[
        Measurement::Segments,
        Measurement::Trees,
        Measurement::Tables,
        Measurement::Analysts,
        Measurement::Cases,
        Measurement::Surveys,
        Measurement::Reports,
    ];

    /// The measurement that has this word.
    pub fn of(word: &str) -> Option<Measurement> {
        for measurement in Measurement::ALL {
            if measurement.word() == word {
                return Some(*measurement);
            }
        }
        None
    }

    /// The word that asks for it.
    pub fn word(self) -> &'static str {
        match self {
            Measurement::Segments => "segments",
            Measurement::Trees => "trees",
            Measurement::Tables => "tables",
            Measurement::Analysts => "analysts",
            Measurement::Cases => "cases",
            Measurement::Surveys => "surveys",
            Measurement::Reports => "reports",
        }
    }

    /// A size at which it takes a moment.
    pub fn small_size(self) -> u32 {
        match self {
            Measurement::Segments => 1,
            Measurement::Trees => 1,
            Measurement::Tables => 2,
            Measurement::Analysts => 16,
            Measurement::Cases => 64,
            Measurement::Surveys => 16,
            Measurement::Reports => 1000,
        }
    }
}
