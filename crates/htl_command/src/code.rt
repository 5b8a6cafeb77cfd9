//! The codes of faults.
ghost use Rattle.std.specs.Prelude.{◌≡◌, find};
ghost use Rattle.htl_command.specs.Codes.{code_name};
ghost use Rattle.htl_command.specs.Steps.{code_named, is_called};

/// The code of a fault, without the numbers that may follow it: of a segment (S), of its digits in
/// hexadecimal (H), of a saved state (F), of all segments (C), of a symbol table (Y), or of a line of
/// text (E).
#[derive(Clone, Copy, Debug, PartialEq, Eq)]
pub enum Code {
    S1,
    S2,
    S3,
    S4,
    S5,
    S6,
    S7,
    S8,
    S9,
    S10,
    S11,
    S12,
    S13,
    S14,
    S15,
    S16,
    S17,
    H1,
    H2,
    H3,
    F1,
    F2,
    F3,
    F4,
    F5,
    F6,
    F7,
    F8,
    F9,
    F10,
    F11,
    F12,
    F13,
    F14,
    F15,
    F16,
    F17,
    C1,
    C2,
    C3,
    C4,
    C5,
    C6,
    C7,
    C8,
    C9,
    C10,
    Y1,
    Y2,
    Y3,
    Y4,
    Y5,
    Y6,
    Y7,
    E1,
    E2,
}

/// All codes.
const CODES: [Code; 56] = [
    Code::S1,
    Code::S2,
    Code::S3,
    Code::S4,
    Code::S5,
    Code::S6,
    Code::S7,
    Code::S8,
    Code::S9,
    Code::S10,
    Code::S11,
    Code::S12,
    Code::S13,
    Code::S14,
    Code::S15,
    Code::S16,
    Code::S17,
    Code::H1,
    Code::H2,
    Code::H3,
    Code::F1,
    Code::F2,
    Code::F3,
    Code::F4,
    Code::F5,
    Code::F6,
    Code::F7,
    Code::F8,
    Code::F9,
    Code::F10,
    Code::F11,
    Code::F12,
    Code::F13,
    Code::F14,
    Code::F15,
    Code::F16,
    Code::F17,
    Code::C1,
    Code::C2,
    Code::C3,
    Code::C4,
    Code::C5,
    Code::C6,
    Code::C7,
    Code::C8,
    Code::C9,
    Code::C10,
    Code::Y1,
    Code::Y2,
    Code::Y3,
    Code::Y4,
    Code::Y5,
    Code::Y6,
    Code::Y7,
    Code::E1,
    Code::E2,
];

impl Code {
    /// The code as a fault's line has it.
    pub fn as_str(self) -> &'static str
        ensures { result.now ≡ code_name self }
    {
        match self {
            Code::S1 => "S1",
            Code::S2 => "S2",
            Code::S3 => "S3",
            Code::S4 => "S4",
            Code::S5 => "S5",
            Code::S6 => "S6",
            Code::S7 => "S7",
            Code::S8 => "S8",
            Code::S9 => "S9",
            Code::S10 => "S10",
            Code::S11 => "S11",
            Code::S12 => "S12",
            Code::S13 => "S13",
            Code::S14 => "S14",
            Code::S15 => "S15",
            Code::S16 => "S16",
            Code::S17 => "S17",
            Code::H1 => "H1",
            Code::H2 => "H2",
            Code::H3 => "H3",
            Code::F1 => "F1",
            Code::F2 => "F2",
            Code::F3 => "F3",
            Code::F4 => "F4",
            Code::F5 => "F5",
            Code::F6 => "F6",
            Code::F7 => "F7",
            Code::F8 => "F8",
            Code::F9 => "F9",
            Code::F10 => "F10",
            Code::F11 => "F11",
            Code::F12 => "F12",
            Code::F13 => "F13",
            Code::F14 => "F14",
            Code::F15 => "F15",
            Code::F16 => "F16",
            Code::F17 => "F17",
            Code::C1 => "C1",
            Code::C2 => "C2",
            Code::C3 => "C3",
            Code::C4 => "C4",
            Code::C5 => "C5",
            Code::C6 => "C6",
            Code::C7 => "C7",
            Code::C8 => "C8",
            Code::C9 => "C9",
            Code::C10 => "C10",
            Code::Y1 => "Y1",
            Code::Y2 => "Y2",
            Code::Y3 => "Y3",
            Code::Y4 => "Y4",
            Code::Y5 => "Y5",
            Code::Y6 => "Y6",
            Code::Y7 => "Y7",
            Code::E1 => "E1",
            Code::E2 => "E2",
        }
    }

    /// The code of this name, which may be in either case and have blanks behind it.
    #[tactic(auto, unfolding(crate::specs::Steps::code_named))]
    pub(crate) fn from_name(name: &str) -> Option<Code>
        ensures { result ≡ code_named name.now }
    {
        code_among(&CODES, name.trim_end())
    }

    /// Whether this is the code's name, in either case.
    fn is_called(self, name: &str) -> bool
        ensures { result ≡ is_called name.now self }
    {
        self.as_str().eq_ignore_ascii_case(name)
    }
}

fn code_among(codes: &[Code], name: &str) -> Option<Code>
    ensures { result ≡ find (is_called name.now) codes.now }
{
    codes.iter().copied().find(|code| code.is_called(name))
}
