//! Texts of a caller as a terminal is given them.

ghost use Rattle.std.specs.Prelude.{◌≡◌, Some, false, true};
ghost use Rattle.std.specs.Fmt.{WritesOnOk};
ghost use Rattle.hleak.specs.Shown.{is_kept, shown_char, shown_text, turns};

use std::fmt;

/// A text whose control characters are shown by their escapes, as `\u{1b}`, so that a name can't
/// move the cursor or clear what stands there. Those that turn the direction of writing are too, so
/// that it can't look like another name.
#[derive(Clone, Copy)]
pub struct Shown<'a> {
    text: &'a str,
    /// Whether the text has lines, whose ends are kept.
    has_lines: bool,
}

impl<'a> Shown<'a> {
    /// A name, which stands in one line.
    pub fn name(text: &'a str) -> Shown<'a>
        ensures text { result.text ≡ text.entry }
        ensures line { result.has_lines ≡ false }
    {
        Shown {
            text,
            has_lines: false,
        }
    }

    /// A text of several lines.
    pub fn lines(text: &'a str) -> Shown<'a>
        ensures text { result.text ≡ text.entry }
        ensures lines { result.has_lines ≡ true }
    {
        Shown {
            text,
            has_lines: true,
        }
    }
}

impl fmt::Display for Shown<'_> {
    ghost output = { λ shown. Some (shown_text shown.has_lines shown.text.now) };

    fn fmt<W: fmt::Write>(&self, f: &mut fmt::Formatter<W>) -> fmt::Result {
        write_shown(f, self.text, self.has_lines)
    }
}

/// Writes the characters of the text, each as it is shown.
fn write_shown<W: fmt::Write>(f: &mut fmt::Formatter<W>, text: &str, has_lines: bool) -> fmt::Result
    ensures { WritesOnOk W.write_str_gives f.old result (shown_text has_lines text.now) f.new }
{
    for character in text.chars() {
        let shown = ShownChar {
            character,
            is_kept: is_kept(has_lines, character),
        };
        write!(f, "{shown}")?;
    }
    Ok(())
}

/// A character as it is, or its escape.
#[derive(Clone, Copy)]
struct ShownChar {
    character: char,
    is_kept: bool,
}

impl fmt::Display for ShownChar {
    ghost output = { λ shown. Some (shown_char shown.is_kept shown.character) };

    fn fmt<W: fmt::Write>(&self, f: &mut fmt::Formatter<W>) -> fmt::Result {
        let character = self.character;
        match (self.is_kept, character) {
            (true, _) => write!(f, "{character}"),
            (false, '\t') => write!(f, "\\t"),
            (false, '\n') => write!(f, "\\n"),
            (false, '\r') => write!(f, "\\r"),
            (false, _) => write!(f, "\\u{{{:x}}}", u32::from(character)),
        }
    }
}

/// Whether a terminal may be given the character. A text of several lines keeps their ends.
fn is_kept(has_lines: bool, character: char) -> bool
    ensures { result ≡ is_kept has_lines character }
{
    !turns(character) && !character.is_control() || (has_lines && character == '\n')
}

/// Whether the character turns the direction of writing: the controls of Unicode's bidirectional
/// algorithm do.
fn turns(character: char) -> bool
    ensures { result ≡ turns character }
{
    matches!(
        character,
        '\u{61c}' | '\u{200e}' | '\u{200f}' | '\u{202a}'..='\u{202e}' | '\u{2066}'..='\u{2069}'
    )
}
