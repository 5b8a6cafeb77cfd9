//! Parts of lines that several kinds of answers print.

ghost use Rattle.std.specs.Prelude.{◌≡◌, ◌++◌, ◌<◌, OnOk, string_bytes};
ghost use Rattle.htl_report.specs.Parts.{count_part, counts, object_part};
ghost use Rattle.htl_report.specs.Parts.{shown_byte, shown_tag, until_part};

use htl_event::Count;
use htl_numbers::write_hex_digits;
use std::alloc::AllocError;

/// Writes an object.
#[tactic(auto, unfolding(crate::specs::Parts::object_part))]
pub(crate) fn write_object(out: &mut String, object: u64) -> Result<(), AllocError>
    ensures { OnOk result (string_bytes out.new
        ≡ string_bytes out.old ++ object_part object) }
{
    out.push_str(" object=0x")?;
    write_hex_digits(out, object)
}

/// Writes the moment up to which events count, where one is given.
#[tactic(auto, unfolding(crate::specs::Parts::until_part))]
pub(crate) fn write_until(out: &mut String, until: Option<u64>) -> Result<(), AllocError>
    ensures { OnOk result (string_bytes out.new
        ≡ string_bytes out.old ++ until_part until) }
{
    match until {
        Some(moment) => write!(out, " until={moment}"),
        None => Ok(()),
    }
}

/// Writes the end of a first line: the moment, and the number of rows.
#[tactic(auto, unfolding(crate::specs::Parts::count_part))]
pub(crate) fn write_count(
    out: &mut String,
    until: Option<u64>,
    count: usize,
) -> Result<(), AllocError>
    ensures { OnOk result (string_bytes out.new
        ≡ string_bytes out.old ++ count_part until count) }
{
    write_until(out, until)?;
    writeln!(out, " count={count}")
}

/// Writes the numbers of references and dereferences.
#[tactic(auto, unfolding(crate::specs::Parts::counts))]
pub(crate) fn write_counts(out: &mut String, count: Count) -> Result<(), AllocError>
    ensures { OnOk result (string_bytes out.new
        ≡ string_bytes out.old ++ counts count) }
{
    let plus = count.plus;
    let minus = count.minus;
    write!(out, "refs={plus} derefs={minus}")
}

/// Writes a tag in display order.
pub fn write_tag(out: &mut String, tag: &[u8]) -> Result<(), AllocError>
    ensures { OnOk result (string_bytes out.new
        ≡ string_bytes out.old ++ shown_tag tag.now) }
{
    for byte in tag {
        out.push(shown_byte(*byte))?;
    }
    Ok(())
}

/// The character by which a byte of a tag is shown: printable ASCII is itself, and every other byte
/// a dot.
pub fn shown_byte(byte: u8) -> char
    ensures value { result ≡ shown_byte byte }
    ensures ascii { result < 128 }
{
    if (0x20..=0x7e).contains(&byte) {
        char::from(byte)
    } else {
        '.'
    }
}
