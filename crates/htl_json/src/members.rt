//! What is written into the object of a line: members, each a name and a value.

ghost use Rattle.std.specs.Prelude.{OnOk, flat_map};
ghost use Rattle.htl_json.specs.Writing.{AddsFields, member_fields};

use crate::lines::Lines;
use std::alloc::AllocError;

/// A name, and the value under it.
#[derive(Clone, Copy)]
pub(crate) enum Member<'a> {
    Text(&'a str, &'a str),
    Number(&'a str, u64),
    /// A number, or nothing where there is none.
    Optional(&'a str, Option<u64>),
    Handle(&'a str, u32),
    /// An address or an object.
    Address(&'a str, u64),
    /// A tag as it is shown, and its bytes.
    Tag([u8; 4]),
    /// References and dereferences.
    Counts(u64, u64),
}

pub(crate) fn write_members(lines: &mut Lines, members: &[Member<'_>]) -> Result<(), AllocError>
    ensures { OnOk result
        (AddsFields lines.old lines.new (flat_map member_fields members.now)) }
{
    for member in members {
        write_member(lines, *member)?;
    }
    Ok(())
}

fn write_member(lines: &mut Lines, member: Member<'_>) -> Result<(), AllocError>
    ensures { OnOk result (AddsFields lines.old lines.new (member_fields member.entry)) }
{
    match member {
        Member::Text(name, text) => lines.text(name, text),
        Member::Number(name, number) => lines.number(name, number),
        Member::Optional(name, number) => lines.optional(name, number),
        Member::Handle(name, handle) => lines.handle(name, handle),
        Member::Address(name, address) => lines.address(name, address),
        Member::Tag(tag) => lines.tag(tag),
        Member::Counts(references, dereferences) => lines.counts(references, dereferences),
    }
}
