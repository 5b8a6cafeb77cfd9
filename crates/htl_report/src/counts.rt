//! Rows of counts: stacks of handles or of references, tags with their balances, and points of a
//! growth.

ghost use Rattle.std.specs.Prelude.{◌≡◌, ◌++◌, None, OnOk, Some, string_bytes};
ghost use Rattle.htl_report.specs.Rows.{balance, balance_part, balance_row, leak_line, point_line};
ghost use Rattle.htl_report.specs.Rows.{objects_part, site_line, stack_line, stack_part, tag_row};
ghost use Rattle.htl_report.specs.Rows.{tag_stack_line};

use crate::parts::{write_counts, write_tag};
use crate::rows::Form;
use htl_event::{Balance, Count, Point, SharedStack, Site};
use std::alloc::AllocError;

/// Stacks, each with how many handles it opened.
pub(crate) struct Leaks;

impl Form for Leaks {
    type Row = (SharedStack, u64);

    ghost line_of = { λ row. leak_line row.1 };

    ghost stack_of = { λ row. Some row.0 };

    #[tactic(auto, unfolding(crate::specs::Rows::leak_line))]
    fn write_line(out: &mut String, row: &(SharedStack, u64)) -> Result<(), AllocError> {
        let handles = row.1;
        writeln!(out, "LEAK handles={handles}")
    }

    fn stack(row: &(SharedStack, u64)) -> Option<&SharedStack> {
        Some(&row.0)
    }
}

/// Stacks, each with how many handles it opened, and of how many processes they are.
pub(crate) struct Sites;

impl Form for Sites {
    type Row = Site<SharedStack>;

    ghost line_of = { λ site. site_line site.handles site.processes };

    ghost stack_of = { λ site. Some site.stack };

    #[tactic(auto, unfolding(crate::specs::Rows::site_line))]
    fn write_line(out: &mut String, site: &Site<SharedStack>) -> Result<(), AllocError> {
        let handles = site.handles;
        let processes = site.processes;
        writeln!(out, "SITE handles={handles} processes={processes}")
    }

    fn stack(site: &Site<SharedStack>) -> Option<&SharedStack> {
        Some(&site.stack)
    }
}

/// Stacks, each with its references and dereferences of an object under a tag.
pub(crate) struct Stacks;

impl Form for Stacks {
    type Row = (SharedStack, Count);

    ghost line_of = { λ row. stack_line row.1 };

    ghost stack_of = { λ row. Some row.0 };

    fn write_line(out: &mut String, row: &(SharedStack, Count)) -> Result<(), AllocError> {
        write_stack_counts(out, row.1)?;
        out.push('\n')
    }

    fn stack(row: &(SharedStack, Count)) -> Option<&SharedStack> {
        Some(&row.0)
    }
}

/// Stacks, each with its references and dereferences under a tag, over all objects.
pub(crate) struct TagStacks;

impl Form for TagStacks {
    type Row = Balance<SharedStack>;

    ghost line_of = { λ row. tag_stack_line row.count row.objects };

    ghost stack_of = { λ row. Some row.by };

    fn write_line(out: &mut String, row: &Balance<SharedStack>) -> Result<(), AllocError> {
        write_stack_counts(out, row.count)?;
        write_objects(out, row.objects)?;
        out.push('\n')
    }

    fn stack(row: &Balance<SharedStack>) -> Option<&SharedStack> {
        Some(&row.by)
    }
}

/// Tags of an object, each with its balance.
pub(crate) struct Tags;

impl Form for Tags {
    type Row = ([u8; 4], Count);

    ghost line_of = { tag_row };

    ghost stack_of = { λ row. None };

    fn write_line(out: &mut String, row: &([u8; 4], Count)) -> Result<(), AllocError> {
        write_tag_balance(out, &row.0, row.1)?;
        out.push('\n')
    }

    fn stack(_row: &([u8; 4], Count)) -> Option<&SharedStack> {
        None
    }
}

/// Tags, each with its balance over all objects.
pub(crate) struct Balances;

impl Form for Balances {
    type Row = Balance<[u8; 4]>;

    ghost line_of = { balance_row };

    ghost stack_of = { λ row. None };

    fn write_line(out: &mut String, row: &Balance<[u8; 4]>) -> Result<(), AllocError> {
        write_tag_balance(out, &row.by, row.count)?;
        write_objects(out, row.objects)?;
        out.push('\n')
    }

    fn stack(_row: &Balance<[u8; 4]>) -> Option<&SharedStack> {
        None
    }
}

/// Points of a growth.
pub(crate) struct Points;

impl Form for Points {
    type Row = Point;

    ghost line_of = { point_line };

    ghost stack_of = { λ row. None };

    #[tactic(auto, unfolding(crate::specs::Rows::point_line))]
    fn write_line(out: &mut String, point: &Point) -> Result<(), AllocError> {
        let Point {
            sequence,
            outstanding,
        } = *point;
        writeln!(out, "AT seq={sequence} outstanding={outstanding}")
    }

    fn stack(_point: &Point) -> Option<&SharedStack> {
        None
    }
}

/// Writes a number of objects: of all in a first line, or of a tag or a stack in its line.
#[tactic(auto, unfolding(crate::specs::Rows::objects_part))]
pub(crate) fn write_objects(out: &mut String, objects: u64) -> Result<(), AllocError>
    ensures { OnOk result (string_bytes out.new
        ≡ string_bytes out.old ++ objects_part objects) }
{
    write!(out, " objects={objects}")
}

/// Writes the numbers of a stack, without the end of the line.
fn write_stack_counts(out: &mut String, count: Count) -> Result<(), AllocError>
    ensures { OnOk result (string_bytes out.new
        ≡ string_bytes out.old ++ stack_part count) }
{
    out.push_str("STACK ")?;
    write_counts(out, count)
}

/// Writes a tag and its balance, without the end of the line.
fn write_tag_balance(out: &mut String, tag: &[u8], count: Count) -> Result<(), AllocError>
    ensures { OnOk result (string_bytes out.new
        ≡ string_bytes out.old ++ balance_part tag.now count) }
{
    out.push_str("TAG ")?;
    write_tag(out, tag)?;
    out.push(' ')?;
    write_counts(out, count)?;
    out.push(' ')?;
    write_balance(out, count)
}

fn write_balance(out: &mut String, count: Count) -> Result<(), AllocError>
    ensures { OnOk result (string_bytes out.new
        ≡ string_bytes out.old ++ balance count) }
{
    if count.plus > count.minus {
        let over = count.plus - count.minus;
        write!(out, "over={over}")
    } else if count.minus > count.plus {
        let under = count.minus - count.plus;
        write!(out, "under={under}")
    } else {
        out.push_str("balanced")
    }
}
