//! Rows of counts: stacks of handles or of references, tags with their balances, and points of a
//! growth.

ghost use Rattle.htl_json.specs.Rows.{balance_row, counted_stack, leak, point_row, site_row};
ghost use Rattle.htl_json.specs.Rows.{tag_balance, tag_stack};

use crate::lines::Lines;
use crate::members::Member;
use crate::rows::{Form, write_line, write_stack_line};
use htl_event::{Balance, Count, Point, SharedStack, Site};
use htl_symbols::Symbols;
use std::alloc::AllocError;

/// Stacks, each with how many handles it opened.
pub(crate) struct Leaks;

impl Form for Leaks {
    type Row = (SharedStack, u64);

    ghost value_of = { leak };

    #[tactic(auto, unfolding(crate::specs::Rows::handles_field))]
    fn write(
        lines: &mut Lines,
        symbols: &Symbols,
        row: &(SharedStack, u64),
    ) -> Result<(), AllocError> {
        write_stack_line(lines, symbols, &[Member::Number("handles", row.1)], &row.0)
    }
}

/// Stacks, each with how many handles it opened, and of how many processes they are.
pub(crate) struct Sites;

impl Form for Sites {
    type Row = Site<SharedStack>;

    ghost value_of = { site_row };

    #[tactic(auto, unfolding(crate::specs::Rows::site_fields))]
    fn write(
        lines: &mut Lines,
        symbols: &Symbols,
        site: &Site<SharedStack>,
    ) -> Result<(), AllocError> {
        let members = [
            Member::Number("handles", site.handles),
            Member::Number("processes", site.processes),
        ];
        write_stack_line(lines, symbols, &members, &site.stack)
    }
}

/// Stacks, each with its references and dereferences of an object under a tag.
pub(crate) struct Stacks;

impl Form for Stacks {
    type Row = (SharedStack, Count);

    ghost value_of = { counted_stack };

    #[tactic(auto, unfolding(crate::specs::Records::count_fields))]
    fn write(
        lines: &mut Lines,
        symbols: &Symbols,
        row: &(SharedStack, Count),
    ) -> Result<(), AllocError> {
        let members = [Member::Counts(row.1.plus, row.1.minus)];
        write_stack_line(lines, symbols, &members, &row.0)
    }
}

/// Stacks, each with its references and dereferences under a tag, over all objects.
pub(crate) struct TagStacks;

impl Form for TagStacks {
    type Row = Balance<SharedStack>;

    ghost value_of = { tag_stack };

    #[tactic(auto, unfolding(crate::specs::Records::count_fields, crate::specs::Rows::objects_field))]
    fn write(
        lines: &mut Lines,
        symbols: &Symbols,
        row: &Balance<SharedStack>,
    ) -> Result<(), AllocError> {
        let members = [
            Member::Counts(row.count.plus, row.count.minus),
            Member::Number("objects", row.objects),
        ];
        write_stack_line(lines, symbols, &members, &row.by)
    }
}

/// Tags of an object, each with its balance.
pub(crate) struct Tags;

impl Form for Tags {
    type Row = ([u8; 4], Count);

    ghost value_of = { λ symbols. tag_balance };

    #[tactic(auto, unfolding(crate::specs::Rows::balance_fields))]
    fn write(
        lines: &mut Lines,
        _symbols: &Symbols,
        row: &([u8; 4], Count),
    ) -> Result<(), AllocError> {
        write_line(
            lines,
            &[
                Member::Tag(row.0),
                Member::Counts(row.1.plus, row.1.minus),
                Member::Number("over", row.1.plus.saturating_sub(row.1.minus)),
                Member::Number("under", row.1.minus.saturating_sub(row.1.plus)),
            ],
        )
    }
}

/// Tags, each with its balance over all objects.
pub(crate) struct Balances;

impl Form for Balances {
    type Row = Balance<[u8; 4]>;

    ghost value_of = { λ symbols. balance_row };

    #[tactic(auto, unfolding(crate::specs::Rows::balance_fields, crate::specs::Rows::objects_field))]
    fn write(
        lines: &mut Lines,
        _symbols: &Symbols,
        row: &Balance<[u8; 4]>,
    ) -> Result<(), AllocError> {
        write_line(
            lines,
            &[
                Member::Tag(row.by),
                Member::Counts(row.count.plus, row.count.minus),
                Member::Number("over", row.count.plus.saturating_sub(row.count.minus)),
                Member::Number("under", row.count.minus.saturating_sub(row.count.plus)),
                Member::Number("objects", row.objects),
            ],
        )
    }
}

/// Points of a growth.
pub(crate) struct Points;

impl Form for Points {
    type Row = Point;

    ghost value_of = { λ symbols. point_row };

    #[tactic(auto, unfolding(crate::specs::Rows::point_fields))]
    fn write(lines: &mut Lines, _symbols: &Symbols, point: &Point) -> Result<(), AllocError> {
        write_line(
            lines,
            &[
                Member::Number("sequence", point.sequence),
                Member::Number("outstanding", point.outstanding),
            ],
        )
    }
}
