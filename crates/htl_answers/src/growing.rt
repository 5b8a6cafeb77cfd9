//! Growth: how many handles were open as of each of several moments.

ghost use Rattle.std.specs.Prelude.{◌≡◌, ◌↔◌, ◌<◌, ℕ, Contains, flat_map, map, IfOk};
ghost use Rattle.std.specs.List.{range_with_len};
ghost use Rattle.htl_event.specs.Growth.{moment_at, IsMomentOf, IsGrowth};
ghost use Rattle.htl_event.specs.Handles.{HaveOwnSequences};
ghost use Rattle.htl_event.specs.Members.{IsRising};
ghost use Rattle.htl_answers.specs.Lives.{AreInOrder};
ghost use Rattle.htl_answers.specs.Points.{point_at};

use crate::lives::{Lives, lives_of, number_at};
use crate::ordering::put_in_order;
use htl_event::{EventList, NoMemory, Point, Span};
use std::alloc::Global;

/// How many handles of the process were outstanding as of each of this many moments of the span, at
/// even distances from its first to its last, the earliest first. Moments that fall together are
/// one point, and where there is no span there is none.
pub fn growth<E: EventList>(
    alloc: Global,
    lists: &[E],
    process: u32,
    span: Option<Span>,
    points: u32,
) -> Result<Vec<Point>, NoMemory>
    ensures { IfOk result (λ rows. HaveOwnSequences (flat_map E.events_of lists.now)
        → IsGrowth span points (flat_map E.events_of lists.now) process rows.items) }
{
    match span {
        None => Ok(Vec::new(alloc)),
        Some(span) => growth_over(alloc, lists, process, span, points),
    }
}

/// As `growth`, where there is a span.
fn growth_over<E: EventList>(
    alloc: Global,
    lists: &[E],
    process: u32,
    span: Span,
    points: u32,
) -> Result<Vec<Point>, NoMemory>
    ensures { IfOk result (λ rows. HaveOwnSequences (flat_map E.events_of lists.now)
        → IsGrowth (Some span) points (flat_map E.events_of lists.now) process rows.items) }
{
    let moments = moments_of(alloc, span, points)?;
    let lives = lives_of(alloc, lists, process)?;
    points_of(alloc, &lives, &moments)
}

/// The points of these moments.
fn points_of(alloc: Global, lives: &Lives, moments: &[u64]) -> Result<Vec<Point>, NoMemory>
    requires { AreInOrder lives.now.starts.items lives.now.ends.items }
    ensures { IfOk result (λ rows. rows.items
        ≡ map (point_at lives.now.starts.items lives.now.ends.items) moments.now) }
{
    let mut rows = Vec::with_capacity(alloc, moments.len())?;
    for moment in moments {
        rows.push(Point {
            sequence: *moment,
            outstanding: number_at(lives, *moment),
        })?;
    }
    Ok(rows)
}

/// The moments of the span in order, each once.
fn moments_of(alloc: Global, span: Span, points: u32) -> Result<Vec<u64>, NoMemory>
    ensures rising { IfOk result (λ moments. IsRising (λ a b. a < b) moments.items) }
    ensures members { IfOk result (λ moments. (moment : ℕ)
        → Contains moments.items moment ↔ IsMomentOf span points moment) }
{
    let mut moments = all_moments(alloc, span, points)?;
    put_in_order(&mut moments);
    Ok(moments)
}

/// The moments of the span one by one, of which several may be equal.
fn all_moments(alloc: Global, span: Span, points: u32) -> Result<Vec<u64>, NoMemory>
    ensures { IfOk result (λ moments.
        moments.items ≡ map (moment_at span points) (range_with_len 0 points)) }
{
    let mut moments = Vec::with_capacity(alloc, points as usize)?;
    for i in 0..points {
        moments.push(moment_at(span, points, i))?;
    }
    Ok(moments)
}

/// The `i`-th of this many moments. The product of a place and a distance needs more than 64 bits.
fn moment_at(span: Span, points: u32, i: u32) -> u64
    requires { i < points }
    ensures { result ≡ moment_at span points i }
{
    let distance = span.last.saturating_sub(span.first);
    let steps = points.saturating_sub(1).max(1);
    let moved = u128::from(i) * u128::from(distance) / u128::from(steps);
    span.first + moved as u64
}
