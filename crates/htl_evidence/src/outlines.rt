//! What the outlines of a case's segments say of each processor: which numbers are missing, and
//! which sequence is the last before them.

ghost use Rattle.std.specs.Prelude.{◌≡◌, ◌<◌, ◌≤◌, ◌++◌, take, All, OnOk};
ghost use Rattle.std.specs.List.Sorted.{IsNonDecreasingBy};
ghost use Rattle.htl_taken.specs.GapLists.{gaps_from, gaps_of};
ghost use Rattle.htl_taken.specs.Rising.{reach_from};
ghost use Rattle.htl_evidence.specs.Outlines.{greatest_from, numbers_of};

use htl_event::NoMemory;
use htl_segment::Outline;
use htl_taken::Gap;

/// Adds the gaps of a processor with these outlines.
pub(crate) fn add_gaps(gaps: &mut Vec<Gap>, processor: u16, own: &[Outline]) -> Result<(), NoMemory>
    ensures { OnOk result (gaps.new.items
        ≡ gaps.old.items ++ gaps_of processor 0 (numbers_of own.now)) }
{
    if own.is_empty() {
        gaps.push(Gap::Absent { processor })?;
        return Ok(());
    }
    add_runs(gaps, processor, own)
}

/// Adds the runs of missing numbers before each of these outlines.
fn add_runs(gaps: &mut Vec<Gap>, processor: u16, outlines: &[Outline]) -> Result<(), NoMemory>
    ensures { OnOk result (gaps.new.items
        ≡ gaps.old.items ++ gaps_from processor 0 (numbers_of outlines.now)) }
{
    let mut next = 0;
    for outline in outlines {
        let number = outline.number;
        if next < u64::from(number) {
            gaps.push(Gap::Between {
                processor,
                from: next as u32,
                to: number - 1,
            })?;
        }
        next = u64::from(number) + 1;
    }
    Ok(())
}

/// Splits ordered outlines, none of an earlier processor, into those of this processor and those of
/// later ones.
pub(crate) fn split_at_processor(outlines: &[Outline], processor: u16) -> (&[Outline], &[Outline])
    ensures parts { result.0.now ++ result.1.now ≡ outlines.now }
    ensures own { IsNonDecreasingBy (λ o. o.processor) outlines.now
        → All (λ o. processor ≤ o.processor) outlines.now
        → All (λ o. o.processor ≡ processor) result.0.now }
    ensures after { IsNonDecreasingBy (λ o. o.processor) outlines.now
        → All (λ o. processor < o.processor) result.1.now }
{
    outlines.split_at(outlines.partition_point(|outline| outline.processor <= processor))
}

/// The processor's outlines before its first missing number.
pub(crate) fn unbroken(own: &[Outline]) -> &[Outline]
    ensures { result.now ≡ take (reach_from 0 (numbers_of own.now)) own.now }
{
    for (place, outline) in own.iter().enumerate() {
        if outline.number as usize != place {
            return &own[..place];
        }
    }
    own
}

/// The greatest last sequence of these outlines, 0 where there are none.
pub(crate) fn greatest_last(outlines: &[Outline]) -> u64
    ensures { result ≡ greatest_from 0 outlines.now }
{
    let mut greatest = 0;
    for outline in outlines {
        greatest = outline.last.max(greatest);
    }
    greatest
}
