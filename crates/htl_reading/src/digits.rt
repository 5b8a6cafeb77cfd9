//! A text in hexadecimal, which is read as the bytes that it writes, no further than its first foreign
//! byte.

ghost use Rattle.std.specs.Prelude.{◌≡◌, ◌<◌, ◌*◌, ◌^◌, length, position};
ghost use Rattle.htl_device.specs.States.{IsOpen};
ghost use Rattle.htl_segment.specs.Hexadecimal.{is_foreign};
ghost use Rattle.htl_reading.specs.Digits.{ReadsDigits};

use crate::pairs::Pairs;
use htl_device::{MAX_READS, MIN_READ_LEN, Source};
use htl_event::NoMemory;
use htl_segment::is_digit;
use std::alloc::Global;

/// Why a text in hexadecimal gives no bytes.
#[derive(Clone, Copy, Debug, PartialEq, Eq)]
pub enum DigitsFault {
    /// The byte at this place is the first that is neither a digit nor a blank.
    Foreign(u64),
    /// The source has an odd number of digits.
    Odd,
    /// A read failed, or `MAX_READS` of them gave bytes.
    Read,
    /// An allocation was refused.
    NoMemory,
}

impl<R: Into<NoMemory>> From<R> for DigitsFault {
    ghost use Rattle.std.specs.Prelude.{◌≡◌};
    ghost use Rattle.htl_reading.specs.declared.digits.DigitsFault.TheVariants as faults;

    ghost from_gives = { λ _ fault. fault ≡ faults.NoMemory };

    fn from(refused: R) -> DigitsFault {
        let NoMemory = refused.into();
        DigitsFault::NoMemory
    }
}

/// The bytes that the digits of a source write. Each is made as soon as its second digit was read, and
/// nothing else is kept. No memory is asked for before a digit came, and nothing is read after the read
/// that gave a byte that is neither a digit nor a blank. An odd number of digits is found at the end.
pub fn read_digits<R: Source>(alloc: Global, source: &mut R) -> Result<Vec<u8>, DigitsFault>
    requires { IsOpen (R.state source.old) }
    ensures { ReadsDigits MAX_READS (R.state source.old).remaining (R.state source.old)
        (R.state source.new) result }
{
    let mut buffer = [0u8; MIN_READ_LEN];
    read_within(alloc, source, &mut buffer, MAX_READS)
}

/// The same by reads of the buffer's length, of which at most `most` may give bytes.
fn read_within<R: Source>(
    alloc: Global,
    source: &mut R,
    buffer: &mut [u8],
    most: u64,
) -> Result<Vec<u8>, DigitsFault>
    requires ready { IsOpen (R.state source.old) }
    requires whole { length buffer.old ≡ MIN_READ_LEN }
    requires few { most * MIN_READ_LEN < 2 ^ 64 }
    ensures { ReadsDigits most (R.state source.old).remaining (R.state source.old)
        (R.state source.new) result }
{
    let mut pairs = Pairs::new(alloc);
    let mut start = 0;
    for _read in 0..most {
        let Ok(count) = source.read(buffer) else {
            return Err(DigitsFault::Read);
        };
        if count == 0 {
            return pairs.finish().ok_or(DigitsFault::Odd);
        }
        let piece = &buffer[..count];
        match first_foreign(piece) {
            Some(place) => return Err(DigitsFault::Foreign(start + place as u64)),
            None => {}
        }
        pairs.add(piece)?;
        start += count as u64;
    }
    Err(DigitsFault::Read)
}

/// The place of the first byte that is neither a digit nor a blank.
fn first_foreign(piece: &[u8]) -> Option<usize>
    ensures { result ≡ position is_foreign piece.now }
{
    piece.iter().position(|byte| !(is_digit(*byte)
        || *byte == b' '
        || *byte == b'\r'
        || *byte == b'\n'))
}
