//! The checksum of bytes.
ghost use Rattle.std.specs.Prelude.{◌≡◌};
ghost use Rattle.htl_state.specs.Checksum.{with_byte, checksum};

/// An odd number, so that no two values of one byte give one sum: from the golden ratio.
const BASE: u64 = 0x9e37_79b9_7f4a_7c15;

/// The bytes as digits of a number in this base, modulo 2^64. Bytes of one length that differ in
/// one byte have different sums.
pub fn checksum(bytes: &[u8]) -> u64
    ensures { result ≡ checksum bytes.now }
{
    let mut sum = 0;
    for byte in bytes {
        sum = with_byte(sum, *byte);
    }
    sum
}

#[tactic(auto, unfolding(crate::specs::Checksum::with_byte))]
fn with_byte(sum: u64, byte: u8) -> u64
    ensures { result ≡ with_byte sum byte }
{
    sum.wrapping_mul(BASE).wrapping_add(u64::from(byte))
}
