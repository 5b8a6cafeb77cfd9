//! Fingerprints of stacks: equal stacks have one, and different stacks seldom have the same.

use crate::fields::u64_at;

/// The fingerprint of a stack with these addresses, eight bytes each.
pub fn fingerprint_of(frames: &[u8]) -> u64 {
    let mut mixed = frames.len() as u64;
    for place in 0..frames.len() / 8 {
        mixed = (mixed ^ u64_at(frames, 8 * place)).wrapping_mul(0x9e37_79b9_7f4a_7c15);
    }
    mixed ^ (mixed >> 32)
}
