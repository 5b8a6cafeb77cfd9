//! Numbers as they stand in a text: the arguments of a command line, the fields of a symbol table
//! and those of the text form of segments.
//!
//! `specs/Numbers` defines the texts that are numbers, and the number of each. They have digits and
//! nothing else: no sign, no blank and no separator. `specs/Written` defines how this crate and those
//! above write numbers in hexadecimal digits. A text is its bytes.
#![tactic(auto)]

ghost use Rattle.std.specs.Prelude.{◌≡◌, ◌≤◌, ◌⊎◌, ◌++◌, IfSome, OnOk, string_bytes};
ghost use Rattle.std.specs.Char.{digit_value};
ghost use Rattle.htl_numbers.specs.Numbers.{decimal_number, hexadecimal_number};
ghost use Rattle.htl_numbers.specs.Numbers.{number_of, without_0x};
ghost use Rattle.htl_numbers.specs.Written.{padded};

use std::alloc::AllocError;
use std::str;

/// The most digits of a hexadecimal number.
const MAX_HEX_DIGITS: usize = 16;

/// The number of a text of decimal digits, of any length, if it is at most `most`. There is none for
/// any other text: one that is empty, or has a sign, a blank, another character or a greater number.
pub fn decimal(text: &[u8], most: u64) -> Option<u64>
    ensures value { result ≡ decimal_number most text.now }
    ensures bound { IfSome result (λ n. n ≤ most) }
{
    number(text, 10, most)
}

/// The number of a text of 1 to 16 hexadecimal digits of either case, with or without `0x` before
/// them, if it is at most `most`. There is none for any other text: `0x` alone, or one that has `0X`, a
/// seventeenth digit, a sign, a blank or a greater number.
#[tactic(auto, unfolding(crate::specs::Numbers::hexadecimal_number))]
pub fn hexadecimal(text: &[u8], most: u64) -> Option<u64>
    ensures value { result ≡ hexadecimal_number most text.now }
    ensures bound { IfSome result (λ n. n ≤ most) }
{
    let digits = without_prefix(text);
    if digits.len() <= MAX_HEX_DIGITS {
        number(digits, 16, most)
    } else {
        None
    }
}

#[tactic(auto, unfolding(crate::specs::Numbers::without_0x))]
fn without_prefix(text: &[u8]) -> &[u8]
    ensures { result.now ≡ without_0x text.entry.now }
{
    text.strip_prefix(b"0x").unwrap_or(text)
}

/// The number of one or more digits of the radix, if it is at most `most`.
fn number(text: &[u8], radix: u64, most: u64) -> Option<u64>
    requires { (radix ≡ 10) ⊎ (radix ≡ 16) }
    ensures value { result ≡ number_of radix most text.now }
    ensures bound { IfSome result (λ n. n ≤ most) }
{
    if text.is_empty() {
        return None;
    }
    let mut number: u64 = 0;
    for byte in text {
        let digit = digit_value(*byte);
        if digit >= radix {
            return None;
        }
        number = number.checked_mul(radix)?.checked_add(digit)?;
    }
    if number <= most { Some(number) } else { None }
}

/// The value of each byte as a digit or a letter, and 36 for any other byte. A table, since digits and
/// letters come in no order that a processor could foresee.
const VALUES: [u8; 256] = [
    36, 36, 36, 36, 36, 36, 36, 36, 36, 36, 36, 36, 36, 36, 36, 36, 36, 36, 36, 36, 36, 36, 36, 36,
    36, 36, 36, 36, 36, 36, 36, 36, 36, 36, 36, 36, 36, 36, 36, 36, 36, 36, 36, 36, 36, 36, 36, 36,
    0, 1, 2, 3, 4, 5, 6, 7, 8, 9, 36, 36, 36, 36, 36, 36, 36, 10, 11, 12, 13, 14, 15, 16, 17, 18,
    19, 20, 21, 22, 23, 24, 25, 26, 27, 28, 29, 30, 31, 32, 33, 34, 35, 36, 36, 36, 36, 36, 36, 10,
    11, 12, 13, 14, 15, 16, 17, 18, 19, 20, 21, 22, 23, 24, 25, 26, 27, 28, 29, 30, 31, 32, 33, 34,
    35, 36, 36, 36, 36, 36, 36, 36, 36, 36, 36, 36, 36, 36, 36, 36, 36, 36, 36, 36, 36, 36, 36, 36,
    36, 36, 36, 36, 36, 36, 36, 36, 36, 36, 36, 36, 36, 36, 36, 36, 36, 36, 36, 36, 36, 36, 36, 36,
    36, 36, 36, 36, 36, 36, 36, 36, 36, 36, 36, 36, 36, 36, 36, 36, 36, 36, 36, 36, 36, 36, 36, 36,
    36, 36, 36, 36, 36, 36, 36, 36, 36, 36, 36, 36, 36, 36, 36, 36, 36, 36, 36, 36, 36, 36, 36, 36,
    36, 36, 36, 36, 36, 36, 36, 36, 36, 36, 36, 36, 36, 36, 36, 36, 36, 36, 36, 36, 36, 36, 36, 36,
    36, 36, 36, 36, 36, 36, 36, 36, 36, 36, 36, 36, 36, 36,
];

/// The value of the byte as a digit or a letter of either case: that of a hexadecimal digit is below
/// 16, and that of a byte that is neither is 36.
pub fn digit_value(byte: u8) -> u64
    ensures { result ≡ digit_value byte }
{
    u64::from(VALUES[byte as usize])
}

/// The two hexadecimal digits of each byte.
const PAIRS: [u8; 512] = *b"\
    000102030405060708090a0b0c0d0e0f\
    101112131415161718191a1b1c1d1e1f\
    202122232425262728292a2b2c2d2e2f\
    303132333435363738393a3b3c3d3e3f\
    404142434445464748494a4b4c4d4e4f\
    505152535455565758595a5b5c5d5e5f\
    606162636465666768696a6b6c6d6e6f\
    707172737475767778797a7b7c7d7e7f\
    808182838485868788898a8b8c8d8e8f\
    909192939495969798999a9b9c9d9e9f\
    a0a1a2a3a4a5a6a7a8a9aaabacadaeaf\
    b0b1b2b3b4b5b6b7b8b9babbbcbdbebf\
    c0c1c2c3c4c5c6c7c8c9cacbcccdcecf\
    d0d1d2d3d4d5d6d7d8d9dadbdcdddedf\
    e0e1e2e3e4e5e6e7e8e9eaebecedeeef\
    f0f1f2f3f4f5f6f7f8f9fafbfcfdfeff";

/// Writes a number in 16 hexadecimal digits, in lower case and with zeros first.
pub fn write_hex_digits(out: &mut String, number: u64) -> Result<(), AllocError>
    ensures { OnOk result (string_bytes out.new ≡ string_bytes out.old ++ padded 16 number) }
{
    match str::from_utf8(&hex_digits(number)) {
        Ok(digits) => out.push_str(digits),
        Err(_) => unreachable!(),
    }
}

/// The 16 hexadecimal digits of a number, in lower case and with zeros first.
pub fn hex_digits(number: u64) -> [u8; 16]
    ensures { result ≡ padded 16 number }
{
    let mut digits = [0; 16];
    let mut rest = number;
    for place in 0..8 {
        let pair = 2 * (rest % 256) as usize;
        digits[14 - 2 * place] = PAIRS[pair];
        digits[15 - 2 * place] = PAIRS[pair + 1];
        rest /= 256;
    }
    digits
}

#[cfg(test)]
mod tests {
    use super::*;

    #[test]
    fn decimal_numbers(rt: HostRuntime) {
        let rows = [
            ("0", 0, Some(0)),
            ("4294967295", 0xffff_ffff, Some(0xffff_ffff)),
            ("4294967296", 0xffff_ffff, None),
            ("0000000000000000000000017", 17, Some(17)),
            ("18446744073709551615", u64::MAX, Some(u64::MAX)),
            ("18446744073709551616", u64::MAX, None),
            ("", u64::MAX, None),
            ("+1", u64::MAX, None),
            ("-1", u64::MAX, None),
            (" 1", u64::MAX, None),
            ("1_0", u64::MAX, None),
            ("f", u64::MAX, None),
            ("0x1", u64::MAX, None),
        ];
        for (text, most, number) in rows {
            assert_eq!(rt; decimal(text.as_bytes(), most), number, "of {text}");
        }
    }

    #[test]
    fn hexadecimal_numbers(rt: HostRuntime) {
        let rows = [
            ("0", Some(0)),
            ("0x44", Some(0x44)),
            ("ffffA00000001000", Some(0xffff_a000_0000_1000)),
            ("0xffffffffffffffff", Some(u64::MAX)),
            ("00000000000000001", None),
            ("0x", None),
            ("", None),
            ("0xg", None),
            ("0X1", None),
            ("0x0x1", None),
            ("0x+1", None),
        ];
        for (text, number) in rows {
            assert_eq!(rt; hexadecimal(text.as_bytes(), u64::MAX), number, "of {text}");
        }
        assert_eq!(rt; hexadecimal(b"0xffffffff", 0xffff_ffff), Some(0xffff_ffff));
        assert_eq!(rt; hexadecimal(b"100000000", 0xffff_ffff), None);
    }

    #[test]
    fn written_numbers(rt: HostRuntime) {
        let rows = [
            (0, "0000000000000000"),
            (0x0123_4567_89ab_cdef, "0123456789abcdef"),
            (u64::MAX, "ffffffffffffffff"),
        ];
        for (number, digits) in rows {
            let mut out = String::new(rt.alloc());
            write_hex_digits(&mut out, number).expect(&rt, "the memory");
            assert_eq!(rt; out.as_str(), digits);
        }
    }
}
