//! Bytes that are made of pairs of digits, which come one after another.

ghost use Rattle.std.specs.Prelude.{◌≡◌};
ghost use Rattle.hex.specs.Hex.{hex_digit_value};

use htl_event::NoMemory;
use htl_numbers::digit_value;
use std::alloc::Global;
use std::marker::Model;

/// Bytes of pairs of digits, and a first digit whose second one has yet to come.
#[derive(Drop)]
pub struct Pairs {
    bytes: Vec<u8>,
    /// The value of that digit.
    high: Option<u8>,
}

impl Model for Pairs {
    ghost use Rattle.std.specs.Prelude.{◌<◌, IfSome};
    ghost use Rattle.htl_reading.specs.Pairs.{PairsState};

    ghost Value = { PairsState };

    ghost view = { λ p. record { bytes = p.bytes.items; high = p.high } };

    ghost invariant = { λ p. IfSome p.high (λ value. value < 16) };
}

impl Pairs {
    ghost use Rattle.std.specs.Prelude.{◌≡◌, ◌<◌, ◌++◌, ◌∷◌, ℕ, List, [], None, Some, IsSome};
    ghost use Rattle.std.specs.Prelude.{MatchOption, OnErr, OnOk, length, true};
    ghost use Rattle.hex.specs.Hex.{hex_digit_value, is_hex_digit};
    ghost use Rattle.htl_segment.specs.Hexadecimal.{digits_of};
    ghost use Rattle.htl_reading.specs.Pairs.{ArePairs};

    /// No bytes, before the first digit.
    pub fn new(alloc: Global) -> Pairs
        ensures { ArePairs [] result.bytes result.high }
    {
        Pairs {
            bytes: Vec::new(alloc),
            high: None,
        }
    }

    /// Adds the digits of a piece. Memory is asked for only where it has one.
    pub fn add(&mut self, piece: &[u8]) -> Result<(), NoMemory>
        ensures added { (text : List ℕ) → ArePairs text self.old.bytes self.old.high
            → OnOk result (ArePairs (text ++ piece.now) self.new.bytes self.new.high) }
        ensures full { OnErr result (0 < length (digits_of piece.now)) }
    {
        for byte in piece {
            self.add_byte(*byte)?;
        }
        Ok(())
    }

    /// Adds a digit, and passes over any other byte.
    fn add_byte(&mut self, byte: u8) -> Result<(), NoMemory>
        ensures added { (text : List ℕ) → ArePairs text self.old.bytes self.old.high
            → OnOk result (ArePairs (text ++ byte ∷ []) self.new.bytes self.new.high) }
        ensures full { OnErr result (is_hex_digit byte ≡ true) }
    {
        match value_of(byte) {
            Some(value) => self.add_value(value),
            None => Ok(()),
        }
    }

    /// Adds a digit of this value.
    fn add_value(&mut self, value: u8) -> Result<(), NoMemory>
        requires { value < 16 }
        ensures { (text : List ℕ) (digit : ℕ) → hex_digit_value digit ≡ Some value
            → ArePairs text self.old.bytes self.old.high
            → OnOk result (ArePairs (text ++ digit ∷ []) self.new.bytes self.new.high) }
    {
        let Some(high) = self.high else {
            self.high = Some(value);
            return Ok(());
        };
        self.bytes.push(16 * high + value)?;
        self.high = None;
        Ok(())
    }

    /// The bytes. There are none if a digit has no second one.
    pub fn finish(self) -> Option<Vec<u8>>
        ensures { MatchOption result (IsSome self.high)
            (λ bytes. (self.high ≡ None) × (bytes.items ≡ self.bytes)) }
    {
        match self.high {
            None => Some(self.bytes),
            Some(_) => None,
        }
    }
}

/// The value of a hexadecimal digit of either case. Another byte has none.
fn value_of(byte: u8) -> Option<u8>
    ensures { result ≡ hex_digit_value byte }
{
    let value = digit_value(byte);
    if value < 16 { Some(value as u8) } else { None }
}
