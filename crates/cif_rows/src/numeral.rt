//! Numbers, written out once for many rows.
ghost use Rattle.std.specs.Prelude.{◌≡◌, decimal};

use itoa::Buffer;
use std::marker::Model;

/// The digits of the longest number.
const LONGEST: usize = 40;

/// A number in decimal digits. A clause sees the digits.
#[derive(Drop)]
pub struct Numeral {
    pub(crate) digits: [u8; LONGEST],
    pub(crate) count: usize,
}

impl Model for Numeral {
    ghost use Rattle.std.specs.Prelude.{◌≤◌, ℕ, List, take};

    ghost Value = { List ℕ };

    ghost view = { λ n. take n.count n.digits };

    ghost invariant = { λ n. n.count ≤ 40 };
}

impl Numeral {
    /// The digits of this number.
    pub fn of(number: usize) -> Numeral
        ensures { result ≡ decimal number }
    {
        let mut buffer = Buffer::new();
        let text = buffer.format(number).as_bytes();
        let mut digits = [b'0'; LONGEST];
        digits[..text.len()].copy_from_slice(text);
        Numeral {
            digits,
            count: text.len(),
        }
    }
}
