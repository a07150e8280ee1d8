ghost use Rattle.std.specs.Prelude.{◌≡◌, ◌+◌, ◌≤◌, ◌<◌, ◌%◌, ◌++◌, ◌∷◌, [], ℕ, List, length, take, false};
ghost use Rattle.std.specs.Fmt.{decimal, digit_glyph};
ghost use Rattle.smarts_text.specs.Texts.{HasWritten, hex_digits};

use itoa::Buffer;
use std::marker::Model;

/// A text of at most 64 bytes, which takes no memory.
#[derive(Drop)]
pub struct Line {
    bytes: [u8; 64],
    len: usize,
}

impl Model for Line {
    ghost Value = { List ℕ };

    ghost view = { λ l. take l.len l.bytes };

    ghost invariant = { λ l. l.len ≤ 64 };
}

impl Line {
    pub fn new() -> Line
        ensures text { result ≡ [] }
        ensures len { length result ≡ 0 }
    {
        Line {
            bytes: [0; 64],
            len: 0,
        }
    }

    /// Adds a text at the end.
    pub fn push(&mut self, piece: &[u8])
        requires { length self.old + length piece.now ≤ 64 }
        ensures text { self.new ≡ self.old ++ piece.now }
        ensures len { length self.new ≡ length self.old + length piece.now }
    {
        let end = self.len + piece.len();
        self.bytes[self.len..end].copy_from_slice(piece);
        self.len = end;
    }

    /// Adds a number, as decimal digits.
    #[tactic(auto, using(crate::proofs::LineLemmas::decimal_short))]
    pub fn push_u64(&mut self, n: u64)
        requires { length self.old + 20 ≤ 64 }
        ensures text { self.new ≡ self.old ++ decimal n }
        ensures len { length self.new ≤ length self.old + 20 }
    {
        let mut buffer = Buffer::new();
        self.push(buffer.format(n).as_bytes());
    }

    #[tactic(auto, using(crate::proofs::LineLemmas::decimal_of_ten))]
    pub fn push_u32(&mut self, n: u32)
        requires { length self.old + 10 ≤ 64 }
        ensures text { self.new ≡ self.old ++ decimal n }
        ensures len { length self.new ≤ length self.old + 10 }
    {
        let mut buffer = Buffer::new();
        self.push(buffer.format(n).as_bytes());
    }

    /// Adds the number of a fault.
    #[tactic(auto, using(crate::proofs::LineLemmas::decimal_of_two))]
    pub fn push_fault(&mut self, n: u8)
        requires room { length self.old + 2 ≤ 64 }
        requires short { n < 100 }
        ensures text { self.new ≡ self.old ++ decimal n }
        ensures len { length self.new ≤ length self.old + 2 }
    {
        let mut buffer = Buffer::new();
        self.push(buffer.format(n).as_bytes());
    }

    // Adds the last hexadecimal digit.
    fn push_hex_digit(&mut self, n: u32)
        requires { length self.old < 64 }
        ensures text { self.new ≡ self.old ++ digit_glyph false (n % 16) ∷ [] }
        ensures len { length self.new ≡ length self.old + 1 }
    {
        let digit = (n % 16) as u8;
        let glyph = if digit < 10 {
            b'0' + digit
        } else {
            b'a' + (digit - 10)
        };
        self.push(&[glyph]);
    }

    /// Adds eight hexadecimal digits, in lower case.
    pub fn push_hex(&mut self, n: u32)
        requires { length self.old + 8 ≤ 64 }
        ensures text { self.new ≡ self.old ++ hex_digits 8 n }
        ensures len { length self.new ≡ length self.old + 8 }
    {
        self.push_hex_digit(n / 0x1000_0000);
        self.push_hex_digit(n / 0x100_0000);
        self.push_hex_digit(n / 0x10_0000);
        self.push_hex_digit(n / 0x1_0000);
        self.push_hex_digit(n / 0x1000);
        self.push_hex_digit(n / 0x100);
        self.push_hex_digit(n / 0x10);
        self.push_hex_digit(n);
    }

    /// Writes the text to the front of `out`, and answers its length.
    pub fn write(&self, out: &mut [u8; 64]) -> usize
        ensures { HasWritten self.now out.old out.new result }
    {
        out[..self.len].copy_from_slice(&self.bytes[..self.len]);
        self.len
    }
}
