//! Bytes in place.

ghost use Rattle.std.specs.Prelude.{◌≡◌, ◌≤◌, ◌++◌, ◌∷◌, [], take, length, decimal};
ghost use Rattle.permit_answer.specs.Buffer.{room};

use std::marker::Model;

/// So many bytes have room: a head has at most 256 and a body that is made here 128.
const ROOM: usize = 512;

/// Bytes in place, at most 512; what does not fit is left out.
#[derive(Drop)]
pub struct Buffer {
    bytes: [u8; 512],
    len: usize,
}

impl Model for Buffer {
    ghost use Rattle.std.specs.Prelude.{ℕ, List, take, ◌≤◌};

    ghost Value = { List ℕ };

    ghost view = { λ a. take a.len a.bytes };

    ghost invariant = { λ a. a.len ≤ 512 };
}

impl Buffer {
    /// A buffer without bytes. It takes no memory.
    pub fn new() -> Buffer
        ensures { result ≡ [] }
    {
        Buffer {
            bytes: [0; 512],
            len: 0,
        }
    }

    /// How many bytes it holds.
    pub fn len(&self) -> usize
        ensures count { result ≡ length self.now }
        ensures fits { result ≤ 512 }
    {
        self.len
    }

    fn push(&mut self, byte: u8)
        ensures { self.new ≡ take room (self.old ++ byte ∷ []) }
    {
        if self.len < ROOM {
            self.bytes[self.len] = byte;
            self.len += 1;
        }
    }

    /// Appends the bytes, or as many of them as fit.
    pub fn push_bytes(&mut self, bytes: &[u8])
        ensures { self.new ≡ take room (self.old ++ bytes.now) }
    {
        let _len = self.len();
        for byte in bytes {
            self.push(*byte);
        }
    }

    /// Appends the digits of a number, or as many of them as fit.
    pub fn push_decimal(&mut self, n: u64)
        ensures { self.new ≡ take room (self.old ++ decimal n) }
    {
        if 10 <= n {
            self.push_decimal(n / 10);
        }
        self.push(48 + (n % 10) as u8);
    }

    /// The bytes that it holds.
    pub fn as_slice(&self) -> &[u8]
        ensures { result.now ≡ self.now }
    {
        &self.bytes[..self.len]
    }
}
