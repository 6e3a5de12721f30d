// A module that was opened in its buffer.
ghost use Rattle.std.specs.Prelude.{◌≡◌, ◌+◌, ◌≤◌, take, drop, vec_len};

use std::marker::Model;

/// A module that was opened in its buffer. A contract sees its plaintext.
#[derive(Drop)]
pub struct Opened {
    buffer: Vec<u8>,
    length: usize,
}

impl Model for Opened {
    ghost use Rattle.std.specs.Prelude.{List, ℕ, ◌+◌, ◌≤◌, take, drop, vec_len};

    ghost Value = { List ℕ };

    ghost view = { λ o. take o.length (drop 16 o.buffer.items) };

    ghost invariant = { λ o. 16 + o.length ≤ vec_len o.buffer };
}

impl Opened {
    /// The module whose plaintext is the `length` bytes after the first sixteen of the buffer.
    pub fn new(buffer: Vec<u8>, length: usize) -> Opened
        requires { 16 + length ≤ vec_len buffer }
        ensures { result ≡ take length (drop 16 buffer.items) }
    {
        Opened { buffer, length }
    }

    /// The plaintext.
    pub fn plaintext(&self) -> &[u8]
        ensures { result.now ≡ self.now }
    {
        &self.buffer[16..16 + self.length]
    }
}
