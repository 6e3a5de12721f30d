// The associated data of a module as an argument.
ghost use Rattle.std.specs.Prelude.{◌≡◌, ◌≤◌, length, nat_le};
ghost use Rattle.command_line.specs.Values.{filter_bytes};

use pme_base::Bytes;
use std::marker::Model;

/// Associated data that the user supplies, of at most 4,096 bytes. Contracts see it as the list of its bytes.
#[derive(Drop)]
pub struct AssociatedData {
    bytes: Bytes,
}

impl Model for AssociatedData {
    ghost use Rattle.std.specs.Prelude.{List, ℕ, ◌≤◌, length};

    ghost Value = { List ℕ };

    ghost view = { λ a. a.bytes };

    ghost invariant = { λ a. length a.bytes ≤ 4096 };
}

impl AssociatedData {
    /// Associated data with these bytes, or None if there are more than 4,096.
    pub fn new(bytes: Bytes) -> Option<AssociatedData>
        ensures { result ≡ filter_bytes (λ b. nat_le (length b) 4096) (Some bytes) }
    {
        if bytes.len() > 4096 {
            return None;
        }
        Some(AssociatedData { bytes })
    }

    /// The bytes, at most 4,096.
    pub fn as_slice(&self) -> &[u8]
        ensures bytes { result.now ≡ self.now }
        ensures short { length self.now ≤ 4096 }
    {
        self.bytes.as_slice()
    }
}
