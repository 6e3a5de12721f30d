// The AAD prefix as an argument.
ghost use Rattle.std.specs.Prelude.{◌≡◌, ◌≤◌, length, nat_le};
ghost use Rattle.command_line.specs.Values.{filter_bytes};

use pme_base::{Bytes, PREFIX_LIMIT};
use std::marker::Model;

/// An AAD prefix that the user supplies, of at most 1,024 bytes. Contracts see it as the list of its bytes.
#[derive(Drop)]
pub struct AadPrefix {
    bytes: Bytes,
}

impl Model for AadPrefix {
    ghost use Rattle.std.specs.Prelude.{List, ℕ, ◌≤◌, length};
    ghost use Rattle.pme_base.specs.declared.limits.TheConstants.{PREFIX_LIMIT};

    ghost Value = { List ℕ };

    ghost view = { λ p. p.bytes };

    ghost invariant = { λ p. length p.bytes ≤ PREFIX_LIMIT };
}

impl AadPrefix {
    /// A prefix with these bytes, or None if there are more than 1,024.
    pub fn new(bytes: Bytes) -> Option<AadPrefix>
        ensures { result ≡ filter_bytes (λ b. nat_le (length b) PREFIX_LIMIT) (Some bytes) }
    {
        if bytes.len() > PREFIX_LIMIT {
            return None;
        }
        Some(AadPrefix { bytes })
    }

    /// The bytes of the prefix, at most 1,024.
    pub fn as_slice(&self) -> &[u8]
        ensures bytes { result.now ≡ self.now }
        ensures short { length self.now ≤ PREFIX_LIMIT }
    {
        self.bytes.as_slice()
    }
}
