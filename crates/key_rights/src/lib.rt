//! Keys by the part of a file that they may decrypt (its footer or a column), the interface of key finders, keys files, and
//! the set of nonces that each key has used: a GCM key must not use a nonce twice (SP 800-38D, section 8).
#![tactic(auto)]

ghost use Rattle.key_rights.specs.KeysFile.{KeysAreHex};
ghost use Rattle.key_rights.specs.Nonces.{DistinctEntries, NoneTaken, OneTaken};

mod finder;
mod id_key;
mod id_keys;
mod keys;
mod maker;
mod nonces;

pub use finder::{KeyAnswer, KeyFinder, KeyTrouble};
pub use id_key::IdKey;
pub use id_keys::{IdKeys, KeysRefusal};
pub use keys::{ColumnKey, FooterKey};
pub use maker::{KeyMaker, MadeKey, MakeRefusal};
pub use nonces::{NonceOwner, NonceRefusal, NonceSet};

/// A set of nonces is a set of pairs of an owner and a nonce: different pairs have different entries, the empty set holds no
/// pair, and taking a nonce adds exactly that pair.
pub fn pairs_are_told_apart()
    ensures distinct { DistinctEntries }
    ensures none { NoneTaken }
    ensures one { OneTaken }
{}

/// A key in a keys file is valid if and only if it has 32, 48 or 64 hex digits of either case.
pub fn keys_are_hex()
    ensures { KeysAreHex }
{}
