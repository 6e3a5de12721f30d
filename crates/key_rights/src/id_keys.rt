// Keys files: JSON files that map ids to keys.
ghost use Rattle.std.specs.Prelude.{◌≡◌, ◌++◌, false, Err, Ok, codes, IfOk, IfErr, IfSome};
ghost use Rattle.json_text.specs.View.{view, members_view};
ghost use Rattle.json_text.specs.Json.{object_of};
ghost use Rattle.json_text.specs.Members.{each_member};
ghost use Rattle.json_text.specs.Order.{AreInByteOrder};
ghost use Rattle.key_rights.specs.KeysFile as file;
ghost use Rattle.key_rights.specs.Making.{is_free_refusal};
ghost use Rattle.key_rights.specs.MakingById.{has_id, made_by_id, made_by_ids};
ghost use Rattle.key_rights.specs.declared.maker.MakeRefusal.TheVariants as refusal_is;

use crate::finder::{KeyAnswer, KeyFinder, KeyTrouble};
use crate::id_key::IdKey;
use crate::maker::{KeyMaker, MadeKey, MakeRefusal};
use crate::nonces::NonceSet;
use aes_block::AesKey;
use json_text::{Map, Value, bytes_of_hex, read_json};
use pme_base::{Bytes, OutOfMemory, Random, Sequence};
use std::alloc::Global;
use std::marker::Model;
use thiserror::Error;

/// Why a keys file can't be read.
#[derive(Debug, Drop, Error)]
pub enum KeysRefusal {
    /// The first id in byte order whose value isn't a valid key, or the empty id if the bytes aren't a JSON object.
    #[error("Bad")]
    Bad(Bytes),
    /// Memory was refused.
    #[error("OutOfMemory")]
    OutOfMemory,
}

impl From<OutOfMemory> for KeysRefusal {
    ghost use Rattle.key_rights.specs.declared.id_keys.KeysRefusal.TheVariants as refusal;

    ghost from_gives = { λ _ e. e ≡ refusal.OutOfMemory };

    fn from(_error: OutOfMemory) -> KeysRefusal {
        KeysRefusal::OutOfMemory
    }
}

/// The keys of a keys file. Contracts see them as the list of ids and keys, in byte order of the ids.
#[derive(Drop)]
pub struct IdKeys {
    keys: Sequence<IdKey>,
}

impl Model for IdKeys {
    ghost use Rattle.std.specs.Prelude.{List};
    ghost use Rattle.key_rights.specs.declared.id_key.IdKey.{IdKey};

    ghost Value = { List IdKey };

    ghost view = { λ k. k.keys };
}

impl IdKeys {
    /// Parses a keys file: a JSON object that maps each id to a key of 32, 48 or 64 hex digits of either case. If an id is
    /// repeated, its last key counts.
    #[tactic(auto, unfolding(crate::specs::KeysFile::keys_of_file))]
    pub fn parse(alloc: Global, bytes: &[u8]) -> Result<IdKeys, KeysRefusal>
        ensures ok { IfOk result (λ keys. file.keys_of_file bytes.now ≡ Ok keys) }
        ensures err { IfErr result (λ refusal. file.IsRefusalOf
            (file.keys_of_file bytes.now) refusal) }
        ensures order { IfSome (object_of bytes.now) AreInByteOrder }
    {
        let Some(value) = read_json(alloc, bytes)? else {
            return Err(KeysRefusal::Bad(Bytes::new(alloc)));
        };
        let Some(members) = value.as_object() else {
            return Err(KeysRefusal::Bad(Bytes::new(alloc)));
        };
        let keys = keys_of_members(alloc, members)?;
        Ok(IdKeys { keys })
    }

    // The key with this id, or Absent.
    fn key_by_id(&self, id: &[u8]) -> KeyAnswer
        ensures { result ≡ file.key_by_id self.now id.now }
    {
        key_among(self.keys.as_slice(), id)
    }

    // The key with this id, whose metadata is the id; Denied if there is none.
    fn made_by_id(&self, alloc: Global, id: &str) -> Result<MadeKey, MakeRefusal>
        ensures ok { IfOk result (λ made. made_by_id self.now id.now ≡ Ok made) }
        ensures err { IfErr result (λ refusal. is_free_refusal refusal ≡ false
            → made_by_id self.now id.now ≡ Err refusal) }
        ensures quiet { IfErr result (λ refusal. refusal ≡ refusal_is.RandomFault → ⊥) }
        ensures no_service { IfErr result (λ refusal. refusal ≡ refusal_is.ServiceFault → ⊥) }
    {
        match self.key_by_id(id.as_bytes()) {
            KeyAnswer::Held(key) => {
                let metadata = Bytes::copy_of(alloc, id.as_bytes())?;
                Ok(MadeKey { key, metadata })
            }
            KeyAnswer::Absent => Err(MakeRefusal::Denied),
            KeyAnswer::Refused(_cause, _detail) => Err(MakeRefusal::Denied),
        }
    }
}

// The keys of all members, or the refusal for the first invalid one.
fn keys_of_members(
    alloc: Global,
    members: &Map<String, Value>,
) -> Result<Sequence<IdKey>, KeysRefusal>
    ensures ok { IfOk result (λ keys. each_member file.key_of_member
        (members_view members.now.entries) ≡ Ok keys) }
    ensures err { IfErr result (λ refusal. file.IsRefusalOf
        (each_member file.key_of_member (members_view members.now.entries)) refusal) }
{
    let mut keys = Sequence::new(alloc);
    for (id, value) in members.iter() {
        let Some(key) = key_of_member(alloc, id.as_bytes(), value)? else {
            return Err(bad_id(alloc, id.as_bytes()));
        };
        keys.push(key)?;
    }
    Ok(keys)
}

// The refusal for the id of an invalid key.
fn bad_id(alloc: Global, id: &[u8]) -> KeysRefusal
    ensures { file.IsRefusalOf (Err id.now) result }
{
    match Bytes::copy_of(alloc, id) {
        Ok(id) => KeysRefusal::Bad(id),
        Err(_) => KeysRefusal::OutOfMemory,
    }
}

// The key of a member; None if its value is invalid.
#[tactic(auto, unfolding(crate::specs::KeysFile::key_of_member))]
fn key_of_member(alloc: Global, id: &[u8], value: &Value) -> Result<Option<IdKey>, OutOfMemory>
    ensures { IfOk result (λ key. key ≡ file.key_of_member id.now (view value.now)) }
{
    let Some(text) = value.as_str() else {
        return Ok(None);
    };
    let Some(key) = key_of_text(alloc, text)? else {
        return Ok(None);
    };
    let id = Bytes::copy_of(alloc, id)?;
    Ok(Some(IdKey { id, key }))
}

// The key with this hex text; None if it is invalid.
#[tactic(auto, unfolding(crate::specs::KeysFile::key_of_text))]
fn key_of_text(alloc: Global, text: &str) -> Result<Option<AesKey>, OutOfMemory>
    ensures { IfOk result (λ key. key ≡ file.key_of_text text.now) }
{
    match bytes_of_hex(alloc, text.as_bytes())? {
        None => Ok(None),
        Some(bytes) => match AesKey::new(bytes.as_slice()) {
            Ok(key) => Ok(Some(key)),
            Err(_) => Ok(None),
        },
    }
}

// The first key in the list with this id, or Absent.
fn key_among(keys: &[IdKey], id: &[u8]) -> KeyAnswer
    ensures { result ≡ file.key_by_id keys.now id.now }
{
    for entry in keys {
        if entry.id.as_slice() == id {
            return KeyAnswer::Held(entry.key.copy());
        }
    }
    KeyAnswer::Absent
}

// The id of the key for a column without key metadata: `column:` and the path.
fn column_id(alloc: Global, path: &str) -> Result<Bytes, OutOfMemory>
    ensures { IfOk result (λ id. id ≡ codes "column:" ++ path.now) }
{
    let mut id = Bytes::copy_of(alloc, b"column:")?;
    id.extend(path.as_bytes())?;
    Ok(id)
}

impl KeyFinder for IdKeys {
    ghost use Rattle.key_rights.specs.KeyCauses.{answer_by_id-refuses_none};

    ghost answer = { file.answer_by_id };

    ghost faults = { λ _. 0 };

    ghost causes = { answer_by_id-refuses_none };

    fn footer_key(
        &mut self,
        _alloc: Global,
        metadata: Option<&[u8]>,
    ) -> Result<KeyAnswer, KeyTrouble> {
        match metadata {
            Some(id) => Ok(self.key_by_id(id)),
            None => Ok(self.key_by_id(b"footer")),
        }
    }

    fn column_key(
        &mut self,
        alloc: Global,
        metadata: Option<&[u8]>,
        path: &str,
    ) -> Result<KeyAnswer, KeyTrouble> {
        match metadata {
            Some(id) => Ok(self.key_by_id(id)),
            None => {
                let id = column_id(alloc, path)?;
                Ok(self.key_by_id(id.as_slice()))
            }
        }
    }
}

impl KeyMaker for IdKeys {
    ghost behaves = { made_by_ids };

    ghost has = { has_id };

    ghost faults = { λ _. 0 };

    fn make_footer<N: Random>(
        &mut self,
        alloc: Global,
        id: &str,
        _random: &mut N,
        _nonces: &mut NonceSet,
    ) -> Result<MadeKey, MakeRefusal> {
        self.made_by_id(alloc, id)
    }

    fn make_column<N: Random>(
        &mut self,
        alloc: Global,
        id: &str,
        _random: &mut N,
        _nonces: &mut NonceSet,
    ) -> Result<MadeKey, MakeRefusal> {
        self.made_by_id(alloc, id)
    }

    fn external_text(&self, _alloc: Global) -> Result<Option<Bytes>, OutOfMemory> {
        Ok(None)
    }
}
