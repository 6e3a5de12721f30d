// A key finder that refuses every key, for tests of how a refused key is answered.
ghost use Rattle.std.specs.Prelude.{◌≡◌, IfOk};
ghost use Rattle.pme_base.specs.declared.refusal.Detail.TheVariants.{Name};
ghost use Rattle.tail_tests.specs.Refusing.{refused_for};

use key_rights::{KeyAnswer, KeyFinder, KeyTrouble};
use pme_base::{Bytes, Cause, Detail, OutOfMemory};
use std::alloc::Global;

/// Why a key is refused.
#[derive(Clone, Copy, Debug, PartialEq, Eq, Drop)]
pub enum KeyFault {
    BadMaterial,
    NoMaterial,
    WrapTag,
    KeyLength,
}

impl KeyFault {
    /// The fault of a cause's name.
    pub fn of_name(name: &str) -> Option<KeyFault> {
        match name {
            "BadMaterial" => Some(KeyFault::BadMaterial),
            "NoMaterial" => Some(KeyFault::NoMaterial),
            "WrapTag" => Some(KeyFault::WrapTag),
            "KeyLength" => Some(KeyFault::KeyLength),
            _ => None,
        }
    }

    fn refusal(self, alloc: Global) -> Result<KeyAnswer, OutOfMemory>
        ensures { IfOk result (λ answer. answer ≡ refused_for self) }
    {
        let (cause, detail) = match self {
            KeyFault::BadMaterial => (Cause::BadMaterial, named(alloc, b"json")?),
            KeyFault::NoMaterial => (Cause::NoMaterial, named(alloc, b"footerKey")?),
            KeyFault::WrapTag => (Cause::WrapTag, Detail::Tags([1; 16], [2; 16])),
            KeyFault::KeyLength => (Cause::KeyLength, Detail::Pair(15, 0)),
        };
        Ok(KeyAnswer::Refused(cause, detail))
    }
}

fn named(alloc: Global, name: &[u8]) -> Result<Detail, OutOfMemory>
    ensures { IfOk result (λ told. told ≡ Name name.now) }
{
    Ok(Detail::Name(Bytes::copy_of(alloc, name)?))
}

/// A key finder that refuses every key for one reason.
#[derive(Drop)]
pub struct RefusingFinder {
    pub fault: KeyFault,
}

impl KeyFinder for RefusingFinder {
    ghost use Rattle.tail_tests.specs.Refusing.{refused_for-has_a_key_cause};

    ghost answer = { λ finder _. refused_for finder.fault };

    ghost faults = { λ _. 0 };

    ghost causes = { λ finder _. refused_for-has_a_key_cause finder.fault };

    fn footer_key(
        &mut self,
        alloc: Global,
        _metadata: Option<&[u8]>,
    ) -> Result<KeyAnswer, KeyTrouble> {
        Ok(self.fault.refusal(alloc)?)
    }

    fn column_key(
        &mut self,
        alloc: Global,
        _metadata: Option<&[u8]>,
        _path: &str,
    ) -> Result<KeyAnswer, KeyTrouble> {
        Ok(self.fault.refusal(alloc)?)
    }
}
