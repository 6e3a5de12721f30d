// A key finder whose calls fail, for tests of how such a fault is answered.
ghost use Rattle.std.specs.Prelude.{◌≡◌, Err, IfOk};
ghost use Rattle.key_rights.specs.Finding.{KeyFaults};
ghost use Rattle.key_rights.specs.declared.finder.KeyTrouble.TheVariants as trouble;

use key_rights::{KeyAnswer, KeyFinder, KeyTrouble};
use std::alloc::Global;

/// A key finder whose every call fails.
#[derive(Drop)]
pub struct FailingFinder {
    faults: u64,
}

impl FailingFinder {
    /// A finder before its first call.
    pub fn new() -> FailingFinder
        ensures { result.faults ≡ 0 }
    {
        FailingFinder { faults: 0 }
    }

    fn failed(&mut self) -> Result<KeyAnswer, KeyTrouble>
        ensures fails { result ≡ Err trouble.Failed }
        ensures counted { KeyFaults self.old.faults self.new.faults result }
    {
        self.faults = self.faults.saturating_add(1);
        Err(KeyTrouble::Failed)
    }
}

impl KeyFinder for FailingFinder {
    ghost use Rattle.std.specs.Prelude.{refl};
    ghost use Rattle.key_rights.specs.declared.finder.KeyAnswer.TheVariants.{Absent};

    ghost answer = { λ _ _. Absent };

    ghost faults = { λ f. f.faults };

    ghost causes = { λ _ _. refl };

    fn footer_key(
        &mut self,
        _alloc: Global,
        _metadata: Option<&[u8]>,
    ) -> Result<KeyAnswer, KeyTrouble>
        ensures answer { IfOk result (λ key. key ≡ Absent) }
        ensures cause { KeyFaults self.old.faults self.new.faults result }
        ensures fails { result ≡ Err trouble.Failed }
    {
        self.failed()
    }

    fn column_key(
        &mut self,
        _alloc: Global,
        _metadata: Option<&[u8]>,
        _path: &str,
    ) -> Result<KeyAnswer, KeyTrouble>
        ensures answer { IfOk result (λ key. key ≡ Absent) }
        ensures cause { KeyFaults self.old.faults self.new.faults result }
        ensures fails { result ≡ Err trouble.Failed }
    {
        self.failed()
    }
}
