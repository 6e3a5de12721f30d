// The errors of parsing a field and a record.
ghost use Rattle.std.specs.Prelude.{◌≡◌};

use pme_base::OutOfMemory;

/// Why a field can't be parsed as a cell of its column.
#[derive(Clone, Copy, Debug, PartialEq, Eq, Drop)]
pub enum FieldRefusal {
    Bad,
    OutOfMemory,
}

/// Why a record isn't a valid row or header: the number of its first bad field.
#[derive(Clone, Copy, Debug, PartialEq, Eq, Drop)]
pub enum RecordRefusal {
    BadField(u64),
    OutOfMemory,
}

impl From<OutOfMemory> for FieldRefusal {
    ghost use Rattle.table_text.specs.declared.refusals.FieldRefusal.TheVariants.{OutOfMemory as no_memory};

    ghost from_gives = { λ _ e. e ≡ no_memory };

    fn from(_error: OutOfMemory) -> FieldRefusal {
        FieldRefusal::OutOfMemory
    }
}

impl From<OutOfMemory> for RecordRefusal {
    ghost use Rattle.table_text.specs.declared.refusals.RecordRefusal.TheVariants.{OutOfMemory as no_memory};

    ghost from_gives = { λ _ e. e ≡ no_memory };

    fn from(_error: OutOfMemory) -> RecordRefusal {
        RecordRefusal::OutOfMemory
    }
}
