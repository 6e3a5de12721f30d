// Reads FileCryptoMetaData.
ghost use Rattle.std.specs.Prelude.{◌≡◌, refl};
ghost use Rattle.pme_base.specs.Causes.{CausedBy};
ghost use Rattle.parquet_fields.specs.Causes.{is_struct_cause};
ghost use Rattle.parquet_fields.specs.Calls.{file_crypto_at};
ghost use Rattle.pme_base.specs.Steps.{Answers, Quiet};
ghost use Rattle.pme_base.specs.declared.place.PlaceKind.TheVariants as kind_of;
ghost use Rattle.pme_base.specs.Places.{place_of};
ghost use Rattle.parquet_fields.specs.Causes.{file_crypto_causes};
ghost use Rattle.parquet_fields.specs.Structs.{file_crypto_none, file_crypto_after, file_crypto_of};

use crate::algorithm::AlgorithmFields;
use crate::field_state::FieldState;
use crate::struct_fields::{StructFields, read_front, struct_field};
use crate::values::binary_field;
use parquet_types::{AlgorithmMeta, FieldRefusal, FileCrypto};
use pme_base::{Bytes, Place, Refusal, StructName};
use std::alloc::Global;
use thrift_compact::{FieldHead, Reader, ThriftRefusal};

/// The field states of FileCryptoMetaData.
#[derive(Drop)]
pub(crate) struct FileCryptoFields {
    algorithm: FieldState<AlgorithmMeta>,
    key_metadata: FieldState<Bytes>,
}

impl StructFields for FileCryptoFields {
    type Made = FileCrypto;

    ghost none = { file_crypto_none };

    ghost after = { file_crypto_after };

    ghost judged = { file_crypto_of };

    ghost at_end = { λ known. refl };

    ghost at_field = { λ known id t fs. refl };

    ghost causes = { file_crypto_causes };

    fn none() -> FileCryptoFields {
        FileCryptoFields {
            algorithm: FieldState::Absent,
            key_metadata: FieldState::Absent,
        }
    }

    fn read_field(
        &mut self,
        alloc: Global,
        reader: &mut Reader<'_>,
        head: FieldHead,
    ) -> Result<(), ThriftRefusal> {
        match head.id {
            1 => self.algorithm = struct_field::<AlgorithmFields>(alloc, reader, head.kind)?,
            2 => self.key_metadata = binary_field(alloc, reader, head.kind)?,
            _ => reader.skip(head.kind)?,
        }
        Ok(())
    }

    fn judge(self) -> Result<FileCrypto, FieldRefusal> {
        let algorithm = self.algorithm.needed(StructName::FileCryptoMetaData, 1)?;
        let key_metadata = self
            .key_metadata
            .optional(StructName::FileCryptoMetaData, 2)?;
        Ok(FileCrypto {
            algorithm,
            key_metadata,
        })
    }
}

/// Reads the FileCryptoMetaData in front of an encrypted footer, at the start of `bytes`, and gives its size in
/// bytes. Refusals are as for `read_column_meta`, at the footer.
pub fn read_file_crypto(alloc: Global, bytes: &[u8]) -> Result<(FileCrypto, usize), Refusal>
    ensures answer { Answers result (file_crypto_at (place_of kind_of.Footer 0 0 0) bytes.now) }
    ensures quiet { Quiet result }
    ensures causes { CausedBy is_struct_cause result }
{
    read_front::<FileCryptoFields>(alloc, Place::footer(), bytes)
}
