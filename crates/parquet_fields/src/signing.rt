// Reads from a FileMetaData only how its footer is signed.
ghost use Rattle.std.specs.Prelude.{◌≡◌, refl};
ghost use Rattle.pme_base.specs.Causes.{CausedBy};
ghost use Rattle.parquet_fields.specs.Causes.{is_struct_cause};
ghost use Rattle.parquet_fields.specs.Calls.{signing_at, split_signing};
ghost use Rattle.pme_base.specs.Steps.{Answers, Quiet};
ghost use Rattle.pme_base.specs.declared.place.PlaceKind.TheVariants as kind_of;
ghost use Rattle.pme_base.specs.Places.{place_of};
ghost use Rattle.parquet_fields.specs.Causes.{signing_causes};
ghost use Rattle.parquet_fields.specs.Structs.{signing_none, signing_after, signing_of};

use crate::algorithm::AlgorithmFields;
use crate::field_state::FieldState;
use crate::struct_fields::{StructFields, read_front, struct_field};
use crate::values::binary_field;
use parquet_types::{AlgorithmMeta, FieldRefusal};
use pme_base::{Bytes, Place, Refusal, StructName};
use std::alloc::Global;
use thrift_compact::{FieldHead, Reader, ThriftRefusal};

/// The field states of FileMetaData's `encryption_algorithm` and `footer_signing_key_metadata`.
#[derive(Drop)]
pub(crate) struct SigningFields {
    algorithm: FieldState<AlgorithmMeta>,
    key_metadata: FieldState<Bytes>,
}

impl StructFields for SigningFields {
    type Made = (Option<AlgorithmMeta>, Option<Bytes>);

    ghost none = { signing_none };

    ghost after = { signing_after };

    ghost judged = { signing_of };

    ghost at_end = { λ known. refl };

    ghost at_field = { λ known id t fs. refl };

    ghost causes = { signing_causes };

    fn none() -> SigningFields {
        SigningFields {
            algorithm: FieldState::Absent,
            key_metadata: FieldState::Absent,
        }
    }

    fn read_field(
        &mut self,
        alloc: Global,
        reader: &mut Reader<'_>,
        head: FieldHead,
    ) -> Result<(), ThriftRefusal> {
        match head.id {
            8 => self.algorithm = struct_field::<AlgorithmFields>(alloc, reader, head.kind)?,
            9 => self.key_metadata = binary_field(alloc, reader, head.kind)?,
            _ => reader.skip(head.kind)?,
        }
        Ok(())
    }

    fn judge(self) -> Result<(Option<AlgorithmMeta>, Option<Bytes>), FieldRefusal> {
        match self.algorithm.optional(StructName::FileMetaData, 8)? {
            None => Ok((None, None)),
            Some(algorithm) => {
                let key_metadata = self.key_metadata.optional(StructName::FileMetaData, 9)?;
                Ok((Some(algorithm), key_metadata))
            }
        }
    }
}

/// Reads the encryption algorithm and the signing key metadata of the FileMetaData at the start of `bytes`, and gives
/// its size in bytes. Both are None if the footer isn't signed. Its other fields are skipped without validation.
/// Refusals are as for `read_column_meta`, at the footer.
pub fn read_signing(
    alloc: Global,
    bytes: &[u8],
) -> Result<(Option<AlgorithmMeta>, Option<Bytes>, usize), Refusal>
    ensures answer { Answers result
        (split_signing (signing_at (place_of kind_of.Footer 0 0 0) bytes.now)) }
    ensures quiet { Quiet result }
    ensures causes { CausedBy is_struct_cause result }
{
    let ((algorithm, key_metadata), size) = read_front::<SigningFields>(
        alloc,
        Place::footer(),
        bytes,
    )?;
    Ok((algorithm, key_metadata, size))
}
