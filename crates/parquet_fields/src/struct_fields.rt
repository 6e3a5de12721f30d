// Reads a struct field by field and then judges its fields.
ghost use Rattle.std.specs.Prelude.{◌≡◌, ℤ, ◌<◌, ◌≤◌, length, OnOk};
ghost use Rattle.pme_base.specs.Causes.{CausedBy};
ghost use Rattle.parquet_fields.specs.Causes.{is_struct_cause};
ghost use Rattle.parquet_fields.specs.Calls.{struct_at};
ghost use Rattle.parquet_fields.specs.Causes.{CheckedCause};
ghost use Rattle.parquet_fields.specs.Fields.{Checked, struct_of};
ghost use Rattle.parquet_fields.specs.Reads.{ReadsKnown, ReadsValue, ReadsItem, thrift_refusal_at};
ghost use Rattle.pme_base.specs.Steps.{Answers, Quiet};
ghost use Rattle.thrift_compact.specs.Answers.{mapped};
ghost use Rattle.thrift_compact.specs.Reading.{nest};
ghost use Rattle.thrift_compact.specs.Standing.{depth_left, GivesAt};
ghost use Rattle.thrift_compact.specs.Tree.{Tree, Fields, no_fields, field};

use crate::field_state::FieldState;
use parquet_types::{FieldRefusal, field_refusal};
use pme_base::{Cause, Detail, Place, Refusal, plain_refusal, refusal_at};
use std::alloc::Global;
use thrift_compact::{FieldHead, Reader, TKind, ThriftRefusal};

/// The known fields of a struct, as far as they have been read.
pub(crate) trait StructFields: Drop {
    /// The type that the struct is read as.
    type Made: Drop;

    // `none` has no field, `after` adds the fields that follow, and `judged` is the value of the struct or its first
    // refusal.
    ghost none: { Self };

    ghost after: { Self → Fields → Self };

    ghost judged: { Self → Checked Self.Made };

    fn none() -> Self
        ensures { result ≡ none };

    /// Reads the value of a field. It is kept if the field is a known one, and skipped otherwise.
    fn read_field(
        &mut self,
        alloc: Global,
        reader: &mut Reader<'_>,
        head: FieldHead,
    ) -> Result<(), ThriftRefusal>
        ensures value { ReadsKnown (λ t. after self.old (field head.id t no_fields)) head.kind
            self.new reader.old reader.new result }
        ensures shorter { OnOk result (length reader.new.rest ≤ length reader.old.rest) };

    /// The value of the struct, or the refusal of its first bad field by ascending field id.
    fn judge(self) -> Result<Self::Made, FieldRefusal>
        ensures { result ≡ judged self };

    ghost at_end: { (known : Self) → after known no_fields ≡ known };

    ghost causes: { (fs : Fields) → CheckedCause (judged (after none fs)) };

    ghost at_field: { (known : Self) (id : ℤ) (t : Tree) (fs : Fields) →
        after known (field id t fs) ≡ after (after known (field id t no_fields)) fs };
}

/// Reads the fields of a struct and its stop byte.
pub(crate) fn read_fields<M: StructFields>(
    alloc: Global,
    reader: &mut Reader<'_>,
) -> Result<M, ThriftRefusal>
    ensures value { GivesAt (λ read. read) reader.old reader.new result
        (mapped (M.after M.none) ((nest (depth_left reader.old)).fields reader.old.rest)) }
    ensures shorter { OnOk result (length reader.new.rest ≤ length reader.old.rest) }
{
    reader.struct_begin()?;
    let mut fields = M::none();
    while let Some(head) = reader.field()? {
        fields.read_field(alloc, reader, head)?;
    }
    Ok(fields)
}

/// Reads a field that should hold a struct. A value of another type is skipped.
pub(crate) fn struct_field<M: StructFields>(
    alloc: Global,
    reader: &mut Reader<'_>,
    kind: TKind,
) -> Result<FieldState<M::Made>, ThriftRefusal>
    ensures value { ReadsValue (struct_of (λ fs. M.judged (M.after M.none fs)))
        kind reader.old reader.new result }
    ensures shorter { OnOk result (length reader.new.rest ≤ length reader.old.rest) }
{
    match kind {
        TKind::Struct => {
            let fields = read_fields::<M>(alloc, reader)?;
            Ok(FieldState::of(fields.judge()))
        }
        _ => {
            reader.skip(kind)?;
            Ok(FieldState::WrongType)
        }
    }
}

/// Reads a list item that should be a struct. A value of another type is skipped.
pub(crate) fn struct_item<M: StructFields>(
    alloc: Global,
    reader: &mut Reader<'_>,
    kind: TKind,
) -> Result<FieldState<M::Made>, ThriftRefusal>
    ensures value { ReadsItem (struct_of (λ fs. M.judged (M.after M.none fs)))
        kind reader.old reader.new result }
    ensures shorter { OnOk result (length reader.new.rest ≤ length reader.old.rest) }
{
    match kind {
        TKind::Struct => struct_field::<M>(alloc, reader, kind),
        _ => {
            reader.skip_element(kind)?;
            Ok(FieldState::WrongType)
        }
    }
}

/// Reads the struct at the start of `bytes` and gives its size in bytes. Refusals are at `place`.
pub(crate) fn read_front<M: StructFields>(
    alloc: Global,
    place: Place,
    bytes: &[u8],
) -> Result<(M::Made, usize), Refusal>
    ensures answer { Answers result
        (struct_at place (λ fs. M.judged (M.after M.none fs)) bytes.now) }
    ensures quiet { Quiet result }
    ensures causes { CausedBy is_struct_cause result }
{
    let mut reader = Reader::new(alloc, bytes);
    let fields = match read_fields::<M>(alloc, &mut reader) {
        Ok(fields) => fields,
        Err(refusal) => return Err(thrift_refusal(place, refusal)),
    };
    match fields.judge() {
        Ok(made) => Ok((made, reader.offset())),
        Err(refused) => Err(field_refusal(place, refused)),
    }
}

// The refusal for an error of the compact protocol.
fn thrift_refusal(place: Place, refusal: ThriftRefusal) -> Refusal
    ensures { result ≡ thrift_refusal_at place refusal }
{
    match refusal {
        ThriftRefusal::Bad { at, why } => {
            refusal_at(Cause::BadThrift, place, at, Detail::Thrift(why))
        }
        ThriftRefusal::OutOfMemory => plain_refusal(Cause::OutOfMemory),
    }
}
