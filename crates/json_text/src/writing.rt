// Writing of JSON text.
ghost use Rattle.std.specs.Prelude.{IsUtf8, IfOk};
ghost use Rattle.serde_json.specs.View.{view};
ghost use Rattle.json_text.specs.Json.{IsTextOf};

use pme_base::{Bytes, OutOfMemory};
use serde_json::Value;
use std::alloc::Global;

/// Writes a value as compact JSON text, with the names of each object in ascending byte order.
pub fn write_json(alloc: Global, value: &Value) -> Result<Bytes, OutOfMemory>
    ensures text { IfOk result (λ text. IsTextOf text (view value.now)) }
    ensures utf8 { IfOk result (λ text. IsUtf8 text) }
{
    let text = value.to_vec(alloc)?;
    Ok(Bytes::from_vec(text))
}
