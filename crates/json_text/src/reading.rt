// Parsing of JSON text.
ghost use Rattle.std.specs.Prelude.{◌≡◌, IfOk, IfSome, option_map};
ghost use Rattle.serde_json.specs.View.{view};
ghost use Rattle.json_text.specs.Json.{json_of, object_of};
ghost use Rattle.json_text.specs.Order.{AreInByteOrder};

use pme_base::OutOfMemory;
use serde_json::Value;
use std::alloc::Global;

/// Parses JSON text. None if the bytes aren't valid JSON in UTF-8, or if arrays and objects are nested more than 127 levels
/// deep. If an object repeats a name, the last member counts. The members of an object are in ascending byte order of
/// their names.
#[tactic(auto, using(crate::proofs::Order::in_byte_order))]
pub fn read_json(alloc: Global, bytes: &[u8]) -> Result<Option<Value>, OutOfMemory>
    ensures value { IfOk result (λ value. option_map view value ≡ json_of bytes.now) }
    ensures order { IfSome (object_of bytes.now) AreInByteOrder }
{
    let Ok(text) = std::str::from_utf8(bytes) else {
        return Ok(None);
    };
    match Value::from_str(alloc, text) {
        Ok(value) => Ok(Some(value)),
        Err(e) => {
            if e.is_memory() {
                Err(OutOfMemory)
            } else {
                Ok(None)
            }
        }
    }
}
