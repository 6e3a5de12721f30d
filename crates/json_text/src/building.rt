// Building of JSON values.
ghost use Rattle.std.specs.Prelude.{◌≡◌, [], ◌∷◌, ◌++◌, IsUtf8, IfOk, OnOk, OnErr};
ghost use Rattle.serde_json.specs.Data.{string, number, unsigned, boolean, array, object, no_members, put as with_member};
ghost use Rattle.serde_json.specs.View.{view, items_of};
ghost use Rattle.json_text.specs.Built.{members_built, items_built};

use pme_base::OutOfMemory;
use serde_json::{Map, Value};
use std::alloc::Global;

/// A JSON string.
pub fn text_value(alloc: Global, text: &str) -> Result<Value, OutOfMemory>
    ensures { IfOk result (λ value. view value ≡ string text.now) }
{
    let value = Value::try_from_str(alloc, text)?;
    Ok(value)
}

/// A JSON string from the bytes of UTF-8 text.
pub fn text_value_of_bytes(alloc: Global, text: &[u8]) -> Result<Value, OutOfMemory>
    requires { IsUtf8 text.now }
    ensures { IfOk result (λ value. view value ≡ string text.now) }
{
    let Ok(text) = std::str::from_utf8(text) else {
        unreachable!();
    };
    text_value(alloc, text)
}

/// A JSON number from an integer.
pub fn whole_number_value(whole: u64) -> Value
    ensures { view result ≡ number (unsigned whole) }
{
    Value::from(whole)
}

/// A JSON boolean.
pub fn truth_value(truth: bool) -> Value
    ensures { view result ≡ boolean truth }
{
    Value::from(truth)
}

/// Builds a JSON object. Contracts refer to its members by `members_built`.
#[derive(Drop)]
pub struct ObjectBuilder {
    members: Map<String, Value>,
}

impl ObjectBuilder {
    /// An object without members. It allocates nothing.
    #[tactic(auto, unfolding(crate::specs::Built::members_built))]
    pub fn new(alloc: Global) -> ObjectBuilder
        ensures { members_built result ≡ no_members }
    {
        ObjectBuilder {
            members: Map::new(alloc),
        }
    }

    /// Sets member `name` to `value`, replacing an earlier member with that name. An error leaves the object unchanged.
    #[tactic(auto, unfolding(crate::specs::Built::members_built))]
    pub fn put(&mut self, alloc: Global, name: &str, value: Value) -> Result<(), OutOfMemory>
        ensures ok { OnOk result (members_built self.new ≡ with_member name.now (view value)
            (members_built self.old)) }
        ensures unchanged { OnErr result (members_built self.new ≡ members_built self.old) }
    {
        serde_json::put(&mut self.members, alloc, name, value)?;
        Ok(())
    }

    /// The finished object.
    #[tactic(auto, unfolding(crate::specs::Built::members_built))]
    pub fn finish(self) -> Value
        ensures { view result ≡ object (members_built self) }
    {
        Value::Object(self.members)
    }
}

/// Builds a JSON array. Contracts refer to its items by `items_built`.
#[derive(Drop)]
pub struct ListBuilder {
    items: Vec<Value>,
}

impl ListBuilder {
    /// An array without items. It allocates nothing.
    #[tactic(auto, unfolding(crate::specs::Built::items_built))]
    pub fn new(alloc: Global) -> ListBuilder
        ensures { items_built result ≡ [] }
    {
        ListBuilder {
            items: Vec::new(alloc),
        }
    }

    /// Appends `value`. An error leaves the array unchanged.
    #[tactic(auto, unfolding(crate::specs::Built::items_built))]
    pub fn push(&mut self, value: Value) -> Result<(), OutOfMemory>
        ensures ok { OnOk result (items_built self.new ≡ items_built self.old ++ view value ∷ []) }
        ensures unchanged { OnErr result (items_built self.new ≡ items_built self.old) }
    {
        serde_json::push(&mut self.items, value)?;
        Ok(())
    }

    /// The finished array.
    #[tactic(auto, unfolding(crate::specs::Built::items_built))]
    pub fn finish(self) -> Value
        ensures { view result ≡ array (items_of (items_built self)) }
    {
        Value::Array(self.items)
    }
}
