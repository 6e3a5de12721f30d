// Members of JSON objects by name.
ghost use Rattle.std.specs.Prelude.{◌≡◌, option_map};
ghost use Rattle.serde_json.specs.View.{view, items_view, members_view};
ghost use Rattle.json_text.specs.Json as defined;
ghost use Rattle.json_text.specs.Members.{first_bad, is_text};

use serde_json::{Map, Value};

/// The string in member `name` of an object. None if the value isn't an object, has no such member, or the member isn't a
/// string.
#[tactic(auto, unfolding(crate::specs::Json::text_at))]
pub fn text_at<'a>(value: &'a Value, name: &str) -> Option<&'a str>
    ensures { option_map (λ text. text.now) result ≡ defined.text_at name.now (view value.now) }
{
    value.get(name).and_then(Value::as_str)
}

/// The integer from 0 to 2^64 - 1 in member `name` of an object, otherwise None. Numbers with a point or an exponent, and
/// `-0`, are not integers here.
#[tactic(auto, unfolding(crate::specs::Json::whole_number_at))]
pub fn whole_number_at(value: &Value, name: &str) -> Option<u64>
    ensures { result ≡ defined.whole_number_at name.now (view value.now) }
{
    value.get(name).and_then(Value::as_u64)
}

/// The boolean in member `name` of an object, otherwise None.
#[tactic(auto, unfolding(crate::specs::Json::truth_at))]
pub fn truth_at(value: &Value, name: &str) -> Option<bool>
    ensures { result ≡ defined.truth_at name.now (view value.now) }
{
    value.get(name).and_then(Value::as_bool)
}

/// The array in member `name` of an object, otherwise None.
#[tactic(auto, unfolding(crate::specs::Json::list_at))]
pub fn list_at<'a>(value: &'a Value, name: &str) -> Option<&'a [Value]>
    ensures { option_map (λ items. items_view items.now) result ≡
        defined.list_at name.now (view value.now) }
{
    match value.get(name).and_then(Value::as_array) {
        Some(items) => Some(items.as_slice()),
        None => None,
    }
}

/// The first name in byte order whose member isn't a string; None if all members are strings.
pub fn first_other_than_text(members: &Map<String, Value>) -> Option<&str>
    ensures { option_map (λ name. name.now) result ≡ first_bad is_text
        (members_view members.now.entries) }
{
    for (name, value) in members.iter() {
        if !value.is_string() {
            return Some(name.as_str());
        }
    }
    None
}
