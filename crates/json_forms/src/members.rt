//! The JSON value of a line, and members of objects that have exactly so many of them.
ghost use Rattle.std.specs.Prelude.{◌≡◌, option_map, IfOk};
ghost use Rattle.serde_json.specs.View.{view};
ghost use Rattle.json_forms.specs.Members.{json_of, member_at, text_at, whole_at, single_member};

use edges::NoMemory;
use serde_json::Value;
use std::alloc::Global;

/// The JSON value of a line; `None` where it is none.
pub(crate) fn read_json(alloc: Global, line: &[u8]) -> Result<Option<Value>, NoMemory>
    ensures { IfOk result (λ value. option_map view value ≡ json_of line.now) }
{
    match Value::from_slice(alloc, line) {
        Ok(value) => Ok(Some(value)),
        Err(fault) if fault.is_memory() => Err(NoMemory),
        Err(_) => Ok(None),
    }
}

/// The member of this name, of an object with this number of members.
pub(crate) fn member<'v>(value: &'v Value, count: usize, name: &str) -> Option<&'v Value>
    ensures { option_map (λ v. view v.now) result ≡ member_at count name.now (view value.now) }
{
    let members = value.as_object()?;
    if members.len() != count {
        return None;
    }
    value.get(name)
}

/// The text that is the member of this name, of an object with this number of members.
pub(crate) fn text_member<'v>(value: &'v Value, count: usize, name: &str) -> Option<&'v str>
    ensures { option_map (λ s. s.now) result ≡ text_at count name.now (view value.now) }
{
    member(value, count, name)?.as_str()
}

/// The whole number that is the member of this name, of an object with this number of members.
pub(crate) fn whole_member(value: &Value, count: usize, name: &str) -> Option<u64>
    ensures { result ≡ whole_at count name.now (view value.now) }
{
    member(value, count, name)?.as_u64()
}

/// The name and the value of an object's only member.
pub(crate) fn only_member(value: &Value) -> Option<(&str, &Value)>
    ensures { option_map (λ m. (m.0.now, view m.1.now)) result ≡ single_member (view value.now) }
{
    let members = value.as_object()?;
    if members.len() != 1 {
        return None;
    }
    let (name, inner) = members.first_key_value()?;
    Some((name.as_str(), inner))
}
