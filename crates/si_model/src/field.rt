//! The fields of a value, counted from 1.

ghost use Rattle.std.specs.Prelude.{◌≡◌, ◌≤◌, length, replicate, Some, None, MatchOption, if◌then◌else◌};
ghost use Rattle.si_model.specs.Evaluation.{field_of, with_field, can_change, new_number};

use crate::row::Value;

/// The number in a field, which is 0 where there is no value.
pub(crate) fn field_at(value: &Option<Value>, field: u32) -> u64
    requires counted { 1 ≤ field }
    requires within { MatchOption value.now (Unit {0}) (λ v. field ≤ length v) }
    ensures { result ≡ field_of value.now field }
{
    match value {
        Some(value) => *value.at(field as usize - 1),
        None => 0,
    }
}

fn zeros(width: u32) -> Value
    requires { width ≤ 8 }
    ensures { result ≡ replicate width 0 }
{
    let mut value = Value::new();
    for _ in 0..width {
        value.push(0);
    }
    value
}

/// The value with another number in a field. Where there is none, it starts as zeros.
pub(crate) fn with_field(width: u32, value: Option<Value>, field: u32, number: u64) -> Value
    requires narrow { width ≤ 8 }
    requires counted { (1 ≤ field) × (field ≤ width) }
    requires wide { MatchOption value (Unit {0}) (λ v. length v ≡ width) }
    ensures { result ≡ with_field width value field number }
{
    let mut words = match value {
        Some(value) => value,
        None => zeros(width),
    };
    words.set(field as usize - 1, number);
    words
}

/// The number after a change, or none where it would leave 0 to 2^64 - 1.
pub(crate) fn changed_by(number: u64, up: bool, by: u64) -> Option<u64>
    ensures { result ≡ (if can_change up number by then Some (new_number up number by) else None) }
{
    if up {
        number.checked_add(by)
    } else {
        number.checked_sub(by)
    }
}
