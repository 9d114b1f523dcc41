//! The numbers of a TOML document at its keys.

ghost use Rattle.std.specs.Prelude.{◌≡◌, ◌||◌, ◌&&◌, not, pos, nat_abs, nat_le, int_lt};
ghost use Rattle.toml.specs.Data.{get};
ghost use Rattle.toml.specs.View.{view};
ghost use Rattle.instruments.specs.Numbers.{is_no_number, number_at, number_or};

use toml::Value;

fn is_out_of(number: i64, low: u64, high: u64) -> bool
    ensures { result ≡ (int_lt number (pos 0) || not (nat_le low (nat_abs number) && nat_le (nat_abs number) high)) }
{
    number < 0 || !(low <= number.unsigned_abs() && number.unsigned_abs() <= high)
}

/// Whether a value is stated that is not a whole number from low to high.
pub(crate) fn is_no_number(entry: &Value, key: &str, low: u64, high: u64) -> bool
    ensures { result ≡ is_no_number low high (get key.now (view entry.now)) }
{
    match entry.get(key) {
        Some(Value::Integer(number)) => is_out_of(*number, low, high),
        None => false,
        _ => true,
    }
}

/// The number at a key, or 0 where there is none.
pub(crate) fn number_at(entry: &Value, key: &str) -> u64
    ensures { result ≡ number_at key.now (view entry.now) }
{
    match entry.get(key) {
        Some(Value::Integer(number)) => number.unsigned_abs(),
        _ => 0,
    }
}

/// The number at a key, or the usual one where none is stated.
pub(crate) fn number_or(entry: &Value, usual: u64, key: &str) -> u64
    ensures { result ≡ number_or usual key.now (view entry.now) }
{
    match entry.get(key) {
        Some(Value::Integer(number)) => number.unsigned_abs(),
        _ => usual,
    }
}
