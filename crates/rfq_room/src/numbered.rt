//! Rooms and quotes by number, which is the place from 1, and by the venue's identifiers of them.
ghost use Rattle.std.specs.Prelude.{◌≡◌, ◌≢◌, ◌↔◌, IsTrue, ℕ, ◌<◌, ◌≤◌, ◌+◌, ◌*◌, ◌^◌, ◌==◌, find, length, slice_index, map, option_map, MatchOption, bytes_eq, decimal, true, false};
ghost use Rattle.std.specs.Char.{digit_value};
ghost use Rattle.venue_rules.specs.Rooms.{printed};
ghost use Rattle.rfq_room.specs.Numbered.{AreFrom};

use fix_dictionary::Identifier;
use venue_rules::{Room, RoomQuote};

// The number continued by a digit; none for another byte, or from 2^64 on.
fn with_digit(number: u64, byte: u8) -> Option<u64>
    ensures { MatchOption result (digit_value byte < 10 → 2 ^ 64 ≤ number * 10 + digit_value byte) (λ more. (digit_value byte < 10) × (more ≡ number * 10 + digit_value byte) × (more < 2 ^ 64)) }
{
    if !byte.is_ascii_digit() {
        return None;
    }
    number.checked_mul(10)?.checked_add(u64::from(byte - b'0'))
}

// At least one digit, without a leading 0 before others.
fn is_plain(digits: &[u8]) -> bool
    ensures { IsTrue result ↔ ((0 < length digits.now) × (slice_index digits.now 0 ≡ 48 → length digits.now ≡ 1)) }
{
    !digits.is_empty() && (digits[0] != b'0' || digits.len() == 1)
}

// The number with these digits.
fn spelled(digits: &[u8]) -> Option<u64>
    ensures { MatchOption result ((n : ℕ) → n < 2 ^ 64 → digits.now ≢ decimal n) (λ n. (digits.now ≡ decimal n) × (n < 2 ^ 64)) }
{
    if !is_plain(digits) {
        return None;
    }
    let mut number = 0;
    for digit in digits {
        let Some(more) = with_digit(number, *digit) else {
            return None;
        };
        number = more;
    }
    Some(number)
}

// The number with this printed identifier, if any.
fn number_of(prefix: u8, id: &Identifier) -> Option<u64>
    ensures { MatchOption result ((n : ℕ) → n < 2 ^ 64 → bytes_eq (printed prefix n) id.now ≡ false) (λ n. (bytes_eq (printed prefix n) id.now ≡ true) × (n < 2 ^ 64)) }
{
    let (first, digits) = id.as_slice().split_first()?;
    if *first != prefix {
        return None;
    }
    spelled(digits)
}

fn count_rooms(rooms: &[Room]) -> usize
    ensures value { result ≡ length rooms.now }
    ensures bound { result < 2 ^ 63 }
{
    rooms.len()
}

fn count_quotes(quotes: &[RoomQuote]) -> usize
    ensures value { result ≡ length quotes.now }
    ensures bound { result < 2 ^ 63 }
{
    quotes.len()
}

/// The room with this number.
pub(crate) fn room_by_number(rooms: &[Room], number: u64) -> Option<&Room>
    requires { AreFrom 1 (map (λ r. r.number) rooms.now) }
    ensures { option_map (λ r. r.now) result ≡ find (λ r. r.number == number) rooms.now }
{
    if number == 0 {
        return None;
    }
    rooms.get((number - 1) as usize)
}

/// The quote with this number.
pub(crate) fn quote_by_number(quotes: &[RoomQuote], number: u64) -> Option<&RoomQuote>
    requires { AreFrom 1 (map (λ q. q.number) quotes.now) }
    ensures { option_map (λ q. q.now) result ≡ find (λ q. q.number == number) quotes.now }
{
    if number == 0 {
        return None;
    }
    quotes.get((number - 1) as usize)
}

/// The room with this identifier of the venue's.
pub(crate) fn find_room<'a>(rooms: &'a [Room], id: &Identifier) -> Option<&'a Room>
    requires { AreFrom 1 (map (λ r. r.number) rooms.now) }
    ensures { option_map (λ r. r.now) result ≡ find (λ r. bytes_eq (printed 82 r.number) id.now) rooms.now }
{
    let _count = count_rooms(rooms);
    let Some(number) = number_of(b'R', id) else {
        return None;
    };
    room_by_number(rooms, number)
}

/// The quote with this identifier of the venue's.
pub(crate) fn find_quote<'a>(quotes: &'a [RoomQuote], id: &Identifier) -> Option<&'a RoomQuote>
    requires { AreFrom 1 (map (λ q. q.number) quotes.now) }
    ensures { option_map (λ q. q.now) result ≡ find (λ q. bytes_eq (printed 81 q.number) id.now) quotes.now }
{
    let _count = count_quotes(quotes);
    let Some(number) = number_of(b'Q', id) else {
        return None;
    };
    quote_by_number(quotes, number)
}
