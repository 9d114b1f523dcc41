//! Numbers in words, as the venue prints them.

ghost use Rattle.std.specs.Prelude.{◌≡◌, ◌++◌, ℕ, ◌<◌, ◌^◌, Some, IfSome, codes, decimal};
ghost use Rattle.trail_questions.specs.Numbers.{SpellsSpan};

use itoa::Buffer;
use trail_answers::RowSpan;

/// The number that these digits are, as the venue prints it.
pub fn plain_number(digits: &str) -> Option<u64>
    ensures printed { IfSome result (λ number. digits.now ≡ decimal number) }
    ensures each { (number : ℕ) → number < 2 ^ 64 → digits.now ≡ decimal number → result ≡ Some number }
{
    let number = match digits.parse::<u64>() {
        Ok(number) => number,
        Err(_) => return None,
    };
    let mut buffer = Buffer::new();
    if buffer.format(number) == digits {
        Some(number)
    } else {
        None
    }
}

/// The number of a trade in a word: `T` and its digits.
pub fn trade_number(word: &str) -> Option<u64>
    ensures printed { IfSome result (λ number. word.now ≡ codes "T" ++ decimal number) }
    ensures each { (number : ℕ) → number < 2 ^ 64 → word.now ≡ codes "T" ++ decimal number → result ≡ Some number }
{
    match word.strip_prefix("T") {
        Some(digits) => plain_number(digits),
        None => None,
    }
}

/// The number of an order in a word: `O` and its digits.
pub fn order_number(word: &str) -> Option<u64>
    ensures printed { IfSome result (λ number. word.now ≡ codes "O" ++ decimal number) }
    ensures each { (number : ℕ) → number < 2 ^ 64 → word.now ≡ codes "O" ++ decimal number → result ≡ Some number }
{
    match word.strip_prefix("O") {
        Some(digits) => plain_number(digits),
        None => None,
    }
}

/// The number of a room in a word: `R` and its digits.
pub fn room_number(word: &str) -> Option<u64>
    ensures printed { IfSome result (λ number. word.now ≡ codes "R" ++ decimal number) }
    ensures each { (number : ℕ) → number < 2 ^ 64 → word.now ≡ codes "R" ++ decimal number → result ≡ Some number }
{
    match word.strip_prefix("R") {
        Some(digits) => plain_number(digits),
        None => None,
    }
}

fn span_of(first: &str, last: &str) -> Option<RowSpan>
    ensures printed { IfSome result (λ span. (first.now ≡ decimal span.first) × (last.now ≡ decimal span.last)) }
    ensures each { (span : _) → span.first < 2 ^ 64 → span.last < 2 ^ 64 → first.now ≡ decimal span.first → last.now ≡ decimal span.last → result ≡ Some span }
{
    match (plain_number(first), plain_number(last)) {
        (Some(first), Some(last)) => Some(RowSpan { first, last }),
        _ => None,
    }
}

/// The row `N`, or the rows `N-M`.
pub fn span_in(word: &str) -> Option<RowSpan>
    ensures spelled { IfSome result (SpellsSpan word.now) }
    ensures each { (span : _) → span.first < 2 ^ 64 → span.last < 2 ^ 64 → SpellsSpan word.now span → result ≡ Some span }
{
    match word.split_once('-') {
        Some((first, last)) => span_of(first, last),
        None => match plain_number(word) {
            Some(number) => Some(RowSpan {
                first: number,
                last: number,
            }),
            None => None,
        },
    }
}
