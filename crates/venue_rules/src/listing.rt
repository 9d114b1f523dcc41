//! Readings of the instrument file.
ghost use Rattle.std.specs.Prelude.{◌≡◌, ◌<◌, true, false, length, nat_lt, MatchOption};
ghost use Rattle.instruments.specs.Listing.{instrument_of, is_off_tick, is_unknown_instrument, least_of};

use fix_dictionary::{Identifier, Price, Quantity};
use instruments::Instruments;

/// The instrument with a symbol, by its place in the file.
pub fn instrument_of(instruments: &Instruments, symbol: &Identifier) -> Option<u32>
    ensures { MatchOption result (is_unknown_instrument instruments.now symbol.now ≡ true) (λ x. (x ≡ instrument_of instruments.now symbol.now) × (x < length instruments.now) × (is_unknown_instrument instruments.now symbol.now ≡ false)) }
{
    instruments.find(symbol.as_slice())
}

/// Whether a price is no multiple of the instrument's tick.
pub fn is_off_tick(instruments: &Instruments, instrument: u32, price: Price) -> bool
    requires { instrument < length instruments.now }
    ensures { result ≡ is_off_tick instruments.now instrument price }
{
    let tick = instruments.get(instrument).tick;
    price.get().unsigned_abs() % tick != 0
}

/// Whether a quantity is below the instrument's least.
pub fn is_below_least(instruments: &Instruments, instrument: u32, quantity: Quantity) -> bool
    requires { instrument < length instruments.now }
    ensures { result ≡ nat_lt quantity (least_of instruments.now instrument) }
{
    quantity.get() < instruments.get(instrument).least
}
