//! A request for the prices of an instrument, and the resting orders that its answer shows.

ghost use Rattle.std.specs.Prelude.{◌≡◌, option_map, IfOk};
ghost use Rattle.row_replay.specs.Asking.{asks, entries_in, entries_what};

use fix_dictionary::{
    App, BoxedApp, EntryTypes, FixChar, FixInt, Identifier, Item, MarketDataRequest, SequenceNumber,
};
use participants::Who;
use std::alloc::{AllocError, Global};
use venue_rules::{Reply, ReplyBody, SnapshotEntry, Taken};

/// A request of a participant for the prices of an instrument, the whole book of it.
pub fn asks(alloc: Global, who: Who, symbol: Identifier) -> Result<Taken, AllocError>
    ensures { IfOk result (λ taken. taken ≡ asks who symbol) }
{
    let mut types = Vec::new(alloc);
    if types.push(FixChar::new(b'0')).is_err() {
        return Err(AllocError);
    }
    let request = MarketDataRequest {
        request_id: symbol,
        subscription_type: FixChar::new(b'0'),
        depth: FixInt::new(0),
        entry_types: EntryTypes::from_vec(types),
        symbol,
    };
    let app = BoxedApp::new(alloc, App::MarketDataRequest(request))?;
    Ok(Taken {
        from: who,
        item: Item {
            era: 1,
            number: SequenceNumber::new(1),
            app,
        },
    })
}

fn entries_what(what: &ReplyBody) -> Option<&[SnapshotEntry]>
    ensures { option_map (λ e. e.now) result ≡ entries_what what.now }
{
    match what {
        ReplyBody::BookSnapshot(prices) => Some(prices.entries.as_slice()),
        _ => None,
    }
}

/// The resting orders that the answer to a request for prices shows; nothing where it refuses.
pub fn entries_in(replies: &[Reply]) -> Option<&[SnapshotEntry]>
    ensures { option_map (λ e. e.now) result ≡ entries_in replies.now }
{
    match replies.split_first() {
        Some((first, _)) => entries_what(&first.what),
        None => None,
    }
}
