//! BusinessMessageReject (j): messages that are not processed.
ghost use Rattle.std.specs.Prelude.{◌≡◌, [], ◌∷◌};
ghost use Rattle.venue_rules.specs.Answer.{answers, business_reject};
ghost use Rattle.venue_request.specs.Senders.{sender};

use fix_dictionary::Identifier;
use venue_rules::{BusinessRefusal, Reply, Taken};

/// The BusinessMessageReject of the message taken, for this cause.
pub fn business_reject(taken: &Taken, cause: BusinessRefusal) -> Reply
    ensures { answers (result ∷ []) ≡ business_reject (sender taken.now) cause }
{
    let kind = Identifier::from_slice(taken.item.app.get().msg_type());
    Reply::business_reject(taken.from, taken.item.number, kind, cause)
}
