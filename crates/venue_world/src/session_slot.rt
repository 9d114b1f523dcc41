//! A participant's part of the world.

use fix_dictionary::Item;
use fix_session::Session;
use outbound_queue::Outgoing;
use sef_moment::Moment;

/// A participant's session with its last moment, the message for the venue, and the reply for the session. The engine
/// has its queue.
#[derive(Drop)]
pub(crate) struct SessionSlot {
    pub session: Session,
    pub moment: Moment,
    pub seat: Option<Item>,
    pub reply: Option<Outgoing>,
}
