//! The message of a reply, as queued.

ghost use Rattle.std.specs.Prelude.{◌≡◌, IfOk};
ghost use Rattle.venue_rules.specs.Messages.{message};

use fix_dictionary::BoxedApp;
use report_writer::message_of;
use std::alloc::{AllocError, Global};
use venue_rules::Reply;

/// The message of a reply; fails only for an allocation failure.
pub fn boxed_message(alloc: Global, reply: &Reply) -> Result<BoxedApp, AllocError>
    ensures { IfOk result (λ app. app ≡ message reply.now.what) }
{
    let app = message_of(alloc, reply)?;
    BoxedApp::new(alloc, app)
}
