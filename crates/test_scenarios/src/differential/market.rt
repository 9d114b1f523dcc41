//! The venue, without the world.

ghost use Rattle.std.specs.Prelude.{◌≡◌, ◌≤◌, ◌+◌};

use anyhow::{Result, bail};
use fix_dictionary::BoxedApp;
use sef_moment::Moment;
use std::alloc::{AllocError, Global};
use venue_core::{Venue, message_of};
use venue_rules::{Reply, Taken, Who};

/// How many messages a venue is given.
const MAX_ITEMS: u32 = 100_000_000;

/// The message of a reply, and its recipient.
#[derive(Drop)]
pub(crate) struct Addressed {
    pub(crate) to: Who,
    pub(crate) app: BoxedApp,
}

fn addressed_of(alloc: Global, replies: &[Reply]) -> Result<Vec<Addressed>, AllocError> {
    let mut all_addressed = Vec::with_capacity(alloc, replies.len())?;
    for reply in replies {
        let app = BoxedApp::new(alloc, message_of(alloc, reply)?)?;
        all_addressed.push(Addressed { to: reply.to, app })?;
    }
    Ok(all_addressed)
}

// The messages of the venue's replies; after it the venue has gone on.
fn answer(
    alloc: Global,
    venue: &mut Venue,
    taken: &Taken,
    t: Moment,
) -> Result<Vec<Addressed>, AllocError>
    requires { venue.old.items ≤ 100_000_000 }
    ensures { venue.new.items ≤ venue.old.items + 1 }
{
    let plan = venue.plan(taken, t)?;
    match addressed_of(alloc, plan.replies()) {
        Ok(all_addressed) => {
            venue.apply(plan);
            Ok(all_addressed)
        }
        Err(fault) => {
            drop(plan);
            Err(fault)
        }
    }
}

/// A venue, and how many messages it may have taken.
#[derive(Drop)]
pub(crate) struct Market {
    venue: Venue,
    items: u32,
    ghost counted: { venue.items ≤ items },
}

impl Market {
    /// A venue that has taken nothing.
    pub(crate) fn of(venue: Venue) -> Market
        requires { venue.items ≡ 0 }
    {
        Market { venue, items: 0 }
    }

    /// The messages of the venue's replies.
    pub(crate) fn answer(
        &mut self,
        alloc: Global,
        taken: &Taken,
        t: Moment,
    ) -> Result<Vec<Addressed>> {
        if self.items >= MAX_ITEMS {
            bail!("too many messages");
        }
        if self.venue.due(t) {
            bail!("a held side is due");
        }
        self.items += 1;
        Ok(answer(alloc, &mut self.venue, taken, t)?)
    }
}
