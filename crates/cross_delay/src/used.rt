//! The identifiers that facts use.
ghost use Rattle.std.specs.Prelude.{◌≡◌, ◌≤◌, ◌++◌, length};
ghost use Rattle.venue_rules.specs.declared.facts.Fact.TheVariants.{Unheld};
ghost use Rattle.cross_delay.specs.Used.{cross_name, cross_names, order_name, order_names};

use client_ids::{ClientId, IdIndex};
use venue_rules::{Fact, Release};

// The order identifier that a fact of the delay uses: of a held side, or of the cancel of one.
fn order_name(fact: &Fact) -> Option<ClientId>
    ensures { result ≡ order_name fact.now }
{
    match fact {
        Fact::Held(side) => Some(ClientId {
            who: side.order.who,
            id: side.order.id,
        }),
        Fact::Unheld(release) => cancel_name(release),
        _ => None,
    }
}

// The identifier of the cancel that ends a held side, if any.
fn cancel_name(release: &Release) -> Option<ClientId>
    ensures { result ≡ order_name (Unheld release.now) }
{
    match &release.cancel {
        Some(cancel) => Some(ClientId {
            who: release.who,
            id: *cancel,
        }),
        None => None,
    }
}

// The cross identifier that a fact of the delay uses.
fn cross_name(fact: &Fact) -> Option<ClientId>
    ensures { result ≡ cross_name fact.now }
{
    match fact {
        Fact::Held(side) => Some(ClientId {
            who: side.order.who,
            id: side.cross,
        }),
        _ => None,
    }
}

#[tactic(auto, using(crate::proofs::Readings::order_names_on))]
/// Adds the order identifiers of facts, within reserved capacity.
pub(crate) fn add_order_names(orders: &mut IdIndex, facts: &[Fact])
    requires { length facts.now ≤ orders.old.headroom }
    ensures { orders.new.names ≡ orders.old.names ++ order_names facts.now }
{
    for fact in facts {
        if let Some(name) = order_name(fact) {
            orders.add(name);
        }
    }
}

#[tactic(auto, using(crate::proofs::Readings::cross_names_on))]
/// Adds the cross identifiers of facts, within reserved capacity.
pub(crate) fn add_cross_names(crosses: &mut IdIndex, facts: &[Fact])
    requires { length facts.now ≤ crosses.old.headroom }
    ensures { crosses.new.names ≡ crosses.old.names ++ cross_names facts.now }
{
    for fact in facts {
        if let Some(name) = cross_name(fact) {
            crosses.add(name);
        }
    }
}
