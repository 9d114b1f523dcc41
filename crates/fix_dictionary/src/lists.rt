//! The repeating groups of messages, each seen as the list of its instances.
ghost use Rattle.fix_dictionary.specs.Values.{FitsEntries, FitsEntryTypes, FitsParties};
ghost use Rattle.std.specs.Prelude.{◌≡◌, length};

use crate::messages::{MarketDataEntry, Party};
use crate::values::FixChar;
use std::marker::Model;

/// Parties (453).
#[derive(Drop)]
pub struct Parties {
    instances: Vec<Party>,
}

impl Model for Parties {
    ghost use Rattle.std.specs.Prelude.{List};
    ghost use Rattle.fix_dictionary.specs.declared.messages.Party.{Party};
    ghost use Rattle.std.specs.Prelude.{length};
    ghost use Rattle.fix_dictionary.specs.Values.{FitsParties};

    ghost Value = { List Party };

    ghost view = { λ a. a.instances.items };

    ghost invariant = { λ a. FitsParties (length a.instances.items) };
}

impl Parties {
    pub fn from_vec(instances: Vec<Party>) -> Parties
        requires { FitsParties (length instances.items) }
        ensures { result ≡ instances.items }
    {
        Parties { instances }
    }

    pub fn as_slice(&self) -> &[Party]
        ensures value { result.now ≡ self.now }
        ensures number { FitsParties (length result.now) }
    {
        &self.instances
    }
}

/// The entry types asked for (267).
#[derive(Drop)]
pub struct EntryTypes {
    instances: Vec<FixChar>,
}

impl Model for EntryTypes {
    ghost use Rattle.std.specs.Prelude.{ℕ, List};
    ghost use Rattle.std.specs.Prelude.{length};
    ghost use Rattle.fix_dictionary.specs.Values.{FitsEntryTypes};

    ghost Value = { List ℕ };

    ghost view = { λ a. a.instances.items };

    ghost invariant = { λ a. FitsEntryTypes (length a.instances.items) };
}

impl EntryTypes {
    pub fn from_vec(instances: Vec<FixChar>) -> EntryTypes
        requires { FitsEntryTypes (length instances.items) }
        ensures { result ≡ instances.items }
    {
        EntryTypes { instances }
    }

    pub fn as_slice(&self) -> &[FixChar]
        ensures value { result.now ≡ self.now }
        ensures number { FitsEntryTypes (length result.now) }
    {
        &self.instances
    }
}

/// The entries of a market data snapshot (268).
#[derive(Drop)]
pub struct MarketDataEntries {
    instances: Vec<MarketDataEntry>,
}

impl Model for MarketDataEntries {
    ghost use Rattle.std.specs.Prelude.{List};
    ghost use Rattle.fix_dictionary.specs.declared.messages.MarketDataEntry.{MarketDataEntry};
    ghost use Rattle.std.specs.Prelude.{length};
    ghost use Rattle.fix_dictionary.specs.Values.{FitsEntries};

    ghost Value = { List MarketDataEntry };

    ghost view = { λ a. a.instances.items };

    ghost invariant = { λ a. FitsEntries (length a.instances.items) };
}

impl MarketDataEntries {
    pub fn from_vec(instances: Vec<MarketDataEntry>) -> MarketDataEntries
        requires { FitsEntries (length instances.items) }
        ensures { result ≡ instances.items }
    {
        MarketDataEntries { instances }
    }

    pub fn as_slice(&self) -> &[MarketDataEntry]
        ensures value { result.now ≡ self.now }
        ensures number { FitsEntries (length result.now) }
    {
        &self.instances
    }
}
