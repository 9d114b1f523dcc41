//! A page, part by part.
ghost use Rattle.std.specs.Prelude.{◌≡◌, [], OnErr, OnOk};
ghost use Rattle.page_text.specs.Parts.{with_part};
ghost use Rattle.page_text.specs.Texts.{texts};

use crate::fill::fill;
use crate::spot::Spot;
use std::alloc::{AllocError, Global};
use std::marker::Model;

/// The text of a page so far. Contracts see its bytes.
#[derive(Drop)]
pub struct Page {
    text: Vec<u8>,
    spot: Spot,
}

impl Model for Page {
    ghost use Rattle.std.specs.Prelude.{◌≡◌, ℕ, List};
    ghost use Rattle.page_text.specs.declared.spot.Spot.TheVariants.{Text};
    ghost use Rattle.page_text.specs.Spots.{after};

    ghost Value = { List ℕ };

    ghost view = { λ p. p.text.items };

    ghost invariant = { λ p. p.spot ≡ after Text p.text.items };
}

impl Page {
    /// A page without parts.
    pub fn new(alloc: Global) -> Page
        ensures { result ≡ [] }
    {
        Page {
            text: Vec::new(alloc),
            spot: Spot::Text,
        }
    }

    /// Adds a part: a template with values in its places, in order. After an error the page is empty.
    pub fn add(&mut self, template: &[u8], values: &[&[u8]]) -> Result<(), AllocError>
        ensures added { OnOk result (self.new ≡ with_part self.old (record { template = template.now; values = texts values.now })) }
        ensures emptied { OnErr result (self.new ≡ []) }
    {
        match fill(&mut self.text, self.spot, template, values) {
            Ok(spot) => {
                self.spot = spot;
                Ok(())
            }
            Err(error) => {
                self.text.clear();
                self.spot = Spot::Text;
                Err(error)
            }
        }
    }

    /// The text so far.
    pub fn text(&self) -> &[u8]
        ensures { result.now ≡ self.now }
    {
        self.text.as_slice()
    }
}
