//! Identifiers and texts, in the order of their bytes.

ghost use Rattle.std.specs.Prelude.{◌≡◌, Some, refl, bytes_eq};
ghost use Rattle.std.specs.Ordering.{nat_cmp};
ghost use Rattle.std.specs.Cmp.{on_equiv, on_total, on_po, on_per, partial_equiv_from_equiv};
ghost use Rattle.std.specs.Cmp.Lexicographic.{slice_cmp, nat_list_eq_equiv, nat_list_cmp_total, texts_ties, texts_po};

use fix_dictionary::{Identifier, Text};
use std::cmp::Ordering;

/// An identifier that is looked up, as that of a request (131) or of an instrument (55).
#[derive(Clone, Copy)]
pub struct Name {
    pub id: Identifier,
}

impl PartialEq for Name {
    ghost use Rattle.participant_activity.specs.declared.key.Name.{Name};

    ghost eq = { λ a b. bytes_eq a.id b.id };

    ghost laws = { on_per (λ (a : Name). a.id) (partial_equiv_from_equiv nat_list_eq_equiv) };

    fn eq(&self, other: &Name) -> bool {
        self.id.as_slice() == other.id.as_slice()
    }
}

impl Eq for Name {
    ghost use Rattle.participant_activity.specs.declared.key.Name.{Name};

    ghost laws = { on_equiv (λ (a : Name). a.id) nat_list_eq_equiv };
}

impl PartialOrd for Name {
    ghost use Rattle.participant_activity.specs.declared.key.Name.{Name};

    ghost partial_cmp = { λ a b. Some (slice_cmp nat_cmp a.id b.id) };

    ghost laws = { on_po (λ (a : Name). a.id) texts_po };

    fn partial_cmp(&self, other: &Name) -> Option<Ordering> {
        Some(self.cmp(other))
    }
}

impl Ord for Name {
    ghost use Rattle.participant_activity.specs.declared.key.Name.{Name};

    ghost cmp = { λ a b. slice_cmp nat_cmp a.id b.id };

    ghost total = { on_total (λ (a : Name). a.id) nat_list_cmp_total };

    ghost matches_partial_cmp = { λ a b. refl };

    ghost matches_eq = { λ a b. texts_ties a.id b.id };

    fn cmp(&self, other: &Name) -> Ordering {
        self.id.as_slice().cmp(other.id.as_slice())
    }
}

/// The text (58) of a refusal.
#[derive(Drop)]
pub struct Cause {
    pub text: Text,
}

impl PartialEq for Cause {
    ghost use Rattle.participant_activity.specs.declared.key.Cause.{Cause};

    ghost eq = { λ a b. bytes_eq a.text b.text };

    ghost laws = { on_per (λ (a : Cause). a.text) (partial_equiv_from_equiv nat_list_eq_equiv) };

    fn eq(&self, other: &Cause) -> bool {
        self.text.as_slice() == other.text.as_slice()
    }
}

impl Eq for Cause {
    ghost use Rattle.participant_activity.specs.declared.key.Cause.{Cause};

    ghost laws = { on_equiv (λ (a : Cause). a.text) nat_list_eq_equiv };
}

impl PartialOrd for Cause {
    ghost use Rattle.participant_activity.specs.declared.key.Cause.{Cause};

    ghost partial_cmp = { λ a b. Some (slice_cmp nat_cmp a.text b.text) };

    ghost laws = { on_po (λ (a : Cause). a.text) texts_po };

    fn partial_cmp(&self, other: &Cause) -> Option<Ordering> {
        Some(self.cmp(other))
    }
}

impl Ord for Cause {
    ghost use Rattle.participant_activity.specs.declared.key.Cause.{Cause};

    ghost cmp = { λ a b. slice_cmp nat_cmp a.text b.text };

    ghost total = { on_total (λ (a : Cause). a.text) nat_list_cmp_total };

    ghost matches_partial_cmp = { λ a b. refl };

    ghost matches_eq = { λ a b. texts_ties a.text b.text };

    fn cmp(&self, other: &Cause) -> Ordering {
        self.text.as_slice().cmp(other.text.as_slice())
    }
}
