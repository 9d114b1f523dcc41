//! Laws of the definitions, for the crates above.
ghost use Rattle.std.specs.Prelude.{◌≡◌, ◌<◌, ◌≤◌, ℕ, Bool, true, ◌||◌, [], ◌∷◌, ◌++◌, List, Option, Some, IsSome, filter, length};
ghost use Rattle.std.specs.List.{list_all};
ghost use Rattle.venue_rules.specs.declared.facts.Entry.{Entry};
ghost use Rattle.venue_rules.specs.declared.facts.Fact.{Fact as FactValue};
ghost use Rattle.venue_rules.specs.declared.facts.Fact.TheVariants.{Entered, Held, Removed};
ghost use Rattle.venue_rules.specs.declared.facts.HeldSide.{HeldSide as Side};
ghost use Rattle.venue_rules.specs.declared.facts.Removal.{Removal};
ghost use Rattle.venue_rules.specs.Facts.{is_cross_id_used, is_order_id_used};
ghost use Rattle.venue_rules.specs.Delay.{due, find_held, held};
ghost use Rattle.cross_delay.specs.DelayFacts.{delay_facts};
ghost use Rattle.cross_delay.specs.Plans.{drop_plan};

/// The delay's rules read the same off all facts of a venue as off the facts of its delay. A venue's used order
/// identifiers are those of its delay plus those of any facts with all entries and removals. Dropping a side lowers the
/// count of held sides.
pub fn delay_is_read_alone()
    ensures held { (fs : List FactValue) → held (delay_facts fs) ≡ held fs }
    ensures due { (fs : List FactValue) (t : ℕ) → due (delay_facts fs) t ≡ due fs t }
    ensures side { (fs : List FactValue) (who : ℕ) (id : List ℕ) → find_held (delay_facts fs) who id ≡ find_held fs who id }
    ensures crossed { (fs : List FactValue) (who : ℕ) (id : List ℕ) → is_cross_id_used (delay_facts fs) who id ≡ is_cross_id_used fs who id }
    ensures used { (of_book : FactValue → Bool) → ((e : Entry) → of_book (Entered e) ≡ true) → ((r : Removal) → of_book (Removed r) ≡ true) → (fs : List FactValue) (who : ℕ) (id : List ℕ) → is_order_id_used fs who id ≡ (is_order_id_used (filter of_book fs) who id || is_order_id_used (delay_facts fs) who id) }
    ensures falls { (fs : List FactValue) (who : ℕ) (id : List ℕ) (cancel : Option (List ℕ)) → IsSome (find_held fs who id) → length (held (fs ++ (drop_plan who id cancel).facts)) < length (held fs) }
{}

/// A side due at a moment falls due no later, and is held under its name. A property of all facts of a delay holds for
/// the side that is due, and for the one found by its name.
pub fn due_side_is_held()
    ensures passed { (fs : List FactValue) (t : ℕ) (k : Side) → due fs t ≡ Some k → k.due ≤ t }
    ensures named { (fs : List FactValue) (t : ℕ) (k : Side) → due fs t ≡ Some k → IsSome (find_held fs k.order.who k.order.id) }
    ensures due_fact { (p : FactValue → Bool) (fs : List FactValue) (t : ℕ) (k : Side) → list_all p fs ≡ true → due fs t ≡ Some k → p (Held k) ≡ true }
    ensures found_fact { (p : FactValue → Bool) (fs : List FactValue) (who : ℕ) (id : List ℕ) (k : Side) → list_all p fs ≡ true → find_held fs who id ≡ Some k → p (Held k) ≡ true }
{}
