//! A law that joins the groups of fields and the groups of messages: the contract of a function with no parameters.
ghost use Rattle.std.specs.Prelude.{◌≡◌, ℕ, ◌≤◌, ◌==◌, true, None, Some, List, [], ◌∷◌, length, filter, is_some};
ghost use Rattle.fix_fields.specs.Fields.{Entry};
ghost use Rattle.fix_fields.specs.Groups.{is_own, HasNo, IsNoGroup};
ghost use Rattle.fix_fields.specs.declared.group.Group.{Group};
ghost use Rattle.fix_fields.specs.declared.group.GroupFault.TheVariants as groups;
ghost use Rattle.fix_dictionary.specs.Kinds.{is_grouped};
ghost use Rattle.fix_dictionary.specs.declared.kinds.MessageType.TheVariants as types;
ghost use Rattle.fix_validation.specs.declared.faults.DictFault.TheVariants as faults;
ghost use Rattle.fix_validation.specs.Positions.{group_of, first_tag, is_count, begins, part};
ghost use Rattle.fix_decoder.specs.Messages.{fault_in, type_in};
ghost use Rattle.fix_group_laws.specs.Tied.{IsOfTable, IsTied, is_counted, group_in, stands_alone, rows_in, placed_in};

/// Law call (docs/ARCHITECTURE.md), for a message whose type has groups.
///
/// Where no tag occurs twice in its part and no count is wrong, each group of the type's table is a group as
/// `fix_fields` defines it. Instance by instance, the fields in the group itself are the part that their positions make
/// of it; or no field has a tag of the group, and the positions make no instance. This holds of a group outside of
/// groups, and of one inside of a group that has one instance, part `q`. The fields outside of groups are those that
/// the header names or the table puts there. For each tag there is such a group, made of the table's rows.
///
/// Where the fields have no fault, the instruments of a request for quotes, around its parties, are one instance.
///
/// Conversely, where the first fault is the count of a group outside of groups, the fields are a wrong count in
/// `fix_fields`: a field has a tag of the group, and the fields are not that group, whatever the instances. The same
/// holds for a group inside of one that has at most one instance. In any group, a field has a tag of it, and the tag of
/// the fault is a count that the table names. Where the first fault is a tag that occurs twice, at least two fields of
/// one part have it.
pub fn places_are_groups()
    ensures outside { (fields : List Entry) (tag : ℕ) (g : Group) → is_grouped (type_in fields) ≡ true → is_counted (fault_in fields) ≡ true
        → is_count tag (rows_in fields) ≡ true → group_of tag (rows_in fields) ≡ Some 0
        → IsOfTable (rows_in fields) tag g → IsTied (rows_in fields) tag 0 g fields (placed_in fields) }
    ensures inside { (fields : List Entry) (tag around q : ℕ) (g : Group) → is_grouped (type_in fields) ≡ true → is_counted (fault_in fields) ≡ true
        → is_count tag (rows_in fields) ≡ true → group_of tag (rows_in fields) ≡ Some around → group_of around (rows_in fields) ≡ Some 0
        → begins (first_tag around (rows_in fields)) 0 (placed_in fields) ≡ q ∷ []
        → IsOfTable (rows_in fields) tag g → IsTied (rows_in fields) tag q g fields (placed_in fields) }
    ensures sole { (fields : List Entry) → type_in fields ≡ types.QuoteRequest → fault_in fields ≡ None
        → (q : ℕ) × (begins (first_tag 146 (rows_in fields)) 0 (placed_in fields) ≡ q ∷ []) }
    ensures alone { (fields : List Entry) → is_grouped (type_in fields) ≡ true → is_counted (fault_in fields) ≡ true
        → part 0 (placed_in fields) ≡ filter (λ (f : Entry). stands_alone (rows_in fields) f.0) fields }
    ensures listed { (fields : List Entry) (tag : ℕ) → is_grouped (type_in fields) ≡ true → IsOfTable (rows_in fields) tag (group_in (rows_in fields) tag) }
    ensures refused { (fields : List Entry) (tag : ℕ) (g : Group) → is_grouped (type_in fields) ≡ true
        → fault_in fields ≡ Some (faults.Count tag) → group_of tag (rows_in fields) ≡ Some 0
        → IsOfTable (rows_in fields) tag g → IsNoGroup g fields groups.Count }
    ensures refused_inside { (fields : List Entry) (tag around : ℕ) (g : Group) → is_grouped (type_in fields) ≡ true
        → fault_in fields ≡ Some (faults.Count tag) → group_of tag (rows_in fields) ≡ Some around
        → group_of around (rows_in fields) ≡ Some 0 → length (begins (first_tag around (rows_in fields)) 0 (placed_in fields)) ≤ 1
        → IsOfTable (rows_in fields) tag g → IsNoGroup g fields groups.Count }
    ensures named { (fields : List Entry) (tag : ℕ) → is_grouped (type_in fields) ≡ true → fault_in fields ≡ Some (faults.Count tag)
        → (is_count tag (rows_in fields) ≡ true) × (is_some (group_of tag (rows_in fields)) ≡ true) }
    ensures present { (fields : List Entry) (tag : ℕ) (g : Group) → is_grouped (type_in fields) ≡ true → fault_in fields ≡ Some (faults.Count tag)
        → IsOfTable (rows_in fields) tag g → HasNo (is_own g) fields → ⊥ }
    ensures doubled { (fields : List Entry) (tag : ℕ) → is_grouped (type_in fields) ≡ true → fault_in fields ≡ Some (faults.Twice tag)
        → (q : ℕ) × (2 ≤ length (filter (λ (f : Entry). f.0 == tag) (part q (placed_in fields)))) }
{}
