//! Held sides, by due moment, then by arrival.
ghost use Rattle.std.specs.Prelude.{◌≡◌, ◌≤◌, ◌+◌, ◌<◌, length, filter, find, not, option_map};
ghost use Rattle.std.specs.Vec.{vec_capacity, vec_len};
ghost use Rattle.venue_rules.specs.declared.facts.Fact.TheVariants.{Unheld};
ghost use Rattle.venue_rules.specs.Facts.{is_name};
ghost use Rattle.venue_rules.specs.Delay.{releases};
ghost use Rattle.cross_delay.specs.ByDue.{AreRising, first_due, put_last, step, steps};

use fix_dictionary::Identifier;
use participants::Who;
use sef_moment::Moment;
use venue_rules::{Fact, HeldSide, Release, is_name};

/// The first side, if due at a moment.
pub(crate) fn first_due(sides: &[HeldSide], moment: Moment) -> Option<&HeldSide>
    ensures { option_map (λ h. h.now) result ≡ first_due moment sides.now }
{
    let first = sides.first()?;
    if first.due <= moment.ms() {
        Some(first)
    } else {
        None
    }
}

/// The first side with this participant and identifier.
pub(crate) fn find_side<'a>(
    sides: &'a [HeldSide],
    who: Who,
    id: &Identifier,
) -> Option<&'a HeldSide>
    ensures { option_map (λ h. h.now) result ≡ find (λ h. is_name who id.now h.order.who h.order.id) sides.now }
{
    sides
        .iter()
        .find(|side| is_name(who, id, side.order.who, &side.order.id))
}

// Inserts a side behind those that fall due no later.
fn hold(sides: &mut Vec<HeldSide>, side: &HeldSide)
    requires rising { AreRising 0 sides.old.items }
    requires headroom { vec_len sides.old < vec_capacity sides.old }
    ensures sides { sides.new.items ≡ put_last side.now sides.old.items }
    ensures len { vec_len sides.new ≡ vec_len sides.old + 1 }
    ensures capacity { vec_capacity sides.new ≡ vec_capacity sides.old }
{
    let due = side.due;
    let at = sides.partition_point(|held| held.due <= due);
    let _inserted = sides.insert(at, *side);
}

// Removes the sides with this name.
fn drop_named(sides: &mut Vec<HeldSide>, release: &Release)
    ensures sides { sides.new.items ≡ filter (λ h. not (releases h (Unheld release.now))) sides.old.items }
    ensures len { vec_len sides.new ≤ vec_len sides.old }
    ensures capacity { vec_capacity sides.new ≡ vec_capacity sides.old }
{
    let (who, id) = (release.who, &release.id);
    sides.retain(|side| !is_name(side.order.who, &side.order.id, who, id));
}

// The effect of a fact.
fn add_fact(sides: &mut Vec<HeldSide>, fact: &Fact)
    requires rising { AreRising 0 sides.old.items }
    requires headroom { vec_len sides.old < vec_capacity sides.old }
    ensures sides { sides.new.items ≡ step sides.old.items fact.now }
    ensures len { vec_len sides.new ≤ vec_len sides.old + 1 }
    ensures capacity { vec_capacity sides.new ≡ vec_capacity sides.old }
{
    match fact {
        Fact::Held(side) => hold(sides, side),
        Fact::Unheld(release) => drop_named(sides, release),
        _ => {}
    }
}

/// The effect of facts, within reserved capacity.
pub(crate) fn add_facts(sides: &mut Vec<HeldSide>, facts: &[Fact])
    requires rising { AreRising 0 sides.old.items }
    requires headroom { vec_len sides.old + length facts.now ≤ vec_capacity sides.old }
    ensures { sides.new.items ≡ steps sides.old.items facts.now }
{
    for fact in facts {
        add_fact(sides, fact);
    }
}
