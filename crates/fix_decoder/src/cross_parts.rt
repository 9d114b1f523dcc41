//! Reading of crosses.
ghost use Rattle.std.specs.Prelude.{◌≡◌, ℕ, ◌≤◌, IfOk, Some, length};
ghost use Rattle.fix_fields.specs.Fields.{value_of};
ghost use Rattle.fix_fields.specs.Views.{entries};
ghost use Rattle.fix_validation.specs.Tables.{header_rows, side_rows, new_order_cross_rows};
ghost use Rattle.fix_validation.specs.Holding.{Holds};
ghost use Rattle.fix_validation.specs.GroupHolding.{members, Clean};
ghost use Rattle.fix_validation.specs.Positions.{places, part, first_begin, second_begin};
ghost use Rattle.fix_validation.specs.Stated.{stated, bytes_at, character_in, number_in, price_in, quantity_in, side_in};
ghost use Rattle.fix_decoder.specs.Messages.{cross_side, new_order_cross};

use crate::field_values::{character, identifier, number, optional_price, quantity, side};
use fix_dictionary::{CrossSide, NewOrderCross};
use fix_fields::Field;
use fix_validation::{LocatedField, first_begin, part, second_begin};
use std::alloc::{AllocError, Global};

fn cross_side(fields: &[Field]) -> CrossSide
    requires { Holds side_rows (entries fields.now) }
    ensures { result ≡ cross_side (entries fields.now) }
{
    CrossSide {
        side: side(fields, 54),
        order_id: identifier(fields, 11),
        quantity: quantity(fields, 38),
    }
}

fn side_at(alloc: Global, located: &[LocatedField], place: usize) -> Result<CrossSide, AllocError>
    requires { Holds side_rows (part place (places located.now)) }
    ensures { IfOk result (λ m. m ≡ cross_side (part place (places located.now))) }
{
    let fields = part(alloc, located, place)?;
    Ok(cross_side(&fields))
}

fn cross_of(fields: &[Field], one: CrossSide, other: CrossSide) -> NewOrderCross
    requires { Holds (members 0 new_order_cross_rows) (entries fields.now) }
    ensures { result ≡ record {
      cross_id = bytes_at 548 (entries fields.now);
      cross_type = number_in (bytes_at 549 (entries fields.now));
      prioritization = number_in (bytes_at 550 (entries fields.now));
      first = one;
      second = other;
      symbol = bytes_at 55 (entries fields.now);
      order_type = character_in (bytes_at 40 (entries fields.now));
      price = stated price_in (value_of 44 (entries fields.now));
    } }
{
    NewOrderCross {
        cross_id: identifier(fields, 548),
        cross_type: number(fields, 549),
        prioritization: number(fields, 550),
        first: one,
        second: other,
        symbol: identifier(fields, 55),
        order_type: character(fields, 40),
        price: optional_price(fields, 44),
    }
}

// The sides of a cross, from the two instances of its group.
fn first_side(alloc: Global, located: &[LocatedField]) -> Result<CrossSide, AllocError>
    requires { Holds side_rows (part (first_begin 54 (places located.now)) (places located.now)) }
    ensures { IfOk result (λ m. m ≡ cross_side (part (first_begin 54 (places located.now)) (places located.now))) }
{
    side_at(alloc, located, first_begin(located, 54))
}

fn second_side(alloc: Global, located: &[LocatedField]) -> Result<CrossSide, AllocError>
    requires { Holds side_rows (part (second_begin 54 (places located.now)) (places located.now)) }
    ensures { IfOk result (λ m. m ≡ cross_side (part (second_begin 54 (places located.now)) (places located.now))) }
{
    let place = second_begin(alloc, located, 54)?;
    side_at(alloc, located, place)
}

pub(crate) fn new_order_cross(
    alloc: Global,
    located: &[LocatedField],
) -> Result<NewOrderCross, AllocError>
    requires { Clean header_rows new_order_cross_rows (places located.now) }
    ensures { IfOk result (λ m. m ≡ new_order_cross (places located.now)) }
{
    let fields = part(alloc, located, 0)?;
    let one = first_side(alloc, located)?;
    let other = second_side(alloc, located)?;
    Ok(cross_of(&fields, one, other))
}
