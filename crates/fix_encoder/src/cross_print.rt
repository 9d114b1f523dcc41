//! Printing of crosses.
ghost use Rattle.std.specs.Prelude.{◌≡◌, ℕ, ◌≤◌, ◌++◌, ◌∷◌, [], decimal, Some, length};
ghost use Rattle.fix_fields.specs.Fields.{Appends};
ghost use Rattle.fix_dictionary.specs.Fits.{FitsCrossSide, FitsNewOrderCross};
ghost use Rattle.fix_encoder.specs.Printed.{printed_option, slots};
ghost use Rattle.fix_dictionary.specs.Text.{slots_text, given, side_text, new_order_cross_slots};

use crate::print::{Printed, Slot, append_slots, printed_price, printed_side};
use fix_dictionary::{CrossSide, NewOrderCross};
use std::alloc::AllocError;

macro_rules! slot {
    ($tag:expr, $value:expr) => {
        Slot {
            tag: $tag,
            value: $value,
        }
    };
}

fn side_fits(m: &CrossSide)
    ensures { FitsCrossSide m.now }
{
    let _ = m.order_id.as_slice();
    let _ = m.quantity.get();
}

fn append_cross(out: &mut Vec<u8>, m: &NewOrderCross) -> Result<(), AllocError>
    ensures { Appends out.old.items out.new.items (slots_text (new_order_cross_slots m.now)) result }
{
    append_slots(
        out,
        &[
            slot!(548, Some(Printed::Bytes(m.cross_id.as_slice()))),
            slot!(549, Some(Printed::Number(u64::from(m.cross_type.get())))),
            slot!(
                550,
                Some(Printed::Number(u64::from(m.prioritization.get())))
            ),
            slot!(552, Some(Printed::Number(2))),
            slot!(54, Some(printed_side(m.first.side))),
            slot!(11, Some(Printed::Bytes(m.first.order_id.as_slice()))),
            slot!(38, Some(Printed::Number(m.first.quantity.get()))),
            slot!(54, Some(printed_side(m.second.side))),
            slot!(11, Some(Printed::Bytes(m.second.order_id.as_slice()))),
            slot!(38, Some(Printed::Number(m.second.quantity.get()))),
            slot!(55, Some(Printed::Bytes(m.symbol.as_slice()))),
            slot!(40, Some(Printed::Byte(m.order_type.get()))),
            slot!(44, printed_price(m.price)),
        ],
    )
}

pub(crate) fn print_new_order_cross(out: &mut Vec<u8>, m: &NewOrderCross) -> Result<(), AllocError>
    ensures text { Appends out.old.items out.new.items (slots_text (new_order_cross_slots m.now)) result }
    ensures fits { FitsNewOrderCross m.now }
{
    let _ = m.cross_id.as_slice();
    let _ = m.cross_type.get();
    let _ = m.prioritization.get();
    side_fits(&m.first);
    side_fits(&m.second);
    let _ = m.symbol.as_slice();
    let _ = m.order_type.get();
    let _ = printed_price(m.price);
    append_cross(out, m)
}
