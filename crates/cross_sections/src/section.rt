//! The section of the crosses.

ghost use Rattle.std.specs.Prelude.{◌≡◌, IfOk, OnOk, length};
ghost use Rattle.std.specs.List.{flat_map};
ghost use Rattle.sef_moment.specs.Utc.{utc_text};
ghost use Rattle.page_text.specs.Parts.{with_part, with_parts};
ghost use Rattle.day_tables.specs.Parts.{each_from};
ghost use Rattle.day_sections.specs.Folds.{folded, folds_200, whole_or_folded};
ghost use Rattle.cross_sections.specs.Section.{arrival_parts, cross_part, crosses_parts, end_part, end_parts, end_row, entered_part, line_parts, met_alone, met_link, met_part, more_part, number_of, others_part, price_of, refused_part, setting_of, sides_part, sides_template, some_crosses, table_parts, time_of};

use crate::crossed::{Arrival, Crossed, End};
use crate::template::{
    BUY_FIRST, CANCELLED, CELL_END, CROSS, CROSSES, ENTERED, HELD, ITS_ROWS, LIST_END, MET_ALONE,
    MET_LINK, MET_NONE, MET_OTHERS, MORE_CROSSES, NO_CROSS, NOTHING, REFUSED, SECTION_END,
    SELL_FIRST, TABLE_OF_CROSSES,
};
use day_sections::{
    MOST_FOLDED, add_fold_end, add_fold_head, add_row_number, folds_200, is_listed, of_200,
    text_or_empty, up_to,
};
use day_tables::{clock_text, grouped_text, name_at, number_text, tick_by, ticked_price};
use fix_dictionary::{Identifier, Price, Side};
use instruments::Instruments;
use page_text::Page;
use participants::Participants;
use sef_moment::{Moment, print_utc};
use std::alloc::{AllocError, Global};

/// The files, and how rows and times are printed.
#[derive(Clone, Copy)]
pub struct Form<'a> {
    pub participants: &'a Participants,
    pub instruments: &'a Instruments,
    /// the rows are on the page
    pub shown: bool,
    /// times have their date
    pub dated: bool,
}

fn number_or_empty(alloc: Global, number: Option<u64>) -> Result<Vec<u8>, AllocError>
    ensures { IfOk result (λ text. text.items ≡ number_of number) }
{
    match number {
        None => Ok(Vec::new(alloc)),
        Some(number) => number_text(alloc, number),
    }
}

/// A price with the decimals of the tick of the instrument with this symbol.
fn price_of(
    alloc: Global,
    instruments: &Instruments,
    symbol: &Identifier,
    price: Option<Price>,
) -> Result<Vec<u8>, AllocError>
    ensures { IfOk result (λ text. text.items ≡ price_of instruments.now symbol.now price) }
{
    match price {
        None => Ok(Vec::new(alloc)),
        Some(price) => ticked_price(alloc, tick_by(instruments, symbol.as_slice()), price),
    }
}

fn time_of(alloc: Global, dated: bool, moment: Moment) -> Result<Vec<u8>, AllocError>
    ensures { IfOk result (λ text. text.items ≡ time_of dated moment) }
{
    let printed = print_utc(moment);
    Vec::from_slice(alloc, clock_text(dated, &printed))
}

/// Adds what crossed, of whom, at which price.
fn add_cross(
    alloc: Global,
    page: &mut Page,
    form: &Form<'_>,
    cross: &Crossed,
) -> Result<(), AllocError>
    ensures { OnOk result (page.new ≡ with_part page.old (cross_part (setting_of form.now).market cross.now)) }
{
    let symbol = &cross.first.symbol;
    let row = number_text(alloc, cross.row)?;
    let name = name_at(form.participants, cross.who);
    let quantity = grouped_text(alloc, cross.first.left.get())?;
    let price = price_of(alloc, form.instruments, symbol, cross.terms.price)?;
    page.add(
        CROSS,
        &[
            &row,
            cross.terms.cross.as_slice(),
            name,
            symbol.as_slice(),
            &quantity,
            &price,
        ],
    )
}

fn sides_template(side: Side) -> &'static [u8]
    ensures { result.now ≡ sides_template side }
{
    match side {
        Side::Buy => BUY_FIRST,
        Side::Sell => SELL_FIRST,
    }
}

/// Adds both sides.
fn add_sides(alloc: Global, page: &mut Page, dated: bool, cross: &Crossed) -> Result<(), AllocError>
    ensures { OnOk result (page.new ≡ with_part page.old (sides_part dated cross.now)) }
{
    let order = number_or_empty(alloc, cross.first.order)?;
    let moment = time_of(alloc, dated, cross.moment)?;
    let due = time_of(alloc, dated, cross.due)?;
    page.add(
        sides_template(cross.first.side),
        &[
            &order,
            cross.first.id.as_slice(),
            &moment,
            cross.terms.second.as_slice(),
            &due,
        ],
    )
}

/// Adds the number of an order.
fn add_entered(alloc: Global, page: &mut Page, order: Option<u64>) -> Result<(), AllocError>
    ensures { OnOk result (page.new ≡ with_part page.old (entered_part order)) }
{
    let number = number_or_empty(alloc, order)?;
    page.add(ENTERED, &[&number])
}

/// Adds the number of a trade that is on the page.
fn add_met_link(alloc: Global, page: &mut Page, trade: u64) -> Result<(), AllocError>
    ensures { OnOk result (page.new ≡ with_part page.old (met_link trade)) }
{
    let number = number_text(alloc, trade)?;
    page.add(MET_LINK, &[&number, &number])
}

/// Adds the number of one that is not.
fn add_met_alone(alloc: Global, page: &mut Page, trade: u64) -> Result<(), AllocError>
    ensures { OnOk result (page.new ≡ with_part page.old (met_alone trade)) }
{
    let number = number_text(alloc, trade)?;
    page.add(MET_ALONE, &[&number])
}

/// Adds the trade with the first side.
fn add_met(alloc: Global, page: &mut Page, trade: Option<u64>) -> Result<(), AllocError>
    ensures { OnOk result (page.new ≡ with_part page.old (met_part trade)) }
{
    match trade {
        None => page.add(NOTHING, &[]),
        Some(trade) => if is_listed(trade) {
            add_met_link(alloc, page, trade)
        } else {
            add_met_alone(alloc, page, trade)
        },
    }
}

/// Adds whether it met others, or nothing.
fn add_others(page: &mut Page, others: bool, trade: Option<u64>) -> Result<(), AllocError>
    ensures { OnOk result (page.new ≡ with_part page.old (others_part others trade)) }
{
    if others {
        return page.add(MET_OTHERS, &[]);
    }
    match trade {
        Some(_) => page.add(NOTHING, &[]),
        None => page.add(MET_NONE, &[]),
    }
}

/// Adds as what the held side entered.
fn add_arrival(alloc: Global, page: &mut Page, side: &Arrival) -> Result<(), AllocError>
    ensures { OnOk result (page.new ≡ with_parts page.old (arrival_parts side.now)) }
{
    add_entered(alloc, page, side.order)?;
    add_met(alloc, page, side.trade)?;
    add_others(page, side.others, side.trade)
}

fn add_refused(alloc: Global, page: &mut Page, cause: &Option<Identifier>) -> Result<(), AllocError>
    ensures { OnOk result (page.new ≡ with_part page.old (refused_part cause.now)) }
{
    let cause = text_or_empty(alloc, cause)?;
    page.add(REFUSED, &[&cause])
}

/// Adds what became of the held side.
fn add_end_words(alloc: Global, page: &mut Page, end: &End) -> Result<(), AllocError>
    ensures { OnOk result (page.new ≡ with_parts page.old (end_parts end.now)) }
{
    match end {
        End::Held => page.add(HELD, &[]),
        End::Entered(side) => add_arrival(alloc, page, side),
        End::Cancelled(_) => page.add(CANCELLED, &[]),
        End::Refused(refusal) => add_refused(alloc, page, &refusal.cause),
    }
}

/// Adds at which row.
fn add_end_row(alloc: Global, page: &mut Page, shown: bool, end: &End) -> Result<(), AllocError>
    ensures { OnOk result (page.new ≡ with_parts page.old (end_row shown end.now)) }
{
    match end {
        End::Held => Ok(()),
        End::Entered(side) => add_row_number(alloc, page, shown, side.row),
        End::Cancelled(row) => add_row_number(alloc, page, shown, *row),
        End::Refused(refusal) => add_row_number(alloc, page, shown, refusal.row),
    }
}

/// Adds a cross.
fn add_line(
    alloc: Global,
    page: &mut Page,
    form: &Form<'_>,
    cross: &Crossed,
) -> Result<(), AllocError>
    ensures { OnOk result (page.new ≡ with_parts page.old (line_parts (setting_of form.now) cross.now)) }
{
    add_cross(alloc, page, form, cross)?;
    add_sides(alloc, page, form.dated, cross)?;
    add_end_words(alloc, page, &cross.end)?;
    page.add(ITS_ROWS, &[])?;
    add_row_number(alloc, page, form.shown, cross.row)?;
    add_end_row(alloc, page, form.shown, &cross.end)?;
    page.add(CELL_END, &[])
}

/// Adds some crosses, in order.
fn add_each(
    alloc: Global,
    page: &mut Page,
    form: &Form<'_>,
    crosses: &[Crossed],
) -> Result<(), AllocError>
    ensures { OnOk result (page.new ≡ with_parts page.old (flat_map (line_parts (setting_of form.now)) crosses.now)) }
{
    for cross in crosses {
        add_line(alloc, page, form, cross)?;
    }
    Ok(())
}

/// Adds a table of some crosses.
fn add_table(
    alloc: Global,
    page: &mut Page,
    form: &Form<'_>,
    crosses: &[Crossed],
) -> Result<(), AllocError>
    ensures { OnOk result (page.new ≡ with_parts page.old (table_parts (setting_of form.now) crosses.now)) }
{
    page.add(TABLE_OF_CROSSES, &[])?;
    add_each(alloc, page, form, crosses)?;
    page.add(LIST_END, &[])
}

/// Adds a fold of 200 crosses.
fn add_fold(
    alloc: Global,
    page: &mut Page,
    form: &Form<'_>,
    crosses: &[Crossed],
    number: usize,
) -> Result<(), AllocError>
    ensures { OnOk result (page.new ≡ with_parts page.old (folded (table_parts (setting_of form.now)) crosses.now number)) }
{
    let some = of_200(crosses, number);
    add_fold_head(alloc, page, number, some.len())?;
    add_table(alloc, page, form, some)?;
    add_fold_end(page)
}

/// Adds all folds.
fn add_folds(
    alloc: Global,
    page: &mut Page,
    form: &Form<'_>,
    crosses: &[Crossed],
) -> Result<(), AllocError>
    ensures { OnOk result (page.new ≡ with_parts page.old (each_from (folded (table_parts (setting_of form.now)) crosses.now) 0 (folds_200 (length crosses.now)))) }
{
    for number in 0..folds_200(crosses.len()) {
        add_fold(alloc, page, form, crosses, number)?;
    }
    Ok(())
}

/// Adds crosses whole, or in folds.
fn add_listed(
    alloc: Global,
    page: &mut Page,
    form: &Form<'_>,
    crosses: &[Crossed],
) -> Result<(), AllocError>
    ensures { OnOk result (page.new ≡ with_parts page.old (whole_or_folded (table_parts (setting_of form.now)) crosses.now)) }
{
    if crosses.len() <= 200 {
        add_table(alloc, page, form, crosses)
    } else {
        add_folds(alloc, page, form, crosses)
    }
}

/// Adds the end of the section, and how many more there are.
fn add_more(alloc: Global, page: &mut Page, more: usize) -> Result<(), AllocError>
    ensures { OnOk result (page.new ≡ with_part page.old (more_part more)) }
{
    let count = grouped_text(alloc, more as u64)?;
    page.add(MORE_CROSSES, &[&count])
}

/// Adds the end of the section: whether all are there, or how many more there are.
fn add_end(alloc: Global, page: &mut Page, count: usize) -> Result<(), AllocError>
    ensures { OnOk result (page.new ≡ with_part page.old (end_part count)) }
{
    if count <= MOST_FOLDED {
        page.add(SECTION_END, &[])
    } else {
        add_more(alloc, page, count - MOST_FOLDED)
    }
}

/// Adds the section of a day with crosses.
fn add_some(
    alloc: Global,
    page: &mut Page,
    form: &Form<'_>,
    crosses: &[Crossed],
) -> Result<(), AllocError>
    ensures { OnOk result (page.new ≡ with_parts page.old (some_crosses (setting_of form.now) crosses.now)) }
{
    let count = grouped_text(alloc, crosses.len() as u64)?;
    page.add(CROSSES, &[&count])?;
    add_listed(alloc, page, form, up_to(crosses, MOST_FOLDED))?;
    add_end(alloc, page, crosses.len())
}

/// Adds the section of the crosses: of each its terms, both sides, and what became of the side that was held.
pub fn add_crosses(
    alloc: Global,
    page: &mut Page,
    form: &Form<'_>,
    crosses: &[Crossed],
) -> Result<(), AllocError>
    ensures { OnOk result (page.new ≡ with_parts page.old (crosses_parts (setting_of form.now) crosses.now)) }
{
    if crosses.len() == 0 {
        page.add(NO_CROSS, &[])
    } else {
        add_some(alloc, page, form, crosses)
    }
}
