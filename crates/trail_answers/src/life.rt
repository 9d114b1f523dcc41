//! The life of an order: the order with a number, and each order that replaced it.
ghost use Rattle.std.specs.Prelude.{◌≡◌, ℕ, ◌++◌, ◌∷◌, [], IfOk, OnOk};
ghost use Rattle.row_replay.specs.Inputs.{input_of};
ghost use Rattle.trail_answers.specs.Life.{after_replies, after_reply, at_input, entered_number, is_about, is_asked, is_its_number, is_named, is_numbered, is_standing, life_after, life_of, names_in, names_it, numbers_in, replaces, reports_on, unborn};

use fix_dictionary::{App, Identifier};
use participants::Who;
use std::alloc::{AllocError, Global};
use venue_rules::{OrderStatus, Reply, ReplyBody, Taken};

/// An identifier of a participant's order.
#[derive(Clone, Copy)]
pub struct Name {
    pub who: Who,
    pub id: Identifier,
}

/// What is known of an order after rows of a day.
#[derive(Drop)]
pub struct Life {
    /// its number, and those of its replacements
    pub numbers: Vec<u64>,
    /// each identifier (11) under which it or a replacement entered
    pub names: Vec<Name>,
    /// whether a row was about it
    pub there: bool,
    /// whether the last row was
    pub here: bool,
}

fn first_numbers(alloc: Global, order: Option<u64>) -> Result<Vec<u64>, AllocError>
    ensures { IfOk result (λ numbers. numbers.items ≡ (unborn order).numbers) }
{
    let mut numbers = Vec::new(alloc);
    match order {
        Some(number) => {
            numbers.push(number)?;
            Ok(numbers)
        }
        None => Ok(numbers),
    }
}

/// What is known of an order before the first row.
pub(crate) fn unborn(alloc: Global, order: Option<u64>) -> Result<Life, AllocError>
    ensures { IfOk result (λ life. life_of life ≡ unborn order) }
{
    let numbers = first_numbers(alloc, order)?;
    Ok(Life {
        numbers,
        names: Vec::new(alloc),
        there: false,
        here: false,
    })
}

fn is_numbered(life: &Life, number: u64) -> bool
    ensures { result ≡ is_numbered (life_of life.now) number }
{
    for n in &life.numbers {
        if *n == number {
            return true;
        }
    }
    false
}

fn is_its_number(life: &Life, number: Option<u64>) -> bool
    ensures { result ≡ is_its_number (life_of life.now) number }
{
    match number {
        Some(number) => is_numbered(life, number),
        None => false,
    }
}

fn is_standing(life: &Life, standing: &Option<OrderStatus>) -> bool
    ensures { result ≡ is_standing (life_of life.now) standing.now }
{
    match standing {
        Some(standing) => is_numbered(life, standing.order),
        None => false,
    }
}

/// Whether an identifier of this participant names it.
fn is_named(life: &Life, who: Who, id: &Identifier) -> bool
    ensures { result ≡ is_named (life_of life.now) who id.now }
{
    for name in &life.names {
        if name.who == who && name.id.is(id) {
            return true;
        }
    }
    false
}

/// Whether a reply reports on an order with one of its numbers, or refuses one that has its identifier.
#[tactic(auto, unfolding(crate::specs::Life::reports_on))]
fn reports_on(life: &Life, what: &ReplyBody) -> bool
    ensures { result ≡ reports_on (life_of life.now) what.now }
{
    match what {
        ReplyBody::OrderEntered(report) => is_its_number(life, report.order),
        ReplyBody::OrderFilled(report) => is_its_number(life, report.order.order),
        ReplyBody::OrderUnfilled(report) => is_its_number(life, report.order),
        ReplyBody::OrderCancelled(report) => is_its_number(life, report.order.order),
        ReplyBody::OrderReplaced(report) => is_its_number(life, report.order.order),
        ReplyBody::ChangeRefused(refused) => is_standing(life, &refused.standing),
        ReplyBody::OrderRefused(refused) => is_its_number(life, refused.order.order),
        ReplyBody::CrossRefused(refused) => is_its_number(life, refused.order.order),
        _ => false,
    }
}

/// Whether a reply to this participant reports an order that replaces it.
#[tactic(auto, unfolding(crate::specs::Life::replaces))]
fn replaces(life: &Life, who: Who, what: &ReplyBody) -> bool
    ensures { result ≡ replaces (life_of life.now) who what.now }
{
    match what {
        ReplyBody::OrderReplaced(report) => is_named(life, who, &report.original_id),
        _ => false,
    }
}

fn is_about(life: &Life, reply: &Reply) -> bool
    ensures { result ≡ is_about (life_of life.now) reply.now }
{
    reports_on(life, &reply.what) || replaces(life, reply.to, &reply.what)
}

pub(crate) fn push_to<T: Copy>(list: &mut Vec<T>, item: T) -> Result<(), AllocError>
    ensures { OnOk result (list.new.items ≡ list.old.items ++ item ∷ []) }
{
    if list.push(item).is_err() {
        return Err(AllocError);
    }
    Ok(())
}

/// Adds the number of a replacement.
#[tactic(auto, unfolding(crate::specs::Life::numbers_in))]
fn push_number(numbers: &mut Vec<u64>, what: &ReplyBody) -> Result<(), AllocError>
    ensures { OnOk result (numbers.new.items ≡ numbers.old.items ++ numbers_in what.now) }
{
    match what {
        ReplyBody::OrderReplaced(report) => push_entered(numbers, report.order.order),
        _ => Ok(()),
    }
}

fn push_entered(numbers: &mut Vec<u64>, number: Option<u64>) -> Result<(), AllocError>
    ensures { OnOk result (numbers.new.items ≡ numbers.old.items ++ entered_number number) }
{
    match number {
        Some(number) => push_to(numbers, number),
        None => Ok(()),
    }
}

/// Adds the identifier under which an order entered.
#[tactic(auto, unfolding(crate::specs::Life::names_in))]
fn push_name(names: &mut Vec<Name>, who: Who, what: &ReplyBody) -> Result<(), AllocError>
    ensures { OnOk result (names.new.items ≡ names.old.items ++ names_in who what.now) }
{
    match what {
        ReplyBody::OrderEntered(report) => push_to(names, Name { who, id: report.id }),
        ReplyBody::OrderReplaced(report) => push_to(
            names,
            Name {
                who,
                id: report.order.id,
            },
        ),
        _ => Ok(()),
    }
}

fn note_reply(life: &mut Life, reply: &Reply) -> Result<(), AllocError>
    ensures { OnOk result (life_of life.new ≡ after_reply (life_of life.old) reply.now) }
{
    if !is_about(life, reply) {
        return Ok(());
    }
    push_number(&mut life.numbers, &reply.what)?;
    push_name(&mut life.names, reply.to, &reply.what)?;
    life.there = true;
    life.here = true;
    Ok(())
}

fn note_replies(life: &mut Life, replies: &[Reply]) -> Result<(), AllocError>
    ensures { OnOk result (life_of life.new ≡ after_replies (life_of life.old) replies.now) }
{
    for reply in replies {
        note_reply(life, reply)?;
    }
    Ok(())
}

/// Whether a message is a cancel or a replacement that names it.
#[tactic(auto, unfolding(crate::specs::Life::names_it))]
fn names_it(life: &Life, who: Who, app: &App) -> bool
    ensures { result ≡ names_it (life_of life.now) who app.now }
{
    match app {
        App::OrderCancelRequest(d) => is_named(life, who, &d.original_id),
        App::OrderCancelReplaceRequest(d) => is_named(life, who, &d.original_id),
        _ => false,
    }
}

fn is_asked(life: &Life, taken: &Option<Taken>) -> bool
    ensures { (t : ℕ) → result ≡ is_asked (life_of life.now) (input_of taken.now t) }
{
    match taken {
        Some(taken) => names_it(life, taken.from, taken.item.app.get()),
        None => false,
    }
}

fn note_input(life: &mut Life, taken: &Option<Taken>)
    ensures { (t : ℕ) → life_of life.new ≡ at_input (life_of life.old) (input_of taken.now t) }
{
    let asked = is_asked(life, taken);
    life.there = life.there || asked;
    life.here = asked;
}

/// Notes what a row says of the order that is sought, if one is.
pub(crate) fn note_life(
    life: &mut Life,
    order: Option<u64>,
    taken: &Option<Taken>,
    replies: &[Reply],
) -> Result<(), AllocError>
    ensures { (t : ℕ) → OnOk result (life_of life.new ≡ life_after order (life_of life.old) (input_of taken.now t) replies.now) }
{
    match order {
        Some(_) => {
            note_input(life, taken);
            note_replies(life, replies)
        }
        None => Ok(()),
    }
}
