//! The text of alarms, as lines or as rows of a table.

ghost use Rattle.std.specs.Prelude.{◌≡◌, ◌++◌, ◌∷◌, [], codes, decimal, option_map, OnOk, IfOk, Some};
ghost use Rattle.std.specs.List.{flat_map};
ghost use Rattle.csv.specs.Records.{fields_of, partial_of};
ghost use Rattle.csv.specs.Writing.{row_text};
ghost use Rattle.fix_fields.specs.Forms.{price_text};
ghost use Rattle.participants.specs.Relations.{name_of};
ghost use Rattle.message_words.specs.Cells.{setup};
ghost use Rattle.message_words.specs.Parts.{parts_text, shown, shown_option};
ghost use Rattle.surveillance.specs.Texts.{alarm_fields, alarm_line, alarm_row, alarm_said, alarm_text, alarm_words, base_words, bound_words, cell, field_names, figure_text, found_words, head_line, head_text, kind_words, moment_text_of, numbered, others_text, others_words, row_text_of, subject_fields, watch_text, who_words};

use crate::alarm::{Alarm, Figure, Kind, Others, Place};
use crate::form::Form;
use crate::thresholds::Thresholds;
use csv::ByteRecord;
use fix_dictionary::Price;
use message_words::{
    Part, Value, append_parts, bytes, number, push_moment, push_number, row_bytes,
};
use participants::{Participants, Who};
use std::alloc::{AllocError, Global};
use trade_blotter::{append, append_number, append_price, name_at};

macro_rules! part {
    ($before:expr, $value:expr) => {
        Part {
            before: $before,
            value: $value,
        }
    };
}

fn kind_words(kind: Kind) -> &'static [u8]
    ensures { result.now ≡ kind_words kind }
{
    match kind {
        Kind::OwnTrade => b"self-trade",
        Kind::OwnWithHeld => b"self-trade with a held side",
        Kind::RelatedTrade => b"related trade",
        Kind::CancelledSoon => b"cancelled soon",
        Kind::LinkedSoon => b"linked soon",
        Kind::SentAgain => b"next order after a refusal",
        Kind::WorseThanShown => b"worse than the book shown",
        Kind::ManyOrders => b"many orders",
        Kind::ManyCancels => b"many cancels",
        Kind::ManyHits => b"many hits",
        Kind::SameThree => b"same three",
    }
}

fn found_words(kind: Kind) -> &'static [u8]
    ensures { result.now ≡ found_words kind }
{
    match kind {
        Kind::OwnTrade => b"",
        Kind::OwnWithHeld => b"",
        Kind::RelatedTrade => b"",
        Kind::CancelledSoon => b", ",
        Kind::LinkedSoon => b", ",
        Kind::SentAgain => b", ",
        Kind::WorseThanShown => b", price ",
        Kind::ManyOrders => b", orders ",
        Kind::ManyCancels => b", cancelled ",
        Kind::ManyHits => b", hit ",
        Kind::SameThree => b", requests ",
    }
}

#[tactic(auto, unfolding(crate::specs::Texts::base_words))]
fn base_words(kind: Kind) -> &'static [u8]
    ensures { result.now ≡ base_words kind }
{
    match kind {
        Kind::LinkedSoon => b" ms after the delay of ",
        Kind::SentAgain => b" ms after the refusal in row ",
        Kind::ManyOrders => b", trades in the book ",
        Kind::ManyCancels => b" of ",
        Kind::ManyHits => b" of ",
        _ => b"",
    }
}

#[tactic(auto, unfolding(crate::specs::Texts::bound_words))]
fn bound_words(kind: Kind) -> &'static [u8]
    ensures { result.now ≡ bound_words kind }
{
    match kind {
        Kind::CancelledSoon => b" ms after it entered, threshold ",
        Kind::WorseThanShown => b", shown ",
        _ => b", threshold ",
    }
}

#[tactic(auto, unfolding(crate::specs::Texts::who_words))]
fn who_words(kind: Kind) -> &'static [u8]
    ensures { result.now ≡ who_words kind }
{
    match kind {
        Kind::OwnTrade => b": buyer ",
        Kind::OwnWithHeld => b": buyer ",
        Kind::RelatedTrade => b": buyer ",
        Kind::LinkedSoon => b": buyer ",
        _ => b": ",
    }
}

#[tactic(auto, unfolding(crate::specs::Texts::others_words))]
fn others_words(kind: Kind) -> &'static [u8]
    ensures { result.now ≡ others_words kind }
{
    match kind {
        Kind::OwnTrade => b", seller ",
        Kind::OwnWithHeld => b", seller ",
        Kind::RelatedTrade => b", seller ",
        Kind::LinkedSoon => b", seller ",
        _ => b" asks ",
    }
}

fn names_text(
    alloc: Global,
    participants: &Participants,
    names: (Who, Who, Who),
) -> Result<Vec<u8>, AllocError>
    ensures { IfOk result (λ text. text.items ≡ name_of participants.now names.0 ++ (codes " " ++ (name_of participants.now names.1 ++ (codes " " ++ name_of participants.now names.2)))) }
{
    let (a, b, c) = names;
    let mut text = Vec::new(alloc);
    append(
        &mut text,
        &[
            name_at(participants, a),
            b" ",
            name_at(participants, b),
            b" ",
            name_at(participants, c),
        ],
    )?;
    Ok(text)
}

/// The names of others, if there are some.
fn others_text(
    alloc: Global,
    participants: &Participants,
    others: Others,
) -> Result<Option<Vec<u8>>, AllocError>
    ensures { IfOk result (λ text. option_map (λ t. t.items) text ≡ others_text participants.now others) }
{
    match others {
        Others::None => Ok(None),
        Others::One(who) => {
            let name = Vec::from_slice(alloc, name_at(participants, who))?;
            Ok(Some(name))
        }
        Others::Three(a, b, c) => {
            let names = names_text(alloc, participants, (a, b, c))?;
            Ok(Some(names))
        }
    }
}

fn row_value<'a>(at: Option<Place>) -> Option<Value<'a>>
    ensures { shown_option result ≡ option_map row_text_of at }
{
    match at {
        Some(at) => Some(Value::Number(at.row)),
        None => None,
    }
}

fn moment_value<'a>(at: Option<Place>) -> Option<Value<'a>>
    ensures { shown_option result ≡ option_map moment_text_of at }
{
    match at {
        Some(at) => Some(Value::Moment(at.moment)),
        None => None,
    }
}

fn text_value<'a>(text: &'a Option<Vec<u8>>) -> Option<Value<'a>>
    ensures { shown_option result ≡ option_map (λ t. t.items) text.now }
{
    match text {
        Some(text) => Some(Value::Bytes(text)),
        None => None,
    }
}

fn number_value<'a>(n: Option<u64>) -> Option<Value<'a>>
    ensures { shown_option result ≡ option_map decimal n }
{
    match n {
        Some(n) => Some(Value::Number(n)),
        None => None,
    }
}

fn shown_figure<'a>(figure: &Figure) -> Value<'a>
    ensures { shown result ≡ figure_text figure.now }
{
    match figure {
        Figure::Number(n) => Value::Number(*n),
        Figure::Price(price) => Value::Price(*price),
    }
}

fn figure_value<'a>(figure: &Option<Figure>) -> Option<Value<'a>>
    ensures { shown_option result ≡ option_map figure_text figure.now }
{
    match figure {
        Some(figure) => Some(shown_figure(figure)),
        None => None,
    }
}

fn append_said<'a>(
    alloc: Global,
    text: &mut Vec<u8>,
    alarm: &Alarm,
    who: &'a [u8],
    others: &'a Option<Vec<u8>>,
) -> Result<(), AllocError>
    ensures { OnOk result (text.new.items ≡ text.old.items ++ parts_text (alarm_said alarm.now who.now (option_map (λ t. t.items) others.now))) }
{
    append_parts(
        alloc,
        text,
        &[
            part!(kind_words(alarm.kind), bytes(b"")),
            part!(b", row ", row_value(alarm.at)),
            part!(b" at ", moment_value(alarm.at)),
            part!(who_words(alarm.kind), bytes(who)),
            part!(others_words(alarm.kind), text_value(others)),
            part!(b", T", number_value(alarm.trade)),
            part!(b", O", number_value(alarm.order)),
            part!(found_words(alarm.kind), figure_value(&alarm.found)),
            part!(base_words(alarm.kind), number_value(alarm.base)),
            part!(bound_words(alarm.kind), figure_value(&alarm.bound)),
        ],
    )
}

/// Appends an alarm in words.
fn append_words(
    alloc: Global,
    text: &mut Vec<u8>,
    participants: &Participants,
    alarm: &Alarm,
) -> Result<(), AllocError>
    ensures { OnOk result (text.new.items ≡ text.old.items ++ alarm_words participants.now alarm.now) }
{
    let others = others_text(alloc, participants, alarm.others)?;
    let who = name_at(participants, alarm.who);
    append_said(alloc, text, alarm, who, &others)
}

/// An alarm in words.
pub fn alarm_words(
    alloc: Global,
    participants: &Participants,
    alarm: &Alarm,
) -> Result<Vec<u8>, AllocError>
    ensures { IfOk result (λ text. text.items ≡ alarm_words participants.now alarm.now) }
{
    let mut text = Vec::new(alloc);
    append_words(alloc, &mut text, participants, alarm)?;
    Ok(text)
}

/// Appends an alarm as a line.
fn append_line(
    alloc: Global,
    text: &mut Vec<u8>,
    participants: &Participants,
    alarm: &Alarm,
) -> Result<(), AllocError>
    ensures { OnOk result (text.new.items ≡ text.old.items ++ alarm_line participants.now alarm.now) }
{
    let words = alarm_words(alloc, participants, alarm)?;
    append(text, &[&words, b"\n"])
}

/// Appends how many alarms there are, and the bounds.
fn append_head(
    alloc: Global,
    text: &mut Vec<u8>,
    bounds: &Thresholds,
    many: u64,
) -> Result<(), AllocError>
    ensures { OnOk result (text.new.items ≡ text.old.items ++ head_line bounds.now many) }
{
    append_parts(
        alloc,
        text,
        &[
            part!(b"alarms: ", number(many)),
            part!(
                b"; cancelled_within_ms ",
                number(bounds.cancelled_within_ms)
            ),
            part!(b", orders_per_trade ", number(bounds.orders_per_trade)),
            part!(b", cancelled_percent ", number(bounds.cancelled_percent)),
            part!(b", hit_percent ", number(bounds.hit_percent)),
            part!(b", fewest_for_ratio ", number(bounds.fewest_for_ratio)),
            part!(
                b", same_three_requests ",
                number(bounds.same_three_requests)
            ),
            part!(b", linked_within_ms ", number(bounds.linked_within_ms)),
            part!(b"\n", bytes(b"")),
        ],
    )
}

/// Appends a row of a table.
fn append_row(alloc: Global, text: &mut Vec<u8>, row: &ByteRecord) -> Result<(), AllocError>
    ensures { OnOk result (text.new.items ≡ text.old.items ++ row_text setup (fields_of row.now)) }
{
    let made = row_bytes(alloc, row)?;
    text.extend_from_slice(&made)
}

fn append_names(alloc: Global, text: &mut Vec<u8>) -> Result<(), AllocError>
    ensures { OnOk result (text.new.items ≡ text.old.items ++ row_text setup field_names) }
{
    let names = ByteRecord::from_fields(
        alloc,
        &[
            b"alarm",
            b"row",
            b"moment_utc",
            b"participant",
            b"others",
            b"trade",
            b"order",
            b"found",
            b"base",
            b"threshold",
        ],
    )?;
    append_row(alloc, text, &names)
}

fn push_row(made: &mut ByteRecord, at: Option<Place>) -> Result<(), AllocError>
    requires { partial_of made.old ≡ [] }
    ensures partial { OnOk result (partial_of made.new ≡ []) }
    ensures fields { OnOk result (fields_of made.new ≡ fields_of made.old ++ cell (option_map row_text_of at) ∷ []) }
{
    match at {
        Some(at) => push_number(made, at.row),
        None => made.push_field(b""),
    }
}

fn push_moment_of(made: &mut ByteRecord, at: Option<Place>) -> Result<(), AllocError>
    requires { partial_of made.old ≡ [] }
    ensures partial { OnOk result (partial_of made.new ≡ []) }
    ensures fields { OnOk result (fields_of made.new ≡ fields_of made.old ++ cell (option_map moment_text_of at) ∷ []) }
{
    match at {
        Some(at) => push_moment(made, at.moment),
        None => made.push_field(b""),
    }
}

fn push_others(
    alloc: Global,
    made: &mut ByteRecord,
    participants: &Participants,
    others: Others,
) -> Result<(), AllocError>
    requires { partial_of made.old ≡ [] }
    ensures partial { OnOk result (partial_of made.new ≡ []) }
    ensures fields { OnOk result (fields_of made.new ≡ fields_of made.old ++ cell (others_text participants.now others) ∷ []) }
{
    let text = others_text(alloc, participants, others)?;
    match &text {
        Some(text) => made.push_field(text),
        None => made.push_field(b""),
    }
}

fn push_numbered(
    alloc: Global,
    made: &mut ByteRecord,
    prefix: &[u8],
    number: Option<u64>,
) -> Result<(), AllocError>
    requires { partial_of made.old ≡ [] }
    ensures partial { OnOk result (partial_of made.new ≡ []) }
    ensures fields { OnOk result (fields_of made.new ≡ fields_of made.old ++ cell (numbered prefix.now number) ∷ []) }
{
    match number {
        Some(number) => {
            let mut text = Vec::new(alloc);
            append_number(&mut text, prefix, number)?;
            made.push_field(&text)
        }
        None => made.push_field(b""),
    }
}

fn push_price(alloc: Global, made: &mut ByteRecord, price: Price) -> Result<(), AllocError>
    requires { partial_of made.old ≡ [] }
    ensures partial { OnOk result (partial_of made.new ≡ []) }
    ensures fields { OnOk result (fields_of made.new ≡ fields_of made.old ++ price_text price ∷ []) }
{
    let mut text = Vec::new(alloc);
    append_price(alloc, &mut text, price)?;
    made.push_field(&text)
}

fn push_some_figure(alloc: Global, made: &mut ByteRecord, figure: &Figure) -> Result<(), AllocError>
    requires { partial_of made.old ≡ [] }
    ensures partial { OnOk result (partial_of made.new ≡ []) }
    ensures fields { OnOk result (fields_of made.new ≡ fields_of made.old ++ figure_text figure.now ∷ []) }
{
    match figure {
        Figure::Number(n) => push_number(made, *n),
        Figure::Price(price) => push_price(alloc, made, *price),
    }
}

fn push_figure(
    alloc: Global,
    made: &mut ByteRecord,
    figure: &Option<Figure>,
) -> Result<(), AllocError>
    requires { partial_of made.old ≡ [] }
    ensures partial { OnOk result (partial_of made.new ≡ []) }
    ensures fields { OnOk result (fields_of made.new ≡ fields_of made.old ++ cell (option_map figure_text figure.now) ∷ []) }
{
    match figure {
        Some(figure) => push_some_figure(alloc, made, figure),
        None => made.push_field(b""),
    }
}

fn push_base(made: &mut ByteRecord, base: Option<u64>) -> Result<(), AllocError>
    requires { partial_of made.old ≡ [] }
    ensures partial { OnOk result (partial_of made.new ≡ []) }
    ensures fields { OnOk result (fields_of made.new ≡ fields_of made.old ++ cell (option_map decimal base) ∷ []) }
{
    match base {
        Some(n) => push_number(made, n),
        None => made.push_field(b""),
    }
}

/// Adds what an alarm is of.
fn push_subject(
    alloc: Global,
    made: &mut ByteRecord,
    participants: &Participants,
    alarm: &Alarm,
) -> Result<(), AllocError>
    requires { partial_of made.old ≡ [] }
    ensures partial { OnOk result (partial_of made.new ≡ []) }
    ensures fields { OnOk result (fields_of made.new ≡ fields_of made.old ++ subject_fields participants.now alarm.now) }
{
    made.push_field(kind_words(alarm.kind))?;
    push_row(made, alarm.at)?;
    push_moment_of(made, alarm.at)?;
    made.push_field(name_at(participants, alarm.who))?;
    push_others(alloc, made, participants, alarm.others)?;
    push_numbered(alloc, made, b"T", alarm.trade)?;
    push_numbered(alloc, made, b"O", alarm.order)
}

fn alarm_fields(
    alloc: Global,
    participants: &Participants,
    alarm: &Alarm,
) -> Result<ByteRecord, AllocError>
    ensures { IfOk result (λ made. fields_of made ≡ alarm_fields participants.now alarm.now) }
{
    let mut made = ByteRecord::new(alloc);
    push_subject(alloc, &mut made, participants, alarm)?;
    push_figure(alloc, &mut made, &alarm.found)?;
    push_base(&mut made, alarm.base)?;
    push_figure(alloc, &mut made, &alarm.bound)?;
    Ok(made)
}

fn append_alarm_row(
    alloc: Global,
    text: &mut Vec<u8>,
    participants: &Participants,
    alarm: &Alarm,
) -> Result<(), AllocError>
    ensures { OnOk result (text.new.items ≡ text.old.items ++ alarm_row participants.now alarm.now) }
{
    let row = alarm_fields(alloc, participants, alarm)?;
    append_row(alloc, text, &row)
}

fn append_head_text(
    alloc: Global,
    text: &mut Vec<u8>,
    form: Form,
    bounds: &Thresholds,
    many: u64,
) -> Result<(), AllocError>
    ensures { OnOk result (text.new.items ≡ text.old.items ++ head_text form bounds.now many) }
{
    match form {
        Form::Lines => append_head(alloc, text, bounds, many),
        Form::Table => append_names(alloc, text),
    }
}

fn append_alarm(
    alloc: Global,
    text: &mut Vec<u8>,
    form: Form,
    participants: &Participants,
    alarm: &Alarm,
) -> Result<(), AllocError>
    ensures { OnOk result (text.new.items ≡ text.old.items ++ alarm_text form participants.now alarm.now) }
{
    match form {
        Form::Lines => append_line(alloc, text, participants, alarm),
        Form::Table => append_alarm_row(alloc, text, participants, alarm),
    }
}

fn append_alarms(
    alloc: Global,
    text: &mut Vec<u8>,
    form: Form,
    participants: &Participants,
    alarms: &[Alarm],
) -> Result<(), AllocError>
    ensures { OnOk result (text.new.items ≡ text.old.items ++ flat_map (alarm_text form participants.now) alarms.now) }
{
    for alarm in alarms {
        append_alarm(alloc, text, form, participants, alarm)?;
    }
    Ok(())
}

/// The text of alarms.
pub(crate) fn watch_text(
    alloc: Global,
    form: Form,
    bounds: &Thresholds,
    participants: &Participants,
    alarms: &[Alarm],
) -> Result<Vec<u8>, AllocError>
    ensures { IfOk result (λ text. text.items ≡ watch_text form bounds.now participants.now alarms.now) }
{
    let mut text = Vec::new(alloc);
    append_head_text(alloc, &mut text, form, bounds, alarms.len() as u64)?;
    append_alarms(alloc, &mut text, form, participants, alarms)?;
    Ok(text)
}
