//! A second look at a refused trail or file, for the line below the refusal.

use crate::reading::read_day;
use crate::replaying::KeptDay;
use audit_trail::Trail;
use instruments::Instruments;
use participants::{Participants, Who};
use sqlite::types::ValueRef;
use sqlite::{Alter, Connection, Row};
use std::alloc::{AllocError, Global};
use trail_comparison::RulesFault;
use trail_decoder::integer_at;
use venue_rules::TrailFault;

const SELECT_FILES: &str = "SELECT participants, instruments FROM head";

const SELECT_MOMENT: &str = "SELECT moment FROM item WHERE n = ?1";

/// A line on the fault of a database as a trail; none where it has none, or an allocation fails.
pub fn fault_line<S: Alter + Drop>(alloc: Global, conn: Connection<S>) -> Option<String> {
    match Trail::open(alloc, conn, None) {
        Ok(trail) => {
            drop(trail.into_connection());
            None
        }
        Err((fault, conn)) => line_over(alloc, conn, fault),
    }
}

fn line_over<S: Alter + Drop>(
    alloc: Global,
    conn: Connection<S>,
    fault: TrailFault,
) -> Option<String> {
    let mut conn = conn;
    let line = line_of(alloc, &mut conn, fault);
    drop(conn);
    match line {
        Ok(line) => line,
        Err(_) => None,
    }
}

fn line_of<S: Alter>(
    alloc: Global,
    conn: &mut Connection<S>,
    fault: TrailFault,
) -> Result<Option<String>, AllocError> {
    match fault {
        TrailFault::BadRow(n) => row_line(alloc, conn, n),
        TrailFault::BadDelay(x) => delay_line(alloc, x),
        TrailFault::OtherFiles => files_line(alloc, conn),
        _ => Ok(None),
    }
}

/// A line on the stored file that its reader refuses.
fn files_line<S: Alter>(
    alloc: Global,
    conn: &mut Connection<S>,
) -> Result<Option<String>, AllocError> {
    let rows = match conn.query_all(SELECT_FILES, &[]) {
        Ok(rows) => rows,
        Err(_) => return Ok(None),
    };
    let line = match rows.first() {
        Some(row) => texts_line(alloc, bytes_at(row, 0), bytes_at(row, 1))?,
        None => None,
    };
    drop(rows);
    Ok(line)
}

fn bytes_at(row: &Row, at: usize) -> &[u8] {
    match row.get_ref(at) {
        Ok(ValueRef::Blob(bytes)) => bytes,
        _ => &[],
    }
}

fn texts_line(
    alloc: Global,
    participants: &[u8],
    instruments: &[u8],
) -> Result<Option<String>, AllocError> {
    if let Err(fault) = Participants::read(alloc, participants) {
        let line = format!(in alloc; "the stored participant file: {fault}")?;
        return Ok(Some(line));
    }
    if let Err(fault) = Instruments::read(alloc, instruments) {
        let line = format!(in alloc; "the stored instrument file: {fault}")?;
        return Ok(Some(line));
    }
    Ok(None)
}

fn delay_line(alloc: Global, x: i64) -> Result<Option<String>, AllocError> {
    let line = format!(in alloc;
        "delay {x}: missing, of no instrument, or not from 1000 to 3600000 ms"
    )?;
    Ok(Some(line))
}

/// The moment of an item, if there is one with this number.
fn moment_at<S: Alter>(conn: &mut Connection<S>, n: i64) -> Option<i64> {
    let rows = match conn.query_all(SELECT_MOMENT, &[ValueRef::Int(n)]) {
        Ok(rows) => rows,
        Err(_) => return None,
    };
    let moment = match rows.first() {
        Some(row) => integer_at(row, 0),
        None => None,
    };
    drop(rows);
    moment
}

/// A line on a row that a venue would not have kept.
fn row_line<S: Alter>(
    alloc: Global,
    conn: &mut Connection<S>,
    n: i64,
) -> Result<Option<String>, AllocError> {
    let before = n.saturating_sub(1);
    let last = moment_at(conn, before);
    let Some(moment) = moment_at(conn, n) else {
        let line = format!(in alloc; "row {n}: no item has this number and a moment")?;
        return Ok(Some(line));
    };
    let line = match last {
        Some(last) => falling_line(alloc, n, before, moment < last)?,
        None => first_line(alloc, n, before)?,
    };
    Ok(Some(line))
}

/// A line on a row behind another.
fn falling_line(alloc: Global, n: i64, before: i64, falls: bool) -> Result<String, AllocError> {
    if falls {
        format!(in alloc; "row {n}: its moment is before that of row {before}")
    } else {
        other_line(alloc, n)
    }
}

/// A line on a row with none before it.
fn first_line(alloc: Global, n: i64, before: i64) -> Result<String, AllocError> {
    if n <= 1 {
        other_line(alloc, n)
    } else {
        format!(in alloc; "row {n}: there is no row {before} before it")
    }
}

fn other_line(alloc: Global, n: i64) -> Result<String, AllocError> {
    format!(in alloc; "row {n}: its n, who, number, era, moment or text is none that a venue keeps")
}

/// A line on what a file has otherwise than a database's trail; none where an allocation fails.
pub fn other_rules_line<S: Alter + Drop>(
    alloc: Global,
    conn: Connection<S>,
    text: &[u8],
    fault: RulesFault,
) -> Option<String> {
    let (day, conn) = match read_day(alloc, conn) {
        Ok(read) => read,
        Err((_, conn)) => {
            drop(conn);
            return None;
        }
    };
    drop(conn);
    let line = rules_line(alloc, &day.day, text, fault);
    drop(day);
    match line {
        Ok(line) => line,
        Err(_) => None,
    }
}

fn rules_line(
    alloc: Global,
    own: &KeptDay,
    text: &[u8],
    fault: RulesFault,
) -> Result<Option<String>, AllocError> {
    match fault {
        RulesFault::Memory => Ok(None),
        RulesFault::NoFile(participants, instruments) => {
            let line = format!(in alloc;
                "no participant file ({participants}), and no instrument file ({instruments})"
            )?;
            Ok(Some(line))
        }
        RulesFault::BadParticipants(why) => {
            let line = format!(in alloc; "its participants: {why}")?;
            Ok(Some(line))
        }
        RulesFault::BadInstruments(why) => {
            let line = format!(in alloc; "its instruments: {why}")?;
            Ok(Some(line))
        }
        RulesFault::Venue => participants_line(alloc, &own.participants, text, None),
        RulesFault::Participant(place) => {
            participants_line(alloc, &own.participants, text, Some(place))
        }
        RulesFault::Instrument(place) => instruments_line(alloc, &own.instruments, text, place),
    }
}

/// A line on the venue, or on the participant at a place, by its name in both.
fn participants_line(
    alloc: Global,
    own: &Participants,
    text: &[u8],
    place: Option<usize>,
) -> Result<Option<String>, AllocError> {
    let other = match Participants::read(alloc, text) {
        Ok(other) => other,
        Err(_) => return Ok(None),
    };
    let line = match place {
        Some(place) => names_line(
            alloc,
            "participant",
            place,
            participant_at(own, place),
            participant_at(&other, place),
        ),
        None => venue_line(alloc, own.venue(), other.venue()),
    };
    drop(other);
    line
}

fn instruments_line(
    alloc: Global,
    own: &Instruments,
    text: &[u8],
    place: usize,
) -> Result<Option<String>, AllocError> {
    let other = match Instruments::read(alloc, text) {
        Ok(other) => other,
        Err(_) => return Ok(None),
    };
    let line = names_line(
        alloc,
        "instrument",
        place,
        symbol_at(own, place),
        symbol_at(&other, place),
    );
    drop(other);
    line
}

/// The name at a place; "none" past the last.
fn participant_at(participants: &Participants, place: usize) -> &[u8] {
    if place < participants.len() {
        participants.name(Who::of(place as u32))
    } else {
        b"none"
    }
}

/// The symbol at a place; "none" past the last.
fn symbol_at(instruments: &Instruments, place: usize) -> &[u8] {
    if place < instruments.len() {
        instruments.get(place as u32).symbol.as_slice()
    } else {
        b"none"
    }
}

fn venue_line(alloc: Global, own: &[u8], other: &[u8]) -> Result<Option<String>, AllocError> {
    let own = String::from_utf8_lossy(alloc, own)?;
    let other = String::from_utf8_lossy(alloc, other)?;
    let line = format!(in alloc; "the venue: {own} in the trail, {other} in the file")?;
    Ok(Some(line))
}

fn names_line(
    alloc: Global,
    what: &str,
    place: usize,
    own: &[u8],
    other: &[u8],
) -> Result<Option<String>, AllocError> {
    let number = (place as u64).saturating_add(1);
    let own = String::from_utf8_lossy(alloc, own)?;
    let other = String::from_utf8_lossy(alloc, other)?;
    let line = format!(in alloc; "{what} {number}: {own} in the trail, {other} in the file")?;
    Ok(Some(line))
}
