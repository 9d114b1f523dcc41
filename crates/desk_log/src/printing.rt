//! A desk's log against what it is owed.

ghost use Rattle.std.specs.Prelude.{◌≡◌, ◌≢◌, ◌≤◌, ◌++◌, ℕ, [], All, IfErr, IfOk, OnOk, length};
ghost use Rattle.std.specs.Io.KnownBytes.{Appends, Keeps};
ghost use Rattle.participants.specs.Relations.{name_of};
ghost use Rattle.venue_rules.specs.Facts.{no_history};
ghost use Rattle.venue_core.specs.Plan.{most_items};
ghost use Rattle.venue_core.specs.Replay.{IsItem};
ghost use Rattle.venue_core.specs.VenueFacts.{IsHistory};
ghost use Rattle.desk_log.specs.declared.comparing.Comparison.TheVariants as comparison;
ghost use Rattle.desk_log.specs.declared.fault.LogFault.TheVariants.{Output};
ghost use Rattle.desk_log.specs.Comparing.{agreed as agreed_count, comparison_of as comparison_as};
ghost use Rattle.desk_log.specs.Compares.{Agrees, Compares, HasNone, IsRefused};
ghost use Rattle.desk_log.specs.Frames.{separated};
ghost use Rattle.desk_log.specs.Reading.{IsReading};
ghost use Rattle.desk_log.specs.Report as specs;
ghost use Rattle.desk_log.specs.Times.{times_text};

use crate::comparing::{Compared, Comparison, agreed, comparison_of};
use crate::fault::{LogFault, NoLog};
use crate::frames::{has_soh, line_of, with_soh};
use crate::numbered::Ends;
use crate::owed::{Owed, owed_of};
use crate::reading::{Reading, read};
use crate::report::report;
use crate::times::append_times;
use instruments::Instruments;
use participants::{Participants, Who};
use row_replay::rows_have_their_inputs;
use std::alloc::{AllocError, Global};
use std::io::Write;
use venue_core::Venue;
use venue_rules::TrailRow;

/// A participant's name; empty where there is no such participant.
fn name_at(participants: &Participants, who: Who) -> &[u8]
    ensures { result.now ≡ name_of participants.now who }
{
    if (who.place() as usize) < participants.len() {
        participants.name(who)
    } else {
        b""
    }
}

/// The venue and the participant.
fn ends_of<'a>(participants: &'a Participants, who: Who) -> Ends<'a>
    ensures from { result.from.now ≡ participants.now.venue }
    ensures to { result.to.now ≡ name_of participants.now who }
{
    Ends {
        from: participants.venue(),
        to: name_at(participants, who),
    }
}

fn read_log(
    alloc: Global,
    participants: &Participants,
    who: Who,
    log: &[u8],
) -> Result<Reading, AllocError>
    ensures { IfOk result (λ reading. IsReading participants.now.venue (name_of participants.now who) log.now reading) }
{
    let ends = ends_of(participants, who);
    read(alloc, &ends, log)
}

/// What is in a file that is no log of the participant.
fn found_in(log: &[u8], reading: &Reading) -> NoLog
    ensures frames { result.frames ≡ reading.now.bodies }
    ensures broken { result.broken ≡ specs.broken_of log.now reading.now.broken }
{
    let broken = match &reading.broken {
        Some(broken) => Some((line_of(broken.at, log), broken.fault)),
        None => None,
    };
    NoLog {
        frames: reading.bodies,
        broken,
    }
}

fn compare(
    alloc: Global,
    log: &[u8],
    owed: &[Owed],
    reading: &Reading,
) -> Result<Compared, AllocError>
    ensures count { IfOk result (λ c. c.count ≡ agreed_count log.now reading.now.once.items owed.now) }
    ensures comparison { IfOk result (λ c. c.comparison ≡ comparison_as reading.now.conflict (agreed_count log.now reading.now.once.items owed.now) (length reading.now.once.items) (length owed.now)) }
{
    let count = agreed(alloc, log, &reading.once, owed)?;
    let comparison = comparison_of(&reading.conflict, count, reading.once.len(), owed.len());
    Ok(Compared { comparison, count })
}

fn text_of(
    alloc: Global,
    participants: &Participants,
    who: Who,
    log: &[u8],
    compared: &Compared,
    owed: &[Owed],
    reading: &Reading,
    rows: &[TrailRow],
) -> Result<Vec<u8>, AllocError>
    ensures { IfOk result (λ text. text.items ≡ specs.report participants.now.venue (name_of participants.now who) log.now compared.now owed.now reading.now
        ++ times_text participants.now.venue (name_of participants.now who) log.now compared.now.comparison rows.now reading.now) }
{
    let ends = ends_of(participants, who);
    let mut text = report(alloc, &ends, log, compared, owed, reading)?;
    append_times(&mut text, &ends, log, compared.comparison, rows, reading)?;
    Ok(text)
}

fn write_text<W: Write>(text: &[u8], writer: &mut W) -> Result<(), LogFault>
    ensures written { OnOk result (Appends (W.contents writer.old) (W.contents writer.new) text.now) }
    ensures output { IfErr result (λ fault. fault ≡ Output) }
{
    match writer.write_all(text) {
        Ok(()) => Ok(()),
        Err(_) => Err(LogFault::Output),
    }
}

/// Compares a log that has SOH, on a venue on which nothing has happened.
fn compare_on<W: Write>(
    alloc: Global,
    venue: &mut Venue,
    rows: &[TrailRow],
    who: Who,
    log: &[u8],
    writer: &mut W,
) -> Result<Comparison, LogFault>
    requires kept { All IsItem rows.now }
    requires few { length rows.now ≤ most_items }
    requires fresh { IsHistory venue.old no_history }
    requires first { venue.old.items ≡ 0 }
    ensures compared { IfOk result (λ c. Compares c venue.old.market rows.now who log.now (W.contents writer.old) (W.contents writer.new)) }
    ensures refused { IfErr result (λ fault. IsRefused fault (HasNone venue.old.market who log.now)) }
    ensures unwritten { IfErr result (λ fault. fault ≢ Output → Keeps (W.contents writer.old) (W.contents writer.new)) }
{
    rows_have_their_inputs();
    let reading = read_log(alloc, venue.participants(), who, log)?;
    if reading.frames.is_empty() {
        return Err(LogFault::NoLog(found_in(log, &reading)));
    }
    let owed = owed_of(alloc, venue, who, rows)?;
    let compared = compare(alloc, log, owed.as_slice(), &reading)?;
    let text = text_of(
        alloc,
        venue.participants(),
        who,
        log,
        &compared,
        owed.as_slice(),
        &reading,
        rows,
    )?;
    write_text(text.as_slice(), writer)?;
    Ok(compared.comparison)
}

/// Compares a log, in which | stands for SOH where it has none.
fn compare_any<W: Write>(
    alloc: Global,
    venue: &mut Venue,
    rows: &[TrailRow],
    who: Who,
    log: &[u8],
    writer: &mut W,
) -> Result<Comparison, LogFault>
    requires kept { All IsItem rows.now }
    requires few { length rows.now ≤ most_items }
    requires fresh { IsHistory venue.old no_history }
    requires first { venue.old.items ≡ 0 }
    ensures compared { IfOk result (λ c. Compares c venue.old.market rows.now who (separated log.now) (W.contents writer.old) (W.contents writer.new)) }
    ensures refused { IfErr result (λ fault. IsRefused fault (HasNone venue.old.market who (separated log.now))) }
    ensures unwritten { IfErr result (λ fault. fault ≢ Output → Keeps (W.contents writer.old) (W.contents writer.new)) }
{
    if has_soh(log) {
        return compare_on(alloc, venue, rows, who, log, writer);
    }
    let text = with_soh(alloc, log)?;
    compare_on(alloc, venue, rows, who, &text, writer)
}

/// Prints whether a participant's own FIX log has what the rows of a trail owe it, with these participants and
/// instruments: the application messages of the log from the venue to it, each once by era and number, in order,
/// compared with what it is owed. `NoLog` where no numbered frame of the log goes from the venue to it. Nothing is
/// written unless a write fails.
pub fn print_comparison<W: Write>(
    alloc: Global,
    participants: Participants,
    instruments: Instruments,
    rows: &[TrailRow],
    who: Who,
    log: &[u8],
    writer: &mut W,
) -> Result<Comparison, LogFault>
    requires kept { All IsItem rows.now }
    requires few { length rows.now ≤ most_items }
    ensures compared { IfOk result (λ c. Compares c (record { participants = participants; instruments = instruments }) rows.now who (separated log.now) (W.contents writer.old) (W.contents writer.new)) }
    ensures agrees { IfOk result (λ c. c ≡ comparison.All → Agrees (record { participants = participants; instruments = instruments }) rows.now who (separated log.now)) }
    ensures refused { IfErr result (λ fault. IsRefused fault (HasNone (record { participants = participants; instruments = instruments }) who (separated log.now))) }
    ensures unwritten { IfErr result (λ fault. fault ≢ Output → Keeps (W.contents writer.old) (W.contents writer.new)) }
{
    let mut venue = Venue::open(alloc, participants, instruments)?;
    let compared = compare_any(alloc, &mut venue, rows, who, log, writer);
    drop(venue);
    compared
}
