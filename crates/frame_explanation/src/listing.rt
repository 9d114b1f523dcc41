//! What a log has, one thing after another, with the frames that are assumed before the first of each session.

ghost use Rattle.std.specs.Prelude.{◌≡◌, ◌∷◌, ◌++◌, [], false, true, IfOk, OnOk, map};
ghost use Rattle.frame_explanation.specs.Frames as frames;
ghost use Rattle.frame_explanation.specs.Listing as listing;

use crate::broken::framed;
use crate::frames::{Found, Look, extent};
use crate::log_items::{LogItem, Source};
use crate::parts::{Part, append_parts};
use crate::pieces::value_in;
use fix_fields::read_integer;
use participants::{Participants, Who};
use sef_moment::{Moment, print_utc, read_utc};
use std::alloc::{AllocError, Global};
use trade_blotter::name_at;

/// The greatest sequence number.
const GREATEST_NUMBER: u64 = 999_999_999;

/// How a log stands at a place.
#[derive(Drop)]
pub(crate) struct Stand {
    /// Who sent the last frame.
    who: Who,
    /// Its moment.
    moment: Moment,
    /// Those that sent any.
    begun: Vec<Who>,
}

/// A part of a log that was found in it.
#[derive(Drop)]
pub(crate) struct LogPart {
    number: u64,
    place: u64,
    text: Vec<u8>,
    body: Vec<u8>,
}

/// Whose session hears a frame, and when.
#[derive(Clone, Copy)]
struct Hearing {
    who: Who,
    moment: Moment,
}

/// The bytes of a log between two places; none where they are not in it.
fn bytes_of(alloc: Global, log: &[u8], start: usize, end: usize) -> Result<Vec<u8>, AllocError>
    ensures { IfOk result (λ bytes. bytes.items ≡ listing.between start end log.now) }
{
    let mut bytes = Vec::new(alloc);
    if start <= end && end <= log.len() {
        bytes.extend_from_slice(&log[start..end])?;
    }
    Ok(bytes)
}

/// The body of what was found; nothing of what is no frame.
pub(crate) fn body_of(alloc: Global, log: &[u8], found: Found) -> Result<Vec<u8>, AllocError>
    ensures { IfOk result (λ body. body.items ≡ listing.body_of log.now found.at found.look) }
{
    match found.look {
        Look::Frame { start, end } => bytes_of(
            alloc,
            log,
            found.at.saturating_add(start),
            found.at.saturating_add(end),
        ),
        Look::Broken { count: _ } => Ok(Vec::new(alloc)),
        Look::Nothing => Ok(Vec::new(alloc)),
    }
}

/// SendingTime (52), or the last moment where it is not readable.
fn moment_in(body: &[u8], last: Moment) -> Moment
    ensures { result ≡ listing.moment_in body.now last }
{
    match read_utc(value_in(b"52=", body)) {
        Ok(moment) => moment,
        Err(_) => last,
    }
}

/// MsgSeqNum (34); 0 where there is none.
pub(crate) fn number_in(body: &[u8]) -> u64
    ensures { result ≡ listing.number_in body.now }
{
    match read_integer(value_in(b"34=", body), 1, GREATEST_NUMBER) {
        Ok(number) => number,
        Err(_) => 0,
    }
}

/// Who sent a frame: the participant that 49 names, or else the one before.
fn sender_in(participants: &Participants, body: &[u8], last: Who) -> Who
    ensures { result ≡ listing.sender_in participants.now body.now last }
{
    match participants.find(value_in(b"49=", body)) {
        Some(who) => who,
        None => last,
    }
}

fn is_logon(body: &[u8]) -> bool
    ensures { result ≡ listing.is_logon body.now }
{
    value_in(b"35=", body) == b"A".as_slice()
}

pub(crate) fn is_repeat(body: &[u8]) -> bool
    ensures { result ≡ listing.is_repeat body.now }
{
    value_in(b"43=", body) == b"Y".as_slice()
}

pub(crate) fn is_reset(body: &[u8]) -> bool
    ensures { result ≡ listing.is_reset body.now }
{
    value_in(b"35=", body) == b"4".as_slice()
}

/// Whether a frame is the first of a session: a Logon with number 1 or without, or another with number 1 that is no
/// repeat and no SequenceReset.
fn is_first(body: &[u8]) -> bool
    ensures { result ≡ listing.is_first body.now }
{
    let number = number_in(body);
    (is_logon(body) && number < 2) || (number == 1 && !is_repeat(body) && !is_reset(body))
}

fn has_begun(begun: &[Who], who: Who) -> bool
    ensures { result ≡ listing.has_begun begun.now who }
{
    begun.iter().any(|other| other.place() == who.place())
}

/// Whether a frame comes on a new connection.
fn is_new(begun: &[Who], who: Who, body: &[u8]) -> bool
    ensures { result ≡ listing.is_new begun.now who body.now }
{
    is_logon(body) || (!has_begun(begun, who) && is_first(body))
}

fn append_item(listed: &mut Vec<LogItem>, one: LogItem) -> Result<(), AllocError>
    ensures { OnOk result (map listing.seen listed.new.items ≡ map listing.seen listed.old.items ++ listing.seen one ∷ []) }
{
    listed.push(one)?;
    Ok(())
}

/// Appends a frame with this body that is assumed.
fn assume(
    alloc: Global,
    listed: &mut Vec<LogItem>,
    hearing: &Hearing,
    connects: bool,
    body: &[u8],
) -> Result<(), AllocError>
    ensures { OnOk result (map listing.seen listed.new.items ≡ map listing.seen listed.old.items ++ listing.assumed hearing.now.who hearing.now.moment connects body.now ∷ []) }
{
    let text = framed(alloc, body)?;
    append_item(
        listed,
        LogItem {
            source: Source::Assumed,
            number: 0,
            place: 0,
            who: hearing.who,
            moment: hearing.moment,
            connects,
            text,
            body: Vec::new(alloc),
        },
    )
}

/// Appends the header of a frame that is assumed.
fn append_header(
    body: &mut Vec<u8>,
    kind: &'static [u8],
    number: &'static [u8],
    participants: &Participants,
    hearing: &Hearing,
) -> Result<(), AllocError>
    ensures { OnOk result (body.new.items ≡ body.old.items ++ listing.header participants.now hearing.now.who hearing.now.moment kind.now number.now) }
{
    append_parts(
        body,
        &[
            Part::Bytes(kind),
            Part::Bytes(b"\x0149="),
            Part::Bytes(name_at(participants, hearing.who)),
            Part::Bytes(b"\x0156="),
            Part::Bytes(participants.venue()),
            Part::Bytes(number),
            Part::Bytes(b"\x0152="),
        ],
    )?;
    body.extend_from_slice(&print_utc(hearing.moment))?;
    Ok(())
}

/// Appends a Logon with number 1, as it begins each session.
fn assume_logon(
    alloc: Global,
    listed: &mut Vec<LogItem>,
    participants: &Participants,
    hearing: &Hearing,
) -> Result<(), AllocError>
    ensures { OnOk result (map listing.seen listed.new.items ≡ map listing.seen listed.old.items ++ listing.assumed hearing.now.who hearing.now.moment true (listing.logon_body participants.now hearing.now.who hearing.now.moment) ∷ []) }
{
    let mut body = Vec::new(alloc);
    append_header(&mut body, b"35=A", b"\x0134=1", participants, hearing)?;
    body.extend_from_slice(b"\x0198=0\x01108=0\x011137=9\x01")?;
    assume(alloc, listed, hearing, true, &body)
}

/// Appends a SequenceReset to this number.
fn assume_number(
    alloc: Global,
    listed: &mut Vec<LogItem>,
    participants: &Participants,
    hearing: &Hearing,
    number: u64,
) -> Result<(), AllocError>
    ensures { OnOk result (map listing.seen listed.new.items ≡ map listing.seen listed.old.items ++ listing.assumed hearing.now.who hearing.now.moment false (listing.reset_body participants.now hearing.now.who hearing.now.moment number) ∷ []) }
{
    let mut body = Vec::new(alloc);
    append_header(&mut body, b"35=4", b"\x0134=2", participants, hearing)?;
    append_parts(
        &mut body,
        &[
            Part::Bytes(b"\x0136="),
            Part::Number(number),
            Part::Bytes(b"\x01"),
        ],
    )?;
    assume(alloc, listed, hearing, false, &body)
}

/// Appends what brings a session to the first frame that the log has of it, unless that is the session's first: a
/// Logon, and a SequenceReset where the number is not the next one.
fn assume_session(
    alloc: Global,
    listed: &mut Vec<LogItem>,
    participants: &Participants,
    hearing: &Hearing,
    body: &[u8],
) -> Result<(), AllocError>
    ensures { OnOk result (map listing.seen listed.new.items ≡ map listing.seen listed.old.items ++ listing.session_items participants.now hearing.now.who hearing.now.moment body.now) }
{
    if is_first(body) {
        return Ok(());
    }
    assume_logon(alloc, listed, participants, hearing)?;
    let number = number_in(body);
    if number < 3 {
        return Ok(());
    }
    assume_number(alloc, listed, participants, hearing, number)
}

/// Appends, before the first frame of a participant, what brings its session to it.
fn begin_session(
    alloc: Global,
    listed: &mut Vec<LogItem>,
    participants: &Participants,
    begun: &mut Vec<Who>,
    hearing: &Hearing,
    body: &[u8],
) -> Result<(), AllocError>
    ensures listed { OnOk result (map listing.seen listed.new.items ≡ map listing.seen listed.old.items ++ listing.begin_items participants.now begun.old.items hearing.now.who hearing.now.moment body.now) }
    ensures begun { OnOk result (begun.new.items ≡ listing.begun_after begun.old.items hearing.now.who) }
{
    if has_begun(begun, hearing.who) {
        return Ok(());
    }
    begun.push(hearing.who)?;
    assume_session(alloc, listed, participants, hearing, body)
}

/// Appends what no session hears.
fn list_unheard(
    listed: &mut Vec<LogItem>,
    source: Source,
    stand: &Stand,
    part: LogPart,
) -> Result<(), AllocError>
    ensures { OnOk result (map listing.seen listed.new.items ≡ map listing.seen listed.old.items ++ listing.unheard_item source (listing.state stand.now) part.number part.place part.text.items part.body.items ∷ []) }
{
    append_item(
        listed,
        LogItem {
            source,
            number: part.number,
            place: part.place,
            who: stand.who,
            moment: stand.moment,
            connects: false,
            text: part.text,
            body: part.body,
        },
    )
}

fn append_came(
    listed: &mut Vec<LogItem>,
    hearing: &Hearing,
    connects: bool,
    part: LogPart,
) -> Result<(), AllocError>
    ensures { OnOk result (map listing.seen listed.new.items ≡ map listing.seen listed.old.items ++ listing.came_item connects hearing.now.who hearing.now.moment part.number part.place part.text.items part.body.items ∷ []) }
{
    append_item(
        listed,
        LogItem {
            source: Source::Participant,
            number: part.number,
            place: part.place,
            who: hearing.who,
            moment: hearing.moment,
            connects,
            text: part.text,
            body: part.body,
        },
    )
}

/// Appends a frame of a participant, and before its first what brings its session to it.
fn list_came(
    alloc: Global,
    listed: &mut Vec<LogItem>,
    participants: &Participants,
    stand: &mut Stand,
    part: LogPart,
) -> Result<(), AllocError>
    ensures listed { OnOk result (map listing.seen listed.new.items ≡ map listing.seen listed.old.items ++ listing.came_items participants.now (listing.state stand.old) part.number part.place part.text.items part.body.items) }
    ensures stand { OnOk result (listing.state stand.new ≡ listing.came_after participants.now (listing.state stand.old) part.body.items) }
{
    let body = part.body.as_slice();
    let hearing = Hearing {
        who: sender_in(participants, body, stand.who),
        moment: moment_in(body, stand.moment),
    };
    let begun = stand.begun.as_slice();
    let connects = is_new(begun, hearing.who, body);
    begin_session(
        alloc,
        listed,
        participants,
        &mut stand.begun,
        &hearing,
        body,
    )?;
    stand.who = hearing.who;
    stand.moment = hearing.moment;
    append_came(listed, &hearing, connects, part)
}

fn is_of_venue(participants: &Participants, body: &[u8]) -> bool
    ensures { result ≡ listing.is_of_venue participants.now body.now }
{
    value_in(b"49=", body) == participants.venue()
}

/// Appends a part of a log: what is no frame, a frame of the venue, or one of a participant.
fn list_part(
    alloc: Global,
    listed: &mut Vec<LogItem>,
    participants: &Participants,
    stand: &mut Stand,
    part: LogPart,
) -> Result<(), AllocError>
    ensures listed { OnOk result (map listing.seen listed.new.items ≡ map listing.seen listed.old.items ++ listing.part_items participants.now (listing.state stand.old) part.number part.place part.text.items part.body.items) }
    ensures stand { OnOk result (listing.state stand.new ≡ listing.part_after participants.now (listing.state stand.old) part.body.items) }
{
    if part.body.is_empty() {
        return list_unheard(listed, Source::Broken, stand, part);
    }
    if is_of_venue(participants, &part.body) {
        return list_unheard(listed, Source::Venue, stand, part);
    }
    list_came(alloc, listed, participants, stand, part)
}

/// The part of a log that was found there.
fn part_of(alloc: Global, log: &[u8], number: u64, found: Found) -> Result<LogPart, AllocError>
    ensures number { IfOk result (λ part. part.number ≡ number) }
    ensures place { IfOk result (λ part. part.place ≡ frames.plus found.at 1) }
    ensures text { IfOk result (λ part. part.text.items ≡ listing.between found.at (frames.plus found.at (frames.extent found.look)) log.now) }
    ensures body { IfOk result (λ part. part.body.items ≡ listing.body_of log.now found.at found.look) }
{
    let end = found.at.saturating_add(extent(found.look));
    let text = bytes_of(alloc, log, found.at, end)?;
    let body = body_of(alloc, log, found)?;
    Ok(LogPart {
        number,
        place: found.at.saturating_add(1) as u64,
        text,
        body,
    })
}

/// All that was found in a log, in order.
pub(crate) fn list_log(
    alloc: Global,
    participants: &Participants,
    log: &[u8],
    found: &[Found],
) -> Result<Vec<LogItem>, AllocError>
    ensures { IfOk result (λ listed. map listing.seen listed.items ≡ listing.items participants.now log.now found.now) }
{
    let mut listed = Vec::new(alloc);
    let mut stand = Stand {
        who: Who::of(0),
        moment: Moment::EPOCH,
        begun: Vec::new(alloc),
    };
    let mut number = 0u64;
    for one in found {
        number = number.saturating_add(1);
        let part = part_of(alloc, log, number, *one)?;
        list_part(alloc, &mut listed, participants, &mut stand, part)?;
    }
    Ok(listed)
}
