//! The text of an explanation.

ghost use Rattle.std.specs.Prelude.{◌≡◌, ◌++◌, OnOk, IfOk, length};
ghost use Rattle.std.specs.List.{flat_map, list_all};
ghost use Rattle.fix_session.specs.Reader.{Reader};
ghost use Rattle.participants.specs.Relations.{name_of};
ghost use Rattle.frame_explanation.specs.Text as text;

use crate::bodies::{Direction, append_body, append_words_line, words_of_body};
use crate::broken::{LONGEST, append_broken};
use crate::frames::{Found, bytes_found, found_in, frames_in};
use crate::listing::body_of;
use crate::log_items::{Heard, LogItem, Sent, Source};
use crate::names::kind_name;
use crate::parts::{Part, append_parts};
use crate::pieces::value_in;
use fix_session::{Step, Why};
use message_words::readable_text;
use participants::{Participants, Who};
use sef_moment::print_utc;
use std::alloc::{AllocError, Global};
use trade_blotter::name_at;

/// Appends how much was found, and what the answers are.
fn append_counts(out: &mut Vec<u8>, log: &[u8], found: &[Found]) -> Result<(), AllocError>
    ensures { OnOk result (out.new.items ≡ out.old.items ++ text.counts (length log.now) found.now) }
{
    let frames = frames_in(found);
    append_parts(
        out,
        &[
            Part::Bytes(b"frames: "),
            Part::Number(frames as u64),
            Part::Bytes(b"; broken: "),
            Part::Number(found.len().saturating_sub(frames) as u64),
            Part::Bytes(b"; other bytes: "),
            Part::Number(log.len().saturating_sub(bytes_found(found)) as u64),
            Part::Bytes(b" of "),
            Part::Number(log.len() as u64),
            Part::Bytes(
                b"\nanswered by a new venue with an empty book; each session expects the number of its first frame, 2 where that is a repeat of 1 or has none; each moment is the frame's own (52), or the last; one before the last counts as the last; no clock runs, so a held second side that is due enters at the next frame\n",
            ),
        ],
    )
}

/// Appends the lines before the first frame.
pub(crate) fn append_head(out: &mut Vec<u8>, log: &[u8], found: &[Found]) -> Result<(), AllocError>
    ensures { OnOk result (out.new.items ≡ out.old.items ++ text.head (length log.now) found.now) }
{
    if found.is_empty() {
        return append_parts(
            out,
            &[
                Part::Bytes(b"no frame: nothing in these "),
                Part::Number(log.len() as u64),
                Part::Bytes(b" bytes begins with 8=FIXT.1.1|9=, as each frame of the venue does\n"),
            ],
        );
    }
    append_counts(out, log, found)
}

/// Why a line ends.
fn why_words(why: Why) -> &'static [u8]
    ensures { result.now ≡ text.why_words why }
{
    match why {
        Why::NotLogon => b"the first message of a connection has to be a Logon",
        Why::WrongComp => b"49 (SenderCompID) or 56 (TargetCompID) is wrong",
        Why::BadLogon => b"the Logon has the fault above",
        Why::NoNumber => b"34 (MsgSeqNum) is missing, or no number from 1 to 999999999",
        Why::TooLow => b"34 (MsgSeqNum) is below the expected number, which the Logout names (58)",
        Why::PeerLogout => b"the participant logs out",
        Why::Silent => b"a TestRequest was not answered",
        Why::NumbersSpent => b"the sequence numbers are used up",
        Why::Reset => b"141=Y with 43=Y, with a 34 other than 1, or for one era too many",
        Why::NumbersRestarted => {
            b"the venue's process numbers this session from 1, and 34 is above: log on with 141=Y"
        }
    }
}

/// Appends the CompIDs of a participant's line, where a frame has others.
fn append_ids_if(
    out: &mut Vec<u8>,
    names: &Participants,
    who: Who,
    why: Why,
) -> Result<(), AllocError>
    ensures { OnOk result (out.new.items ≡ out.old.items ++ text.ids_if names.now who why) }
{
    match why {
        Why::WrongComp => append_parts(
            out,
            &[
                Part::Bytes(b"    here 49 has to be "),
                Part::Bytes(name_at(names, who)),
                Part::Bytes(b" and 56 "),
                Part::Bytes(names.venue()),
                Part::Bytes(b"\n"),
            ],
        ),
        Why::NotLogon => Ok(()),
        Why::BadLogon => Ok(()),
        Why::NoNumber => Ok(()),
        Why::TooLow => Ok(()),
        Why::PeerLogout => Ok(()),
        Why::Silent => Ok(()),
        Why::NumbersSpent => Ok(()),
        Why::Reset => Ok(()),
        Why::NumbersRestarted => Ok(()),
    }
}

/// Appends why a frame whose body has this number of bytes is not read.
fn append_unread(out: &mut Vec<u8>, size: usize) -> Result<(), AllocError>
    ensures { OnOk result (out.new.items ≡ out.old.items ++ text.unread_line size) }
{
    if size > LONGEST {
        return append_parts(
            out,
            &[
                Part::Bytes(b"    session: ignores it, as its body has "),
                Part::Number(size as u64),
                Part::Bytes(b" bytes, and the venue reads 8192 at most\n"),
            ],
        );
    }
    out.extend_from_slice(
        b"    session: reads nothing, as the connection has ended; a Logon on a new one comes first\n",
    )
}

/// Appends what the session of a participant does with a frame whose body has this number of bytes.
pub(crate) fn append_step(
    out: &mut Vec<u8>,
    names: &Participants,
    who: Who,
    size: usize,
    step: Step,
) -> Result<(), AllocError>
    ensures { OnOk result (out.new.items ≡ out.old.items ++ text.step_line names.now who size step) }
{
    match step {
        Step::Idle => append_unread(out, size),
        Step::Did => out.extend_from_slice(b"    session: no message for the venue\n"),
        Step::App(number) => append_parts(
            out,
            &[
                Part::Bytes(b"    session: message "),
                Part::Number(u64::from(number.get())),
                Part::Bytes(b" is for the venue\n"),
            ],
        ),
        Step::Dropped(why) => {
            append_parts(
                out,
                &[
                    Part::Bytes(b"    session: disconnects: "),
                    Part::Bytes(why_words(why)),
                    Part::Bytes(b"\n"),
                ],
            )?;
            append_ids_if(out, names, who, why)
        }
    }
}

fn append_step_if(
    out: &mut Vec<u8>,
    names: &Participants,
    listed: &LogItem,
    step: &Option<Step>,
) -> Result<(), AllocError>
    ensures { OnOk result (out.new.items ≡ out.old.items ++ text.step_if names.now listed.now step.now) }
{
    match step {
        Some(step) => append_step(out, names, listed.who, listed.body.len(), *step),
        None => Ok(()),
    }
}

/// Appends that another number was expected, where a message has words and is not for the venue.
fn append_order_if(out: &mut Vec<u8>, words: &[u8], step: &Option<Step>) -> Result<(), AllocError>
    ensures { OnOk result (out.new.items ≡ out.old.items ++ text.order_if words.now step.now) }
{
    if words.is_empty() {
        return Ok(());
    }
    match step {
        Some(Step::Did) => out.extend_from_slice(
            b"    34 (MsgSeqNum) is not the expected number: above it there is a gap, and this message is asked for again; below it, with 43=Y, this one repeats another\n",
        ),
        Some(Step::Idle) => Ok(()),
        Some(Step::App(_)) => Ok(()),
        Some(Step::Dropped(_)) => Ok(()),
        None => Ok(()),
    }
}

/// Appends what the session does with a frame, and whether another number was expected.
fn append_outcome(
    alloc: Global,
    out: &mut Vec<u8>,
    names: &Participants,
    heard: &Heard,
) -> Result<(), AllocError>
    ensures { (r : Reader) → OnOk result (out.new.items ≡ out.old.items ++ text.outcome r names.now heard.now) }
{
    let words = words_of_body(alloc, &heard.item.body)?;
    append_step_if(out, names, &heard.item, &heard.step)?;
    append_order_if(out, &words, &heard.step)
}

/// Appends to whom a message is sent, its type, and the message as FIX has it.
fn append_sent_line<'a>(
    out: &mut Vec<u8>,
    name: &'a [u8],
    kind: &'a [u8],
    fix: &'a [u8],
) -> Result<(), AllocError>
    ensures { OnOk result (out.new.items ≡ out.old.items ++ text.sent_line name.now kind.now fix.now) }
{
    append_parts(
        out,
        &[
            Part::Bytes(b"    to "),
            Part::Bytes(name),
            Part::Bytes(b", "),
            Part::Bytes(kind),
            Part::Bytes(b": "),
            Part::Bytes(fix),
            Part::Bytes(b"\n"),
        ],
    )
}

fn is_resend_request(body: &[u8]) -> bool
    ensures { result ≡ text.is_resend_request body.now }
{
    value_in(b"35=", body) == b"2".as_slice()
}

/// Appends the expected number, from which on messages are asked for again.
fn append_gap<'a>(out: &mut Vec<u8>, number: &'a [u8]) -> Result<(), AllocError>
    ensures { OnOk result (out.new.items ≡ out.old.items ++ text.gap_line number.now) }
{
    append_parts(
        out,
        &[
            Part::Bytes(b"        a gap: the expected number is "),
            Part::Bytes(number),
            Part::Bytes(b", and each message from it on is asked for again\n"),
        ],
    )
}

/// Appends what a ResendRequest says of the expected number.
fn append_gap_if(out: &mut Vec<u8>, body: &[u8]) -> Result<(), AllocError>
    ensures { OnOk result (out.new.items ≡ out.old.items ++ text.gap_if body.now) }
{
    if !is_resend_request(body) {
        return Ok(());
    }
    append_gap(out, value_in(b"7=", body))
}

/// Appends a message that a participant is sent in words, or the gap that it names.
fn append_meaning(alloc: Global, out: &mut Vec<u8>, body: &[u8]) -> Result<(), AllocError>
    ensures { (r : Reader) → OnOk result (out.new.items ≡ out.old.items ++ text.meaning r body.now) }
{
    let words = words_of_body(alloc, body)?;
    append_words_line(out, b"        ", &words)?;
    append_gap_if(out, body)
}

/// Appends a message that a participant is sent: as FIX has it, and what it says.
fn append_reply(
    alloc: Global,
    out: &mut Vec<u8>,
    name: &[u8],
    body: &[u8],
) -> Result<(), AllocError>
    ensures { (r : Reader) → OnOk result (out.new.items ≡ out.old.items ++ text.reply r name.now body.now) }
{
    let fix = readable_text(alloc, body)?;
    append_sent_line(out, name, kind_name(value_in(b"35=", body)), &fix)?;
    append_meaning(alloc, out, body)
}

fn append_found(
    alloc: Global,
    out: &mut Vec<u8>,
    name: &[u8],
    bytes: &[u8],
    found: Found,
) -> Result<(), AllocError>
    ensures { (r : Reader) → OnOk result (out.new.items ≡ out.old.items ++ text.reply_found r name.now bytes.now found) }
{
    let body = body_of(alloc, bytes, found)?;
    append_reply(alloc, out, name, &body)
}

fn append_frames(
    alloc: Global,
    out: &mut Vec<u8>,
    name: &[u8],
    bytes: &[u8],
    found: &[Found],
) -> Result<(), AllocError>
    ensures { (r : Reader) → OnOk result (out.new.items ≡ out.old.items ++ flat_map (text.reply_found r name.now bytes.now) found.now) }
{
    for one in found {
        append_found(alloc, out, name, bytes, *one)?;
    }
    Ok(())
}

/// Appends each message of the bytes that a participant is sent.
fn append_sent(
    alloc: Global,
    out: &mut Vec<u8>,
    names: &Participants,
    sent: &Sent,
) -> Result<(), AllocError>
    ensures { (r : Reader) → OnOk result (out.new.items ≡ out.old.items ++ text.sent_text r names.now sent.now) }
{
    let found = found_in(alloc, &sent.bytes)?;
    append_frames(alloc, out, name_at(names, sent.to), &sent.bytes, &found)
}

fn append_each_sent(
    alloc: Global,
    out: &mut Vec<u8>,
    names: &Participants,
    sent: &[Sent],
) -> Result<(), AllocError>
    ensures { (r : Reader) → OnOk result (out.new.items ≡ out.old.items ++ flat_map (text.sent_text r names.now) sent.now) }
{
    for one in sent {
        append_sent(alloc, out, names, one)?;
    }
    Ok(())
}

/// Whether nobody is sent anything.
fn is_silent(sent: &[Sent]) -> bool
    ensures { result ≡ text.is_silent sent.now }
{
    for one in sent {
        if !one.bytes.is_empty() {
            return false;
        }
    }
    true
}

/// Appends what each participant is sent, or that nobody is sent anything.
fn append_answers(
    alloc: Global,
    out: &mut Vec<u8>,
    names: &Participants,
    sent: &[Sent],
) -> Result<(), AllocError>
    ensures { (r : Reader) → OnOk result (out.new.items ≡ out.old.items ++ text.answers r names.now sent.now) }
{
    if is_silent(sent) {
        return out.extend_from_slice(b"    nobody is sent anything\n");
    }
    append_each_sent(alloc, out, names, sent)
}

/// Appends where a frame is, to whose session it came and when, and its type.
fn append_heading_line<'a>(
    out: &mut Vec<u8>,
    listed: &LogItem,
    name: &'a [u8],
    moment: &'a [u8],
    kind: &'a [u8],
) -> Result<(), AllocError>
    ensures { OnOk result (out.new.items ≡ out.old.items ++ text.heading_line listed.now.number listed.now.place name.now moment.now kind.now) }
{
    append_parts(
        out,
        &[
            Part::Bytes(b"\nframe "),
            Part::Number(listed.number),
            Part::Bytes(b" at byte "),
            Part::Number(listed.place),
            Part::Bytes(b", to the session of "),
            Part::Bytes(name),
            Part::Bytes(b" at "),
            Part::Bytes(moment),
            Part::Bytes(b": "),
            Part::Bytes(kind),
            Part::Bytes(b"\n"),
        ],
    )
}

fn append_heading(
    out: &mut Vec<u8>,
    names: &Participants,
    listed: &LogItem,
) -> Result<(), AllocError>
    ensures { OnOk result (out.new.items ≡ out.old.items ++ text.heading names.now listed.now) }
{
    let moment = print_utc(listed.moment);
    let kind = kind_name(value_in(b"35=", &listed.body));
    append_heading_line(out, listed, name_at(names, listed.who), &moment, kind)
}

/// Appends that 49 names nobody, where it does not.
pub(crate) fn append_stranger(
    out: &mut Vec<u8>,
    names: &Participants,
    body: &[u8],
) -> Result<(), AllocError>
    ensures { OnOk result (out.new.items ≡ out.old.items ++ text.stranger names.now body.now) }
{
    match names.find(value_in(b"49=", body)) {
        Some(_) => Ok(()),
        None => out.extend_from_slice(
            b"    49 (SenderCompID) names no participant of the file: taken as sent by the one above\n",
        ),
    }
}

/// Appends what is listed of a frame that came.
fn append_came(
    alloc: Global,
    out: &mut Vec<u8>,
    names: &Participants,
    heard: &Heard,
) -> Result<(), AllocError>
    ensures { (r : Reader) → OnOk result (out.new.items ≡ out.old.items ++ text.came r names.now heard.now) }
{
    append_heading(out, names, &heard.item)?;
    append_body(alloc, out, Direction::Came, &heard.item.body)?;
    append_stranger(out, names, &heard.item.body)?;
    append_outcome(alloc, out, names, heard)?;
    append_answers(alloc, out, names, &heard.sent)
}

/// Appends what is listed of a frame that the venue sent.
fn append_of_venue(alloc: Global, out: &mut Vec<u8>, listed: &LogItem) -> Result<(), AllocError>
    ensures { (r : Reader) → OnOk result (out.new.items ≡ out.old.items ++ text.of_venue r listed.now) }
{
    append_parts(
        out,
        &[
            Part::Bytes(b"\nframe "),
            Part::Number(listed.number),
            Part::Bytes(b" at byte "),
            Part::Number(listed.place),
            Part::Bytes(b", sent by the venue, and not answered: "),
            Part::Bytes(kind_name(value_in(b"35=", &listed.body))),
            Part::Bytes(b"\n"),
        ],
    )?;
    append_body(alloc, out, Direction::Sent, &listed.body)
}

/// Appends what begins as a frame and is none, as it stands in the log.
fn append_none_line<'a>(
    out: &mut Vec<u8>,
    listed: &LogItem,
    shown: &'a [u8],
) -> Result<(), AllocError>
    ensures { OnOk result (out.new.items ≡ out.old.items ++ text.none_line listed.now.number listed.now.place shown.now) }
{
    append_parts(
        out,
        &[
            Part::Bytes(b"\nbroken frame "),
            Part::Number(listed.number),
            Part::Bytes(b" at byte "),
            Part::Number(listed.place),
            Part::Bytes(b": "),
            Part::Bytes(shown),
            Part::Bytes(b"\n"),
        ],
    )
}

/// Appends that the venue ignores what is no frame, and when.
fn append_passed(out: &mut Vec<u8>) -> Result<(), AllocError>
    ensures { OnOk result (out.new.items ≡ out.old.items ++ text.passed_line) }
{
    out.extend_from_slice(
        b"    the venue ignores it as garbled, once as many bytes have come as BodyLength (9) says: until then it answers nothing; no number is used\n",
    )
}

/// Appends what is listed of what begins as a frame and is none.
fn append_none(alloc: Global, out: &mut Vec<u8>, listed: &LogItem) -> Result<(), AllocError>
    ensures { OnOk result (out.new.items ≡ out.old.items ++ text.no_frame listed.now) }
{
    let shown = readable_text(alloc, &listed.text)?;
    append_none_line(out, listed, &shown)?;
    append_broken(alloc, out, &listed.text)?;
    append_passed(out)
}

/// Appends a frame that is assumed.
fn append_assumed(alloc: Global, out: &mut Vec<u8>, listed: &LogItem) -> Result<(), AllocError>
    ensures { OnOk result (out.new.items ≡ out.old.items ++ text.assumed listed.now) }
{
    let shown = readable_text(alloc, &listed.text)?;
    append_parts(
        out,
        &[
            Part::Bytes(b"\nassumed, as it is not in the log: "),
            Part::Bytes(&shown),
            Part::Bytes(b"\n"),
        ],
    )
}

fn append_heard(
    alloc: Global,
    out: &mut Vec<u8>,
    names: &Participants,
    heard: &Heard,
) -> Result<(), AllocError>
    ensures { (r : Reader) → OnOk result (out.new.items ≡ out.old.items ++ text.heard_text r names.now heard.now) }
{
    match heard.item.source {
        Source::Participant => append_came(alloc, out, names, heard),
        Source::Assumed => append_assumed(alloc, out, &heard.item),
        Source::Venue => append_of_venue(alloc, out, &heard.item),
        Source::Broken => append_none(alloc, out, &heard.item),
    }
}

/// Appends what is listed of a log, in order.
pub(crate) fn append_all_heard(
    alloc: Global,
    out: &mut Vec<u8>,
    names: &Participants,
    heard: &[Heard],
) -> Result<(), AllocError>
    ensures { (r : Reader) → OnOk result (out.new.items ≡ out.old.items ++ flat_map (text.heard_text r names.now) heard.now) }
{
    for one in heard {
        append_heard(alloc, out, names, one)?;
    }
    Ok(())
}
