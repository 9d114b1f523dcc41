//! A cause in words: `related 1: b = ZETA is no participant`.

ghost use Rattle.std.specs.Prelude.{◌≡◌, ◌++◌, None, Some, codes, length, option_copied, string_bytes, IfOk, IfSome};
ghost use Rattle.std.specs.Fmt.{decimal, signed_decimal};
ghost use Rattle.std.specs.List.{list_any};
ghost use Rattle.toml.specs.Data.{get};
ghost use Rattle.toml.specs.Errors.{IsMemory};
ghost use Rattle.toml.specs.View.{view};
ghost use Rattle.config_format.specs.Document.{entries_in, text_at};
ghost use Rattle.file_diagnosis.specs.declared.cause.Cause.{Cause};
ghost use Rattle.file_diagnosis.specs.Causes.{key_word, part_word};
ghost use Rattle.file_diagnosis.specs.Instruments.{instruments_cause};
ghost use Rattle.file_diagnosis.specs.Line.{IsLineOn, entry_at, fault_text, is_control, is_shown, lacking, line_of, most_of, no_list, no_name, no_number, not_whole, of_venue, out_of_range, range_of, repeat, same_name, same_names, same_pair, shown, shown_at, too_many, unknown, with_place};
ghost use Rattle.file_diagnosis.specs.Participants.{participants_cause};

use crate::cause::{Cause, Key, Part, Wrong};
use crate::instruments_file::{MAX_INSTRUMENTS, instruments_cause};
use crate::participants_file::{MAX_PARTICIPANTS, participants_cause};
use crate::toml_line::toml_line;
use crate::words::{key_word, part_word};
use config_format::entries;
use std::alloc::{AllocError, Global};
use toml::Value;

/// The most bytes of a text of the file that are shown.
const MAX_SHOWN: usize = 64;

/// The range of a key's number.
fn range_of(key: Key) -> &'static str
    ensures { result.now ≡ range_of key }
{
    match key {
        Key::Tick => "1 to 1,000,000,000,000",
        Key::Least => "1 to 1,000,000,000,000,000",
        Key::RequestLife => "1 to 86,400",
        Key::Delay => "1,000 to 3,600,000",
        Key::Name | Key::A | Key::B | Key::Symbol => "",
    }
}

/// The most entries of a list.
fn most_of(part: Part) -> usize
    ensures { result ≡ most_of part }
{
    match part {
        Part::Instruments => MAX_INSTRUMENTS,
        Part::Participants | Part::Related | Part::Venue => MAX_PARTICIPANTS,
    }
}

/// The entry of a cause, or the file where it is none.
fn entry_of(file: &Value, cause: Cause) -> &Value
    ensures { view result.now ≡ entry_at (view file.now) cause.part cause.entry }
{
    let place = match cause.entry {
        Some(number) => number.saturating_sub(1),
        None => return file,
    };
    match entries(file, part_word(cause.part)).get(place) {
        Some(entry) => entry,
        None => file,
    }
}

/// The text at a key, or an empty one where there is none.
fn str_at<'a>(entry: &'a Value, key: &str) -> &'a str
    ensures { result.now ≡ text_at key.now (view entry.now) }
{
    match entry.get(key) {
        Some(Value::String(text)) => text.as_str(),
        _ => "",
    }
}

fn is_control(byte: u8) -> bool
    ensures { result ≡ is_control byte }
{
    byte < 32 || byte == 127
}

fn has_control(text: &[u8]) -> bool
    ensures { result ≡ list_any is_control text.now }
{
    text.iter().any(|byte| is_control(*byte))
}

fn is_shown(text: &str) -> bool
    ensures { result ≡ is_shown text.now }
{
    1 <= text.len() && text.len() <= MAX_SHOWN && !has_control(text.as_bytes())
}

/// The text at a key, if it is one to show: not empty, not long, without ASCII control characters.
fn shown<'a>(entry: &'a Value, key: &str) -> Option<&'a str>
    ensures { option_copied result ≡ shown (text_at key.now (view entry.now)) }
{
    let text = str_at(entry, key);
    if is_shown(text) { Some(text) } else { None }
}

fn shown_at<'a>(entry: &'a Value, key: &str) -> &'a str
    ensures { result.now ≡ shown_at key.now (view entry.now) }
{
    match shown(entry, key) {
        Some(text) => text,
        None => "",
    }
}

fn bad_name(alloc: Global, text: &str) -> Result<String, AllocError>
    ensures { IfOk result (λ line. string_bytes line ≡ no_name (Some text.now)) }
{
    format!(in alloc;
        " = \"{text}\" is not 1 to 64 printable ASCII characters without space or comma"
    )
}

/// A value without the form of a name, behind its key.
fn no_name(alloc: Global, entry: &Value, key: &str) -> Result<String, AllocError>
    ensures { IfOk result (λ line. string_bytes line ≡ no_name (shown (text_at key.now (view entry.now)))) }
{
    match shown(entry, key) {
        Some(text) => bad_name(alloc, text),
        None => String::from_str(
            alloc,
            " is not 1 to 64 printable ASCII characters without space or comma",
        ),
    }
}

fn no_name_at(alloc: Global, entry: &Value, key: &str) -> Result<String, AllocError>
    ensures { IfOk result (λ line. string_bytes line ≡ key.now ++ no_name (shown (text_at key.now (view entry.now)))) }
{
    let fault = no_name(alloc, entry, key)?;
    format!(in alloc; "{key}{fault}")
}

fn signed_text(alloc: Global, number: i64) -> Result<String, AllocError>
    ensures { IfOk result (λ line. string_bytes line ≡ signed_decimal number) }
{
    format!(in alloc; "{number}")
}

fn number_text(alloc: Global, number: usize) -> Result<String, AllocError>
    ensures { IfOk result (λ line. string_bytes line ≡ decimal number) }
{
    format!(in alloc; "{number}")
}

fn out_of_range(alloc: Global, key: Key, number: &str) -> Result<String, AllocError>
    ensures { IfOk result (λ line. string_bytes line ≡ out_of_range key number.now) }
{
    let (word, range) = (key_word(key), range_of(key));
    format!(in alloc; "{word} = {number} is not a whole number from {range}")
}

fn not_whole(alloc: Global, key: Key) -> Result<String, AllocError>
    ensures { IfOk result (λ line. string_bytes line ≡ not_whole key) }
{
    let (word, range) = (key_word(key), range_of(key));
    format!(in alloc; "{word} is not a whole number from {range}")
}

fn no_number(alloc: Global, entry: &Value, key: Key) -> Result<String, AllocError>
    ensures { IfOk result (λ line. string_bytes line ≡ no_number key (get (key_word key) (view entry.now))) }
{
    match entry.get(key_word(key)) {
        Some(Value::Integer(number)) => {
            let number = signed_text(alloc, *number)?;
            out_of_range(alloc, key, number.as_str())
        }
        _ => not_whole(alloc, key),
    }
}

fn same_pair(alloc: Global, entry: &Value) -> Result<String, AllocError>
    ensures { IfOk result (λ line. string_bytes line ≡ same_pair (view entry.now)) }
{
    let (a, b) = (shown_at(entry, "a"), shown_at(entry, "b"));
    format!(in alloc; "{a} and {b}: an earlier entry has this pair")
}

fn same_name(alloc: Global, entry: &Value, key: &str) -> Result<String, AllocError>
    ensures { IfOk result (λ line. string_bytes line ≡ same_name key.now (view entry.now)) }
{
    let text = shown_at(entry, key);
    format!(in alloc; "{key} = {text}: an earlier entry has it")
}

/// A name, a symbol or a pair of an entry before.
fn repeat(alloc: Global, entry: &Value, part: Part) -> Result<String, AllocError>
    ensures { IfOk result (λ line. string_bytes line ≡ repeat part (view entry.now)) }
{
    match part {
        Part::Related => same_pair(alloc, entry),
        Part::Instruments => same_name(alloc, entry, "symbol"),
        Part::Venue | Part::Participants => same_name(alloc, entry, "name"),
    }
}

fn no_list(alloc: Global, part: Part) -> Result<String, AllocError>
    ensures { IfOk result (λ line. string_bytes line ≡ no_list part) }
{
    let part = part_word(part);
    format!(in alloc; " is no list; each entry begins with [[{part}]]")
}

fn lacking(alloc: Global, key: Key) -> Result<String, AllocError>
    ensures { IfOk result (λ line. string_bytes line ≡ lacking key) }
{
    let key = key_word(key);
    format!(in alloc; "{key} is missing")
}

fn same_names(alloc: Global, entry: &Value) -> Result<String, AllocError>
    ensures { IfOk result (λ line. string_bytes line ≡ same_names (view entry.now)) }
{
    let name = shown_at(entry, "a");
    format!(in alloc; "a and b are both {name}")
}

fn of_venue(alloc: Global, entry: &Value) -> Result<String, AllocError>
    ensures { IfOk result (λ line. string_bytes line ≡ of_venue (view entry.now)) }
{
    let name = shown_at(entry, "name");
    format!(in alloc; "name = {name} is the venue's")
}

fn unknown(alloc: Global, entry: &Value, key: Key) -> Result<String, AllocError>
    ensures { IfOk result (λ line. string_bytes line ≡ unknown key (view entry.now)) }
{
    let key = key_word(key);
    let name = shown_at(entry, key);
    format!(in alloc; "{key} = {name} is no participant")
}

fn too_many(alloc: Global, count: usize, most: usize) -> Result<String, AllocError>
    ensures { IfOk result (λ line. string_bytes line ≡ too_many count most) }
{
    let count = number_text(alloc, count)?;
    let most = number_text(alloc, most)?;
    format!(in alloc; " has {count} entries, at most {most} are allowed")
}

/// The number of entries of a part.
fn count_of(file: &Value, part: Part) -> usize
    ensures { result ≡ length (entries_in (get (part_word part) (view file.now))) }
{
    entries(file, part_word(part)).len()
}

/// The fault, in words, behind its part or its entry.
fn fault_text(
    alloc: Global,
    file: &Value,
    entry: &Value,
    cause: Cause,
) -> Result<String, AllocError>
    ensures { IfOk result (λ line. string_bytes line ≡ fault_text (view file.now) (view entry.now) cause.part cause.wrong) }
{
    match cause.wrong {
        Wrong::Absent => String::from_str(alloc, " is missing"),
        Wrong::NoEntry => String::from_str(alloc, " has no entry"),
        Wrong::NoList => no_list(alloc, cause.part),
        Wrong::NoTable => String::from_str(alloc, "not a table"),
        Wrong::NoVenue => no_name(alloc, file, "venue"),
        Wrong::Lacks(key) => lacking(alloc, key),
        Wrong::NoName(key) => no_name_at(alloc, entry, key_word(key)),
        Wrong::NoNumber(key) => no_number(alloc, entry, key),
        Wrong::Same => same_names(alloc, entry),
        Wrong::OfVenue => of_venue(alloc, entry),
        Wrong::Twice => repeat(alloc, entry, cause.part),
        Wrong::Unknown(key) => unknown(alloc, entry, key),
        Wrong::TooMany => too_many(alloc, count_of(file, cause.part), most_of(cause.part)),
    }
}

fn of_entry(alloc: Global, part: &str, number: usize, fault: &str) -> Result<String, AllocError>
    ensures { IfOk result (λ line. string_bytes line ≡ with_place part.now (Some number) fault.now) }
{
    let number = number_text(alloc, number)?;
    format!(in alloc; "{part} {number}: {fault}")
}

fn of_part(alloc: Global, part: &str, fault: &str) -> Result<String, AllocError>
    ensures { IfOk result (λ line. string_bytes line ≡ with_place part.now None fault.now) }
{
    format!(in alloc; "{part}{fault}")
}

/// The fault behind its part, or behind the number of its entry.
fn with_place(
    alloc: Global,
    part: &str,
    entry: Option<usize>,
    fault: &str,
) -> Result<String, AllocError>
    ensures { IfOk result (λ line. string_bytes line ≡ with_place part.now entry fault.now) }
{
    match entry {
        Some(number) => of_entry(alloc, part, number, fault),
        None => of_part(alloc, part, fault),
    }
}

/// The line on a cause.
fn line_of(alloc: Global, file: &Value, cause: Cause) -> Result<String, AllocError>
    ensures { IfOk result (λ line. string_bytes line ≡ line_of (view file.now) cause) }
{
    let fault = fault_text(alloc, file, entry_of(file, cause), cause)?;
    with_place(alloc, part_word(cause.part), cause.entry, fault.as_str())
}

fn line_on(alloc: Global, file: &Value, cause: Option<Cause>) -> Option<String>
    ensures { IfSome result (λ line. ((c : Cause) × (cause ≡ Some c) × (string_bytes line ≡ line_of (view file.now) c))) }
{
    let Some(cause) = cause else {
        return None;
    };
    match line_of(alloc, file, cause) {
        Ok(line) => Some(line),
        Err(_) => None,
    }
}

/// The line on a text that is no TOML.
fn line_on_text(alloc: Global, text: &[u8], error: &toml::de::Error) -> Option<String>
    ensures { IfSome result (λ _. ¬ IsMemory error.now) }
{
    if error.is_memory() {
        return None;
    }
    match toml_line(alloc, text, error) {
        Ok(line) => Some(line),
        Err(_) => None,
    }
}

/// The line on a participant file that is refused: the first entry at fault, and its fault. None where the file is not
/// refused, or where an allocation fails.
pub fn participants_line(alloc: Global, text: &[u8]) -> Option<String>
    ensures { IfSome result (λ line. IsLineOn participants_cause text.now (string_bytes line)) }
{
    match toml::table_from_slice(alloc, text) {
        Ok(table) => {
            let file = Value::Table(table);
            line_on(alloc, &file, participants_cause(&file))
        }
        Err(error) => line_on_text(alloc, text, &error),
    }
}

/// The same of an instrument file.
pub fn instruments_line(alloc: Global, text: &[u8]) -> Option<String>
    ensures { IfSome result (λ line. IsLineOn instruments_cause text.now (string_bytes line)) }
{
    match toml::table_from_slice(alloc, text) {
        Ok(table) => {
            let file = Value::Table(table);
            line_on(alloc, &file, instruments_cause(&file))
        }
        Err(error) => line_on_text(alloc, text, &error),
    }
}
