//! Why the program ends with a status other than 0, with what it knows of the cause.

use crate::failure::Failure;
use std::alloc::Global;
use trail_questions::{
    AskedWords, BookWords, BrokenLine, NarrowingWords, NoLog, RestsWords, Unknown, span_in,
};

/// A failure, and a line that names the word or the entry at fault, if one is known.
#[derive(Drop)]
pub struct Refused {
    pub failure: Failure,
    pub reason: Option<String>,
}

impl From<Failure> for Refused {
    fn from(failure: Failure) -> Refused {
        Refused {
            failure,
            reason: None,
        }
    }
}

impl Refused {
    /// A refusal of a word. Without its reason where an allocation fails.
    pub fn of_word(alloc: Global, failure: Failure, word: &str, reason: &str) -> Refused {
        let reason = match format!(in alloc; "{word}: {reason}") {
            Ok(text) => Some(text),
            Err(_) => None,
        };
        Refused { failure, reason }
    }

    /// A refusal of a file, without more that is known of it.
    pub fn of_file(alloc: Global, failure: Failure, path: &str) -> Refused {
        let reason = match String::from_str(alloc, path) {
            Ok(text) => Some(text),
            Err(_) => None,
        };
        Refused { failure, reason }
    }

    /// A refusal of two words that do not go together.
    pub fn of_two(alloc: Global, one: &str, other: &str, reason: &str) -> Refused {
        let reason = match format!(in alloc; "{one} and {other}: {reason}") {
            Ok(text) => Some(text),
            Err(_) => None,
        };
        Refused {
            failure: Failure::CommandLine,
            reason,
        }
    }

    /// A refusal of the command line.
    pub fn of_command_line(alloc: Global, reason: &str) -> Refused {
        let reason = match String::from_str(alloc, reason) {
            Ok(text) => Some(text),
            Err(_) => None,
        };
        Refused {
            failure: Failure::CommandLine,
            reason,
        }
    }
}

/// Why what a question names is refused: the day has none.
fn absence_of(unknown: Unknown) -> &'static str {
    match unknown {
        Unknown::Trade => "the day has no trade with this number",
        Unknown::Recipient | Unknown::Sender => "no participant of the trail has this name",
        Unknown::Instrument => "no instrument of the trail has this symbol",
        Unknown::Row => "the trail has no such row",
        Unknown::Order => "no row of the day is about this order",
        Unknown::Room => "no request of the day was sent in this room",
        Unknown::Log(_) => "no frame from the venue to the desk stands in it",
    }
}

/// The refusal of a name that no participant of the trail has.
pub fn nobody_named(alloc: Global, name: &str) -> Refused {
    let nobody = Unknown::Sender;
    Refused::of_word(alloc, Failure::Unknown(nobody), name, absence_of(nobody))
}

/// Why a word that names a row, or the rows from one to another, is refused.
fn absence_of_rows(word: &str) -> &'static str {
    match span_in(word) {
        Some(span) => {
            if span.first > span.last {
                "the first row is behind the last"
            } else {
                absence_of(Unknown::Row)
            }
        }
        None => absence_of(Unknown::Row),
    }
}

/// Why a word is refused: how such a one is written.
fn form_of(unknown: Unknown) -> &'static str {
    match unknown {
        Unknown::Trade => "a trade is written as T3, each of the day as all",
        Unknown::Recipient | Unknown::Sender => "a name has 1 to 64 characters",
        Unknown::Instrument => "a symbol has 1 to 64 characters",
        Unknown::Row => "a row is written as 12, the rows from 12 to 15 as 12-15",
        Unknown::Order => "an order is written as O3",
        Unknown::Room => "a room is written as R1",
        Unknown::Log(_) => "a log of messages",
    }
}

fn narrowing_word(words: &NarrowingWords, unknown: Unknown) -> Option<&str> {
    let word = match unknown {
        Unknown::Recipient => &words.to,
        Unknown::Sender => &words.from,
        Unknown::Row => &words.row,
        Unknown::Order => &words.order,
        Unknown::Room => &words.room,
        _ => return None,
    };
    match word {
        Some(word) => Some(word.as_str()),
        None => None,
    }
}

fn book_word(words: &BookWords, unknown: Unknown) -> Option<&str> {
    match unknown {
        Unknown::Instrument => Some(words.symbol.as_str()),
        _ => match &words.row {
            Some(row) => Some(row.as_str()),
            None => None,
        },
    }
}

fn rests_word(words: &RestsWords, unknown: Unknown) -> Option<&str> {
    let word = match unknown {
        Unknown::Recipient => &words.to,
        _ => &words.row,
    };
    match word {
        Some(word) => Some(word.as_str()),
        None => None,
    }
}

/// The word that names this.
fn word_for(words: &AskedWords, unknown: Unknown) -> Option<&str> {
    match words {
        AskedWords::Evidence(word) => Some(word.as_str()),
        AskedWords::Why(word) => Some(word.as_str()),
        AskedWords::Digest(Some(word)) => Some(word.as_str()),
        AskedWords::Against(desk, _) => Some(desk.as_str()),
        AskedWords::Activity(desk, _) => Some(desk.as_str()),
        AskedWords::Table
        | AskedWords::Evidences
        | AskedWords::Digest(None)
        | AskedWords::Page
        | AskedWords::Watch(_, _) => None,
        AskedWords::Book(words, _) => book_word(words, unknown),
        AskedWords::Rests(words, _) => rests_word(words, unknown),
        AskedWords::Answers(words, _) => narrowing_word(words, unknown),
    }
}

fn of_unknown(alloc: Global, words: &AskedWords, unknown: Unknown, reason: &str) -> Refused {
    match word_for(words, unknown) {
        Some(word) => Refused::of_word(alloc, Failure::Unknown(unknown), word, reason),
        None => Refused::from(Failure::Unknown(unknown)),
    }
}

/// The refusal of a file that is no log of a desk.
fn of_no_log(alloc: Global, unknown: Unknown, lack: NoLog) -> Refused {
    let frames = lack.frames;
    let text = match lack.broken {
        None => format!(in alloc;
            "no frame from the venue to the desk stands in it; frames of others: {frames}"
        ),
        Some(BrokenLine::Length(line)) => {
            format!(in alloc;
                "no frame from the venue to the desk stands in it; frames of others: {frames}; line {line} begins as a frame and is none: BodyLength (9) is wrong"
            )
        }
        Some(BrokenLine::Checksum(line)) => {
            format!(in alloc;
                "no frame from the venue to the desk stands in it; frames of others: {frames}; line {line} begins as a frame and is none: CheckSum (10) is wrong"
            )
        }
    };
    let reason = match text {
        Ok(text) => Some(text),
        Err(_) => None,
    };
    Refused {
        failure: Failure::Unknown(unknown),
        reason,
    }
}

/// The refusal of what a question names and the day has not.
pub fn absent_in(alloc: Global, words: &AskedWords, unknown: Unknown) -> Refused {
    if let Unknown::Log(lack) = unknown {
        return of_no_log(alloc, unknown, lack);
    }
    match word_for(words, unknown) {
        Some(word) => {
            let reason = match unknown {
                Unknown::Row => absence_of_rows(word),
                _ => absence_of(unknown),
            };
            Refused::of_word(alloc, Failure::Unknown(unknown), word, reason)
        }
        None => Refused::from(Failure::Unknown(unknown)),
    }
}

/// The refusal of a word that has not its form.
pub fn misspelt_in(alloc: Global, words: &AskedWords, unknown: Unknown) -> Refused {
    of_unknown(alloc, words, unknown, form_of(unknown))
}
