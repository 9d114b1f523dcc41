//! Questions in the words of the command line.

ghost use Rattle.std.specs.Prelude.{◌≡◌, None, IfOk, IfErr, IfSome, codes, option_map, string_bytes};
ghost use Rattle.trail_questions.specs.Words.{IsMisspelt, IsMisspeltBook, IsMisspeltNarrowing, IsMisspeltRests, IsNoName, IsNoNumber, IsNoSpan, Spells, SpellsBook, SpellsNarrowing, SpellsNumber, SpellsRests, SpellsRows};

use crate::answers::Narrowing;
use crate::book::BookAfter;
use crate::fault::Unknown;
use crate::numbers::{order_number, plain_number, room_number, span_in, trade_number};
use crate::question::Question;
use crate::rests::RestsAfter;
use fix_dictionary::Identifier;
use message_words::Form;
use participant_activity::Form as ActivityForm;
use resting_orders::Form as BookForm;
use surveillance::{Form as WatchForm, Thresholds};
use trail_answers::RowSpan;

/// What narrows the answers, as it was written.
#[derive(Drop)]
pub struct NarrowingWords {
    pub to: Option<String>,
    pub from: Option<String>,
    pub row: Option<String>,
    pub order: Option<String>,
    pub room: Option<String>,
}

/// An instrument and a row, as they were written.
#[derive(Drop)]
pub struct BookWords {
    pub symbol: String,
    pub row: Option<String>,
}

/// A participant and a row, as they were written.
#[derive(Drop)]
pub struct RestsWords {
    pub to: Option<String>,
    pub row: Option<String>,
}

/// A question, as it was written.
#[derive(Drop)]
pub enum AskedWords {
    /// `--csv`
    Table,
    /// `--trade T3`
    Evidence(String),
    /// `--trade all`
    Evidences,
    /// `--why 12`
    Why(String),
    /// `--answers`
    Answers(NarrowingWords, Form),
    /// `--book IRS5Y`, perhaps with `--row 12`
    Book(BookWords, BookForm),
    /// `--rests`, perhaps with `--to BETA` and `--row 12`
    Rests(RestsWords, BookForm),
    /// `--against FILE --desk BETA`, with the bytes of the file
    Against(String, Vec<u8>),
    /// `--desk BETA`
    Activity(String, ActivityForm),
    /// `--digest`, perhaps with `--row 12`
    Digest(Option<String>),
    /// `--page`
    Page,
    /// `--watch`, perhaps with `--thresholds FILE`: with the bounds that the file states
    Watch(Thresholds, WatchForm),
}

/// A name, if one is given. Nothing where it is none.
fn name_given(word: &Option<String>) -> Option<Option<Identifier>>
    ensures spelled { IfSome result (λ name. name ≡ option_map string_bytes word.now) }
    ensures refused { result ≡ None → IsNoName (option_map string_bytes word.now) }
{
    match word {
        None => Some(None),
        Some(word) => match Identifier::read(word.as_bytes()) {
            Some(name) => Some(Some(name)),
            None => None,
        },
    }
}

/// The rows `N` or `N-M`, if some are given.
fn rows_given(word: &Option<String>) -> Option<Option<RowSpan>>
    ensures spelled { IfSome result (SpellsRows (option_map string_bytes word.now)) }
    ensures refused { result ≡ None → IsNoSpan (option_map string_bytes word.now) }
{
    match word {
        None => Some(None),
        Some(word) => match span_in(word) {
            Some(span) => Some(Some(span)),
            None => None,
        },
    }
}

/// The order `O3`, if one is given.
fn order_given(word: &Option<String>) -> Option<Option<u64>>
    ensures spelled { IfSome result (SpellsNumber (codes "O") (option_map string_bytes word.now)) }
    ensures refused { result ≡ None → IsNoNumber (codes "O") (option_map string_bytes word.now) }
{
    match word {
        None => Some(None),
        Some(word) => match order_number(word) {
            Some(number) => Some(Some(number)),
            None => None,
        },
    }
}

/// The room `R1`, if one is given.
fn room_given(word: &Option<String>) -> Option<Option<u64>>
    ensures spelled { IfSome result (SpellsNumber (codes "R") (option_map string_bytes word.now)) }
    ensures refused { result ≡ None → IsNoNumber (codes "R") (option_map string_bytes word.now) }
{
    match word {
        None => Some(None),
        Some(word) => match room_number(word) {
            Some(number) => Some(Some(number)),
            None => None,
        },
    }
}

/// The row `N`, if one is given.
fn row_given(word: &Option<String>) -> Option<Option<u64>>
    ensures spelled { IfSome result (SpellsNumber (codes "") (option_map string_bytes word.now)) }
    ensures refused { result ≡ None → IsNoNumber (codes "") (option_map string_bytes word.now) }
{
    match word {
        None => Some(None),
        Some(word) => match plain_number(word) {
            Some(number) => Some(Some(number)),
            None => None,
        },
    }
}

fn narrowing_of(words: &NarrowingWords) -> Result<Narrowing, Unknown>
    ensures spelled { IfOk result (SpellsNarrowing words.now) }
    ensures refused { IfErr result (IsMisspeltNarrowing words.now) }
{
    let Some(to) = name_given(&words.to) else {
        return Err(Unknown::Recipient);
    };
    let Some(from) = name_given(&words.from) else {
        return Err(Unknown::Sender);
    };
    let Some(rows) = rows_given(&words.row) else {
        return Err(Unknown::Row);
    };
    let Some(order) = order_given(&words.order) else {
        return Err(Unknown::Order);
    };
    let Some(room) = room_given(&words.room) else {
        return Err(Unknown::Room);
    };
    Ok(Narrowing {
        to,
        from,
        rows,
        order,
        room,
    })
}

fn book_of(words: &BookWords) -> Result<BookAfter, Unknown>
    ensures spelled { IfOk result (SpellsBook words.now) }
    ensures refused { IfErr result (IsMisspeltBook words.now) }
{
    let Some(symbol) = Identifier::read(words.symbol.as_bytes()) else {
        return Err(Unknown::Instrument);
    };
    match row_given(&words.row) {
        Some(row) => Ok(BookAfter { symbol, row }),
        None => Err(Unknown::Row),
    }
}

fn rests_of(words: &RestsWords) -> Result<RestsAfter, Unknown>
    ensures spelled { IfOk result (SpellsRests words.now) }
    ensures refused { IfErr result (IsMisspeltRests words.now) }
{
    let Some(to) = name_given(&words.to) else {
        return Err(Unknown::Recipient);
    };
    match row_given(&words.row) {
        Some(row) => Ok(RestsAfter { to, row }),
        None => Err(Unknown::Row),
    }
}

/// The question in these words: each word sets the field that it names. Where a word has not the form of what it
/// names, that is refused.
pub fn question_of<'a>(words: &'a AskedWords) -> Result<Question<'a>, Unknown>
    ensures spelled { IfOk result (Spells words.now) }
    ensures refused { IfErr result (IsMisspelt words.now) }
{
    match words {
        AskedWords::Table => Ok(Question::Table),
        AskedWords::Page => Ok(Question::Page),
        AskedWords::Watch(bounds, form) => Ok(Question::Watch(*bounds, *form)),
        AskedWords::Evidence(word) => match trade_number(word) {
            Some(number) => Ok(Question::Evidence(number)),
            None => Err(Unknown::Trade),
        },
        AskedWords::Evidences => Ok(Question::Evidences),
        AskedWords::Why(word) => match plain_number(word) {
            Some(number) => Ok(Question::Why(number)),
            None => Err(Unknown::Row),
        },
        AskedWords::Answers(words, form) => match narrowing_of(words) {
            Ok(narrowing) => Ok(Question::Answers(narrowing, *form)),
            Err(unknown) => Err(unknown),
        },
        AskedWords::Book(words, form) => match book_of(words) {
            Ok(book) => Ok(Question::Book(book, *form)),
            Err(unknown) => Err(unknown),
        },
        AskedWords::Rests(words, form) => match rests_of(words) {
            Ok(rests) => Ok(Question::Rests(rests, *form)),
            Err(unknown) => Err(unknown),
        },
        AskedWords::Against(desk, log) => match Identifier::read(desk.as_bytes()) {
            Some(desk) => Ok(Question::Against(desk, log.as_slice())),
            None => Err(Unknown::Recipient),
        },
        AskedWords::Activity(desk, form) => match Identifier::read(desk.as_bytes()) {
            Some(desk) => Ok(Question::Activity(desk, *form)),
            None => Err(Unknown::Recipient),
        },
        AskedWords::Digest(word) => match row_given(word) {
            Some(row) => Ok(Question::Digest(row)),
            None => Err(Unknown::Row),
        },
    }
}
