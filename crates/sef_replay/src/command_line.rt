//! The command line.

use crate::failure::{Failure, Stop};
use crate::refused::Refused;
use clap::error::ErrorKind;
use clap::{Arg, ArgAction, ArgMatches, Command, Error};
use message_words::Form as AnswersForm;
use program_shell::words_given;
use std::alloc::{AllocError, Global};
use trail_questions::{
    ActivityForm, AskedWords, BookForm, BookWords, NarrowingWords, RestsWords, WatchForm,
};

/// The request of the command line.
#[derive(Drop)]
pub enum Task {
    /// `TRAIL`
    Print {
        path: String,
    },
    /// `--migrate TRAIL`: first updates a trail of an older version to version 3.
    Migrate {
        path: String,
    },
    /// `TRAIL` and a question
    Ask {
        path: String,
        words: AskedWords,
    },
    /// `TRAIL --against FILE --desk NAME`
    Against {
        path: String,
        desk: String,
        log: String,
    },
    /// `TRAIL --watch`, perhaps with `--thresholds FILE`
    Watch {
        path: String,
        thresholds: Option<String>,
        form: WatchForm,
    },
    /// `TRAIL --with FILE`
    With {
        path: String,
        file: String,
    },
    /// `TRAIL --without NAME`
    Without {
        path: String,
        name: String,
    },
    /// `--compare TRAIL OTHER`
    Compare {
        path: String,
        other: String,
    },
    /// `--help`: the text was printed.
    Help,
}

/// What is printed: each is printed alone.
#[derive(Clone, Copy, PartialEq, Eq)]
enum Mode {
    Day,
    Migrate,
    Ask(Asked),
    Against,
    With,
    Without,
    Watch,
    Compare,
}

/// A question in words, which needs no second file.
#[derive(Clone, Copy, PartialEq, Eq)]
enum Asked {
    Trade,
    Why,
    Answers,
    Book,
    Rests,
    Desk,
    Digest,
    Page,
}

/// A word that narrows what is printed, or gives it a form.
#[derive(Clone, Copy)]
enum Word {
    To,
    From,
    Row,
    Order,
    Room,
    Desk,
    Thresholds,
    Csv,
    Json,
    /// A second trail.
    Other,
}

/// Arguments that are understood each, and do not go together.
#[derive(Clone, Copy)]
enum Misfit {
    /// No trail is named.
    NoTrail,
    /// Two of what is printed.
    Two(Mode, Mode),
    /// A word that goes with something else.
    Astray(Word),
    /// Two forms.
    Forms,
    /// Rows by their sender, and replies by their recipient.
    BothWays,
    /// A log without the name of its desk.
    NoDesk,
    /// One trail alone is to be compared.
    NoOther,
}

/// The word of what is printed.
fn mode_word(mode: Mode) -> &'static str {
    match mode {
        Mode::Day => "TRAIL",
        Mode::Migrate => "--migrate",
        Mode::Ask(asked) => asked_word(asked),
        Mode::Against => "--against",
        Mode::With => "--with",
        Mode::Without => "--without",
        Mode::Watch => "--watch",
        Mode::Compare => "--compare",
    }
}

fn asked_word(asked: Asked) -> &'static str {
    match asked {
        Asked::Trade => "--trade",
        Asked::Why => "--why",
        Asked::Answers => "--answers",
        Asked::Book => "--book",
        Asked::Rests => "--rests",
        Asked::Desk => "--desk",
        Asked::Digest => "--digest",
        Asked::Page => "--page",
    }
}

/// Whether a word goes with what is printed.
fn goes_with(word: Word, mode: Mode) -> bool {
    match word {
        Word::To => matches!(mode, Mode::Ask(Asked::Answers | Asked::Rests)),
        Word::From | Word::Order | Word::Room | Word::Json => mode == Mode::Ask(Asked::Answers),
        Word::Row => matches!(
            mode,
            Mode::Ask(Asked::Answers | Asked::Book | Asked::Rests | Asked::Digest)
        ),
        Word::Csv => matches!(
            mode,
            Mode::Day
                | Mode::Watch
                | Mode::Ask(Asked::Answers | Asked::Book | Asked::Rests | Asked::Desk)
        ),
        Word::Desk => matches!(mode, Mode::Against | Mode::Ask(Asked::Desk)),
        Word::Thresholds => mode == Mode::Watch,
        Word::Other => mode == Mode::Compare,
    }
}

/// With what a word goes.
fn place_of(word: Word) -> &'static str {
    match word {
        Word::To => "--to goes with --answers or --rests",
        Word::From => "--from goes with --answers",
        Word::Row => "--row goes with --answers, --book, --rests or --digest",
        Word::Order => "--order goes with --answers",
        Word::Room => "--room goes with --answers",
        Word::Desk => "--desk goes with --against, or alone",
        Word::Thresholds => "--thresholds goes with --watch",
        Word::Csv =>
            "--csv goes with the trades of a trail, which --migrate updates before, or with --answers, --book, --rests, --desk or --watch",
        Word::Json => "--json goes with --answers",
        Word::Other => "a second TRAIL goes with --compare",
    }
}

fn misfit_refused(alloc: Global, misfit: Misfit) -> Refused {
    match misfit {
        Misfit::NoTrail => {
            Refused::of_command_line(alloc, "no TRAIL is named: the file that keeps the trail")
        }
        Misfit::Two(one, other) => {
            Refused::of_two(
                alloc,
                mode_word(one),
                mode_word(other),
                "each is printed alone",
            )
        }
        Misfit::Astray(word) => Refused::of_command_line(alloc, place_of(word)),
        Misfit::NoDesk => {
            Refused::of_command_line(
                alloc,
                "--against goes with --desk: the participant whose log it is",
            )
        }
        Misfit::NoOther => Refused::of_command_line(
            alloc,
            "--compare goes with two trails: --compare A B",
        ),
        Misfit::Forms => Refused::of_two(alloc, "--csv", "--json", "one form at a time"),
        Misfit::BothWays => {
            Refused::of_two(
                alloc,
                "--from",
                "--to",
                "each alone: --from NAME prints what NAME sent, with each reply; --to NAME what NAME is owed",
            )
        }
    }
}

/// The request in the process's arguments.
pub fn task_given(rt: &HostRuntime) -> Result<Task, Refused> {
    let words = match words_given(rt) {
        Ok(words) => words,
        Err(fault) => return Err(Refused::from(Failure::from(fault))),
    };
    let task = task_in(rt.alloc(), &words);
    drop(words);
    match task {
        Ok(Ok(task)) => Ok(task),
        Ok(Err(misfit)) => Err(misfit_refused(rt.alloc(), misfit)),
        Err(error) => {
            let answer = answer_to_error(rt, &error);
            drop(error);
            answer
        }
    }
}

/// The help's examples, below the arguments.
const EXAMPLES: &str = "Examples:
  sef_replay day.trail                 each trade of the day: T1 book IRS5Y 60 @ 2.5 buyer ALPHA seller BETA
  sef_replay day.trail --csv           the same, for a spreadsheet
  sef_replay day.trail --trade T1      the evidence for this trade, a fact a line
  sef_replay day.trail --trade all     the same for each trade of the day, one after the other
  sef_replay day.trail --why 12        why the message of row 12 was refused, and when it would pass
  sef_replay day.trail --answers       each message and each reply to it, as FIX has it and in words
  sef_replay day.trail --answers --to BETA      what BETA is owed: each message once, in order, with its row
  sef_replay day.trail --answers --from BETA    what BETA sent, and each reply to it, to whomever
  sef_replay day.trail --answers --order O3     the life of this order, with what replaced it
  sef_replay day.trail --answers --room R1      the conversation about a request for quotes
  sef_replay day.trail --answers --json         the same, an object a line
  sef_replay day.trail --book IRS5Y    the orders that rest at the end of the day, with their owners
  sef_replay day.trail --book IRS5Y --row 7     the same after row 7
  sef_replay day.trail --rests         what rests or is held at the end of the day, for each participant; --to BETA for one
  sef_replay day.trail --against messages.log --desk BETA    whether BETA's log has what it was owed, in order
  sef_replay day.trail --desk BETA     BETA's own figures: requests, quotes, orders and trades
  sef_replay day.trail --with other.toml       the same rows under another file: answers that differ, trades lost and gained
  sef_replay day.trail --without BETA  the same rows without BETA's: answers that differ, trades lost and gained
  sef_replay day.trail --digest        the number of rows, and the digest of the trail's content; with --row, up to a row
  sef_replay day.trail --page >day.html        the day as one page of HTML, for a browser or for paper
  sef_replay day.trail --watch         alarms: self-trades, orders cancelled soon, ratios; with --thresholds FILE, by its thresholds
  sef_replay --compare A B             whether two trails are the same, the first row that differs, and which answers do
  sef_replay --migrate day.trail       of a trail of an older version, which is changed for good: copy it before

The files are read whole and not written, but for --migrate: media that cannot be written, a copy without a log, and the
trail of a venue that runs can be read. docs/COMPLIANCE.md explains what is printed.

Status: 0 done, and of --compare, --against, --with and --without, all that is compared is the same; 4 it is not, as is
printed, also where one is the first part of the other; 1 stopped; 2 the command line, 3 a trail or what was asked for
is refused, as a second line says.";

/// An argument without a value.
fn flag<'a>(alloc: Global, name: &'a str, help: &'a str) -> Arg<'a> {
    Arg::new(alloc, name)
        .long(name)
        .help(help)
        .action(ArgAction::SetTrue)
}

fn with_trail<'a>(alloc: Global, command: Command<'a>) -> Result<Command<'a>, AllocError> {
    let trail = Arg::new(alloc, "trail")
        .value_name("TRAIL")
        .help("The file that keeps the trail")
        .required(true)
        .action(ArgAction::Set);
    command.arg(trail)
}

fn with_compare<'a>(alloc: Global, command: Command<'a>) -> Result<Command<'a>, AllocError> {
    let other = Arg::new(alloc, "other")
        .value_name("OTHER")
        .help("Of --compare, the other trail")
        .action(ArgAction::Set);
    let command = command.arg(other)?;
    command.arg(flag(
        alloc,
        "compare",
        "Prints how two trails differ: files, delays, rows, and which rows have other answers",
    ))
}

fn with_migrate<'a>(alloc: Global, command: Command<'a>) -> Result<Command<'a>, AllocError> {
    command.arg(flag(
        alloc,
        "migrate",
        "First makes a trail of version 1 or 2 into one of version 3, in the file itself",
    ))
}

fn with_forms<'a>(alloc: Global, command: Command<'a>) -> Result<Command<'a>, AllocError> {
    let command = command.arg(flag(
        alloc,
        "csv",
        "Prints comma-separated values, for a spreadsheet",
    ))?;
    command.arg(flag(alloc, "json", "Prints an object a line"))
}

fn with_trade<'a>(alloc: Global, command: Command<'a>) -> Result<Command<'a>, AllocError> {
    let trade = Arg::new(alloc, "trade")
        .long("trade")
        .value_name("TRADE")
        .help("Prints the evidence for this trade, as T1, or for all")
        .action(ArgAction::Set);
    command.arg(trade)
}

/// An argument with a value.
fn option<'a>(alloc: Global, name: &'a str, value: &'a str, help: &'a str) -> Arg<'a> {
    Arg::new(alloc, name)
        .long(name)
        .value_name(value)
        .help(help)
        .action(ArgAction::Set)
}

/// An argument with a name as its value, which may begin with a hyphen.
fn name_option<'a>(alloc: Global, name: &'a str, value: &'a str, help: &'a str) -> Arg<'a> {
    option(alloc, name, value, help).allow_hyphen_values(true)
}

fn with_why<'a>(alloc: Global, command: Command<'a>) -> Result<Command<'a>, AllocError> {
    command.arg(option(
        alloc,
        "why",
        "N",
        "Prints why the message of this row was refused, by the rules' list of causes",
    ))
}

fn with_answers<'a>(alloc: Global, command: Command<'a>) -> Result<Command<'a>, AllocError> {
    command.arg(flag(
        alloc,
        "answers",
        "Prints each message of the day and each reply to it, in order",
    ))
}

fn with_to<'a>(alloc: Global, command: Command<'a>) -> Result<Command<'a>, AllocError> {
    command.arg(name_option(
        alloc,
        "to",
        "NAME",
        "Of the answers, the replies to this participant alone; of what rests, its own",
    ))
}

fn with_from<'a>(alloc: Global, command: Command<'a>) -> Result<Command<'a>, AllocError> {
    command.arg(name_option(
        alloc,
        "from",
        "NAME",
        "Of the answers, the rows that this participant sent",
    ))
}

fn with_row<'a>(alloc: Global, command: Command<'a>) -> Result<Command<'a>, AllocError> {
    command.arg(option(
        alloc,
        "row",
        "N[-M]",
        "Of the answers, these rows; the book, or what rests, after this row; the digest up to it",
    ))
}

fn with_order<'a>(alloc: Global, command: Command<'a>) -> Result<Command<'a>, AllocError> {
    command.arg(option(
        alloc,
        "order",
        "ORDER",
        "Of the answers, the rows of this order's life, as O3",
    ))
}

fn with_book<'a>(alloc: Global, command: Command<'a>) -> Result<Command<'a>, AllocError> {
    command.arg(name_option(
        alloc,
        "book",
        "SYMBOL",
        "Prints the book of this instrument, each order with its owner",
    ))
}

fn with_against<'a>(alloc: Global, command: Command<'a>) -> Result<Command<'a>, AllocError> {
    let command = command.arg(option(
        alloc,
        "against",
        "FILE",
        "Compares a desk's own log of FIX messages with what it was owed",
    ))?;
    command.arg(name_option(
        alloc,
        "desk",
        "NAME",
        "The participant whose log it is; alone, prints the figures of its own day",
    ))
}

fn with_other_runs<'a>(alloc: Global, command: Command<'a>) -> Result<Command<'a>, AllocError> {
    let command = command.arg(option(
        alloc,
        "with",
        "FILE",
        "Answers the rows by the participants or the instruments of this file, and prints what differs",
    ))?;
    command.arg(name_option(
        alloc,
        "without",
        "NAME",
        "Answers the rows without those that this participant sent, and prints what differs",
    ))
}

fn with_digest<'a>(alloc: Global, command: Command<'a>) -> Result<Command<'a>, AllocError> {
    command.arg(flag(
        alloc,
        "digest",
        "Prints how many rows the trail has, and the digest of its content",
    ))
}

fn with_page<'a>(alloc: Global, command: Command<'a>) -> Result<Command<'a>, AllocError> {
    command.arg(flag(alloc, "page", "Prints the day as one page of HTML"))
}

fn with_watch<'a>(alloc: Global, command: Command<'a>) -> Result<Command<'a>, AllocError> {
    let command = command.arg(flag(
        alloc,
        "watch",
        "Prints what surveillance of the day raises an alarm of",
    ))?;
    command.arg(option(
        alloc,
        "thresholds",
        "FILE",
        "Of --watch, the thresholds, as TOML; those that it does not state are the default ones",
    ))
}

/// The arguments of answers, books, logs, digests, pages and alarms.
fn with_questions<'a>(alloc: Global, command: Command<'a>) -> Result<Command<'a>, AllocError> {
    let command = with_answers(alloc, command)?;
    let command = with_to(alloc, command)?;
    let command = with_from(alloc, command)?;
    let command = with_row(alloc, command)?;
    let command = with_order(alloc, command)?;
    let command = command.arg(option(
        alloc,
        "room",
        "ROOM",
        "Of the answers, the rows of this request for quotes, as R1; a refused request has no room: --from NAME finds it",
    ))?;
    let command = with_book(alloc, command)?;
    let command = command.arg(flag(
        alloc,
        "rests",
        "Prints what rests or is held, for each participant",
    ))?;
    let command = with_against(alloc, command)?;
    let command = with_other_runs(alloc, command)?;
    let command = with_digest(alloc, command)?;
    let command = with_page(alloc, command)?;
    with_watch(alloc, command)
}

/// The program's command. Each argument is added by a function of its own: several in one function cost the proof a
/// case for each at every `?`.
fn program<'a>(alloc: Global) -> Result<Command<'a>, AllocError> {
    let command = Command::new(alloc, "sef_replay")
        .about(
            "Prints the trades of the day that a trail keeps, one line each; or the evidence for one, the venue's answers, or a book",
        )
        .after_help(EXAMPLES);
    let command = with_trail(alloc, command)?;
    let command = with_compare(alloc, command)?;
    let command = with_migrate(alloc, command)?;
    let command = with_forms(alloc, command)?;
    let command = with_trade(alloc, command)?;
    let command = with_why(alloc, command)?;
    with_questions(alloc, command)
}

/// The request in these arguments, if they are understood and ask for more than help.
fn task_in(alloc: Global, words: &[String]) -> Result<Result<Task, Misfit>, Error> {
    let matches = program(alloc)?.try_get_matches_from(words)?;
    let task = task_of(alloc, &matches);
    drop(matches);
    Ok(task?)
}

fn task_of(alloc: Global, given: &ArgMatches<'_>) -> Result<Result<Task, Misfit>, AllocError> {
    let Some(path) = given.get_str("trail") else {
        return Ok(Err(Misfit::NoTrail));
    };
    let mode = match mode_given(given) {
        Ok(mode) => mode,
        Err(misfit) => return Ok(Err(misfit)),
    };
    if let Some(misfit) = misfit_of(given, mode) {
        return Ok(Err(misfit));
    }
    let task = task_at(alloc, given, mode, String::from_str(alloc, path)?)?;
    Ok(Ok(task))
}

/// One more of what is printed, if it is given.
fn and_mode(so_far: Result<Mode, Misfit>, is_given: bool, mode: Mode) -> Result<Mode, Misfit> {
    match so_far {
        Ok(Mode::Day) if is_given => Ok(mode),
        Ok(other) if is_given => Err(Misfit::Two(other, mode)),
        so_far => so_far,
    }
}

/// What is printed.
fn mode_given(given: &ArgMatches<'_>) -> Result<Mode, Misfit> {
    let mode = and_mode(Ok(Mode::Day), given.get_flag("migrate"), Mode::Migrate);
    let mode = and_mode(
        mode,
        given.get_str("trade").is_some(),
        Mode::Ask(Asked::Trade),
    );
    let mode = and_mode(mode, given.get_str("why").is_some(), Mode::Ask(Asked::Why));
    let mode = and_mode(mode, given.get_flag("answers"), Mode::Ask(Asked::Answers));
    let mode = and_mode(
        mode,
        given.get_str("book").is_some(),
        Mode::Ask(Asked::Book),
    );
    let mode = and_mode(mode, given.get_flag("rests"), Mode::Ask(Asked::Rests));
    let mode = and_mode(mode, given.get_str("against").is_some(), Mode::Against);
    let is_desk = given.get_str("desk").is_some() && given.get_str("against").is_none();
    let mode = and_mode(mode, is_desk, Mode::Ask(Asked::Desk));
    let mode = and_mode(mode, given.get_str("with").is_some(), Mode::With);
    let mode = and_mode(mode, given.get_str("without").is_some(), Mode::Without);
    let mode = and_mode(mode, given.get_flag("digest"), Mode::Ask(Asked::Digest));
    let mode = and_mode(mode, given.get_flag("page"), Mode::Ask(Asked::Page));
    let mode = and_mode(mode, given.get_flag("watch"), Mode::Watch);
    and_mode(mode, given.get_flag("compare"), Mode::Compare)
}

/// The misfit of a word, where it is given and goes with something else.
fn astray(is_given: bool, word: Word, mode: Mode) -> Option<Misfit> {
    if is_given && !goes_with(word, mode) {
        Some(Misfit::Astray(word))
    } else {
        None
    }
}

/// The misfit of a sender and a recipient, each of which is asked for alone.
fn both_ways(given: &ArgMatches<'_>) -> Option<Misfit> {
    if given.get_str("from").is_some() && given.get_str("to").is_some() {
        Some(Misfit::BothWays)
    } else {
        None
    }
}

fn misfit_of(given: &ArgMatches<'_>, mode: Mode) -> Option<Misfit> {
    let csv = given.get_flag("csv");
    let json = given.get_flag("json");
    if csv && json {
        return Some(Misfit::Forms);
    }
    if mode == Mode::Against && given.get_str("desk").is_none() {
        return Some(Misfit::NoDesk);
    }
    if mode == Mode::Compare && given.get_str("other").is_none() {
        return Some(Misfit::NoOther);
    }
    astray(given.get_str("to").is_some(), Word::To, mode)
        .or(astray(given.get_str("from").is_some(), Word::From, mode))
        .or(astray(given.get_str("row").is_some(), Word::Row, mode))
        .or(astray(given.get_str("order").is_some(), Word::Order, mode))
        .or(astray(given.get_str("room").is_some(), Word::Room, mode))
        .or(astray(given.get_str("desk").is_some(), Word::Desk, mode))
        .or(astray(
            given.get_str("thresholds").is_some(),
            Word::Thresholds,
            mode,
        ))
        .or(astray(csv, Word::Csv, mode))
        .or(astray(json, Word::Json, mode))
        .or(astray(given.get_str("other").is_some(), Word::Other, mode))
        .or(both_ways(given))
}

fn task_at(
    alloc: Global,
    given: &ArgMatches<'_>,
    mode: Mode,
    path: String,
) -> Result<Task, AllocError> {
    match mode {
        Mode::Day => Ok(day_of(given, path)),
        Mode::Migrate => Ok(Task::Migrate { path }),
        Mode::Ask(asked) => Ok(Task::Ask {
            path,
            words: words_of(alloc, given, asked)?,
        }),
        Mode::Against => {
            let log = required_word(alloc, given, "against")?;
            let desk = required_word(alloc, given, "desk")?;
            Ok(Task::Against { path, desk, log })
        }
        Mode::With => Ok(Task::With {
            path,
            file: required_word(alloc, given, "with")?,
        }),
        Mode::Without => Ok(Task::Without {
            path,
            name: required_word(alloc, given, "without")?,
        }),
        Mode::Watch => Ok(Task::Watch {
            path,
            thresholds: word_given(alloc, given, "thresholds")?,
            form: watch_form_of(given),
        }),
        Mode::Compare => Ok(Task::Compare {
            path,
            other: required_word(alloc, given, "other")?,
        }),
    }
}

/// The words of a question.
fn words_of(alloc: Global, given: &ArgMatches<'_>, asked: Asked) -> Result<AskedWords, AllocError> {
    let words = match asked {
        Asked::Trade => evidence_in(alloc, given)?,
        Asked::Why => AskedWords::Why(required_word(alloc, given, "why")?),
        Asked::Answers => {
            AskedWords::Answers(narrowing_in(alloc, given)?, answers_form_of(given))
        }
        Asked::Book => AskedWords::Book(book_in(alloc, given)?, book_form_of(given)),
        Asked::Rests => AskedWords::Rests(rests_in(alloc, given)?, book_form_of(given)),
        Asked::Desk => {
            AskedWords::Activity(
                required_word(alloc, given, "desk")?,
                activity_form_of(given),
            )
        }
        Asked::Digest => AskedWords::Digest(word_given(alloc, given, "row")?),
        Asked::Page => AskedWords::Page,
    };
    Ok(words)
}

/// The value of an argument that is given.
fn required_word(alloc: Global, given: &ArgMatches<'_>, name: &str) -> Result<String, AllocError> {
    match given.get_str(name) {
        Some(word) => String::from_str(alloc, word),
        None => Ok(String::new(alloc)),
    }
}

/// The evidence for one trade, or for all.
fn evidence_in(alloc: Global, given: &ArgMatches<'_>) -> Result<AskedWords, AllocError> {
    let word = required_word(alloc, given, "trade")?;
    if word.as_str() == "all" {
        drop(word);
        Ok(AskedWords::Evidences)
    } else {
        Ok(AskedWords::Evidence(word))
    }
}

/// The value of an argument, if it is given.
fn word_given(
    alloc: Global,
    given: &ArgMatches<'_>,
    name: &str,
) -> Result<Option<String>, AllocError> {
    match given.get_str(name) {
        Some(word) => Ok(Some(String::from_str(alloc, word)?)),
        None => Ok(None),
    }
}

fn narrowing_in(alloc: Global, given: &ArgMatches<'_>) -> Result<NarrowingWords, AllocError> {
    let to = word_given(alloc, given, "to")?;
    let from = word_given(alloc, given, "from")?;
    let row = word_given(alloc, given, "row")?;
    let order = word_given(alloc, given, "order")?;
    let room = word_given(alloc, given, "room")?;
    Ok(NarrowingWords {
        to,
        from,
        row,
        order,
        room,
    })
}

fn book_in(alloc: Global, given: &ArgMatches<'_>) -> Result<BookWords, AllocError> {
    let symbol = required_word(alloc, given, "book")?;
    let row = word_given(alloc, given, "row")?;
    Ok(BookWords { symbol, row })
}

fn rests_in(alloc: Global, given: &ArgMatches<'_>) -> Result<RestsWords, AllocError> {
    let to = word_given(alloc, given, "to")?;
    let row = word_given(alloc, given, "row")?;
    Ok(RestsWords { to, row })
}

fn book_form_of(given: &ArgMatches<'_>) -> BookForm {
    if given.get_flag("csv") {
        BookForm::Table
    } else {
        BookForm::Lines
    }
}

fn activity_form_of(given: &ArgMatches<'_>) -> ActivityForm {
    if given.get_flag("csv") {
        ActivityForm::Table
    } else {
        ActivityForm::Lines
    }
}

fn watch_form_of(given: &ArgMatches<'_>) -> WatchForm {
    if given.get_flag("csv") {
        WatchForm::Table
    } else {
        WatchForm::Lines
    }
}

fn answers_form_of(given: &ArgMatches<'_>) -> AnswersForm {
    if given.get_flag("csv") {
        AnswersForm::Table
    } else if given.get_flag("json") {
        AnswersForm::Json
    } else {
        AnswersForm::Lines
    }
}

/// The trades, as lines or as a table.
fn day_of(given: &ArgMatches<'_>, path: String) -> Task {
    if given.get_flag("csv") {
        Task::Ask {
            path,
            words: AskedWords::Table,
        }
    } else {
        Task::Print { path }
    }
}

/// Prints help where it was asked for; refuses other arguments.
fn answer_to_error(rt: &HostRuntime, error: &Error) -> Result<Task, Refused> {
    match error.kind() {
        ErrorKind::DisplayHelp => match error.print(rt) {
            Ok(()) => Ok(Task::Help),
            Err(_) => Err(Refused::from(Failure::Stopped(Stop::Output))),
        },
        ErrorKind::OutOfMemory => Err(Refused::from(Failure::Stopped(Stop::Memory))),
        ErrorKind::MissingRequiredArgument => Err(misfit_refused(rt.alloc(), Misfit::NoTrail)),
        _ => Err(refused_by(rt.alloc(), error)),
    }
}

/// The refusal with the first line of the error's text, which names the word.
fn refused_by(alloc: Global, error: &Error) -> Refused {
    match format!(in alloc; "{error}") {
        Ok(text) => Refused::of_command_line(alloc, first_line(&text)),
        Err(_) => Refused::from(Failure::CommandLine),
    }
}

fn first_line(text: &str) -> &str {
    let line = match text.split_once("\n") {
        Some((line, _)) => line,
        None => text,
    };
    match line.strip_prefix("error: ") {
        Some(rest) => rest,
        None => line,
    }
}
