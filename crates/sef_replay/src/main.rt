//! Prints the trades, the evidence and the answers of the day in a trail, read back from its rows alone.
#![tactic(auto)]

mod answering;
mod asking;
mod command_line;
mod comparing;
mod copied;
mod copying;
mod diagnosis;
mod failure;
mod form;
mod market;
mod migrating;
mod printing;
mod reading;
mod refused;
mod replaying;
mod report;
mod runs;
mod under;
mod without;

pub use answering::{WordsFailure, print_words};
pub use asking::print_asked;
use command_line::{Task, task_given};
pub use comparing::{ComparedFailure, print_compared};
pub use copied::{Copied, print_copied};
use copying::{copied_from, file_at};
use diagnosis::{fault_line, other_rules_line};
pub use failure::{Failure, Stop};
pub use form::Form;
pub use migrating::print_migrated;
pub use printing::print_day;
use program_shell::is_database;
pub use reading::{ReadDay, read_day};
use refused::{Refused, absent_in, misspelt_in, nobody_named};
pub use report::print_wanted;
use sqlite::{Alter, Connection, File, FileStore};
use std::alloc::Global;
use std::io::Write;
use std::process::ExitCode;
use trail_bytes::open_bytes;
use trail_comparison::RulesFault;
use trail_questions::{
    AskedWords, NoLog, Thresholds, ThresholdsFault, Unknown, WatchForm, question_of, thresholds_in,
};
pub use under::{UnderFailure, print_under_file};
pub use without::{WithoutFailure, print_without_rows};

/// The seed of a store in memory, which keeps nothing that somebody could foresee.
const SEED: u64 = 0;

/// The bytes of a trail's files. A file that does not begin as an SQLite database does is refused.
fn trail_at(rt: &HostRuntime, path: &str) -> Result<Copied, Refused> {
    let copied = copied_from(rt, path)?;
    match is_database(rt.alloc(), copied.db.as_slice()) {
        Ok(true) => Ok(copied),
        Ok(false) => Err(Refused::of_word(
            rt.alloc(),
            Failure::Trail(1),
            path,
            "it does not begin as an SQLite database",
        )),
        Err(_) => Err(Refused::from(Failure::Stopped(Stop::Memory))),
    }
}

/// Prints the trades of the trail at a path. Its files are read, and nothing is written but these.
fn print_trail(rt: &HostRuntime, path: &str) -> Result<(), Refused> {
    let copied = trail_at(rt, path)?;
    match print_copied(rt.alloc(), copied, SEED, &None, &mut rt.stdout()) {
        Ok(()) => Ok(()),
        Err(failure) => Err(with_fault(rt, path, failure)),
    }
}

/// The failure, with a line on what is at fault in the stored files (2), a row (3) or the delays (5).
fn with_fault(rt: &HostRuntime, path: &str, failure: Failure) -> Refused {
    let reason = match failure {
        Failure::Trail(number) if number == 2 || number == 3 || number == 5 => fault_at(rt, path),
        _ => None,
    };
    Refused { failure, reason }
}

fn fault_at(rt: &HostRuntime, path: &str) -> Option<String> {
    let copied = match copied_from(rt, path) {
        Ok(copied) => copied,
        Err(_) => return None,
    };
    let Copied { log, db } = copied;
    match open_bytes(rt.alloc(), log.as_slice(), db.as_slice(), SEED) {
        Ok(conn) => fault_line(rt.alloc(), conn),
        Err(_) => None,
    }
}

/// Prints the answer to the question in these words. One that has not its form is refused before the trail is read.
fn ask(rt: &HostRuntime, path: &str, words: &AskedWords) -> Result<(), Refused> {
    if let Err(unknown) = question_of(words) {
        return Err(misspelt_in(rt.alloc(), words, unknown));
    }
    let copied = trail_at(rt, path)?;
    match print_words(rt.alloc(), copied, SEED, words, &mut rt.stdout()) {
        Ok(()) => Ok(()),
        Err(WordsFailure::Misspelt(unknown)) => Err(misspelt_in(rt.alloc(), words, unknown)),
        Err(WordsFailure::Failed(Failure::Unknown(unknown))) => {
            Err(absent_in(rt.alloc(), words, unknown))
        }
        Err(WordsFailure::Failed(failure)) => Err(with_fault(rt, path, failure)),
    }
}

/// Prints how the log of a desk at a path agrees with what it was owed.
fn ask_against(rt: &HostRuntime, path: &str, desk: String, log: &str) -> Result<(), Refused> {
    let bytes = match file_at(rt, log) {
        Ok(bytes) => bytes,
        Err(refused) => {
            return Err(Refused {
                failure: log_failure(refused.failure),
                reason: refused.reason,
            });
        }
    };
    ask(rt, path, &AskedWords::Against(desk, bytes))
}

/// The bounds of the alarms in a file; the usual ones without a file.
fn bounds_in(rt: &HostRuntime, file: &Option<String>) -> Result<Thresholds, Refused> {
    let (text, file) = match file {
        Some(file) => (other_file_at(rt, file)?, file.as_str()),
        None => (Vec::new(rt.alloc()), ""),
    };
    match thresholds_in(rt.alloc(), &text) {
        Ok(bounds) => Ok(bounds),
        Err(ThresholdsFault::NoMemory) => Err(Refused::from(Failure::Stopped(Stop::Memory))),
        Err(fault) => Err(of_thresholds(rt, file, fault)),
    }
}

/// The refusal of a file of thresholds.
fn of_thresholds(rt: &HostRuntime, file: &str, fault: ThresholdsFault) -> Refused {
    match format!(in rt.alloc(); "{fault}") {
        Ok(reason) => Refused::of_word(rt.alloc(), Failure::File, file, &reason),
        Err(_) => Refused::from(Failure::File),
    }
}

/// Prints the alarms of the day in the trail at a path.
fn watch(
    rt: &HostRuntime,
    path: &str,
    thresholds: &Option<String>,
    form: WatchForm,
) -> Result<(), Refused> {
    let bounds = bounds_in(rt, thresholds)?;
    ask(rt, path, &AskedWords::Watch(bounds, form))
}

/// A file that is not there is no log.
fn log_failure(failure: Failure) -> Failure {
    match failure {
        Failure::Trail(_) => Failure::Unknown(Unknown::Log(NoLog {
            frames: 0,
            broken: None,
        })),
        failure => failure,
    }
}

/// The failure of one of two trails, with a line that names it.
fn of_one(rt: &HostRuntime, path: &str, failure: Failure) -> Refused {
    let Refused { failure, reason } = with_fault(rt, path, failure);
    match reason {
        Some(reason) => Refused::of_word(rt.alloc(), failure, path, &reason),
        None => Refused::of_file(rt.alloc(), failure, path),
    }
}

/// Prints how the trails at two paths differ.
fn compare(rt: &HostRuntime, path: &str, other: &str) -> Result<(), Refused> {
    let a = trail_at(rt, path)?;
    let b = trail_at(rt, other)?;
    match print_compared(rt.alloc(), a, b, SEED, &mut rt.stdout()) {
        Ok(()) => Ok(()),
        Err(ComparedFailure::OfA(failure)) => Err(of_one(rt, path, failure)),
        Err(ComparedFailure::OfB(failure)) => Err(of_one(rt, other, failure)),
        Err(ComparedFailure::Differ) => Err(Refused::from(Failure::Differs)),
        Err(ComparedFailure::Memory) => Err(Refused::from(Failure::Stopped(Stop::Memory))),
        Err(ComparedFailure::Output) => Err(Refused::from(Failure::Stopped(Stop::Output))),
    }
}

/// A file that is not there is none under which rows are answered.
fn other_file_at(rt: &HostRuntime, file: &str) -> Result<Vec<u8>, Refused> {
    match file_at(rt, file) {
        Ok(text) => Ok(text),
        Err(
            Refused {
                failure: Failure::Trail(_),
                reason,
            },
        ) => Err(Refused {
            failure: Failure::File,
            reason,
        }),
        Err(refused) => Err(refused),
    }
}

/// The refusal of a file, with a line on what it has otherwise than the trail at a path.
fn of_other_file(
    rt: &HostRuntime,
    path: &str,
    file: &str,
    text: &[u8],
    fault: RulesFault,
) -> Refused {
    let copied = match copied_from(rt, path) {
        Ok(copied) => copied,
        Err(_) => return Refused::of_file(rt.alloc(), Failure::File, file),
    };
    let line = match open_bytes(
        rt.alloc(),
        copied.log.as_slice(),
        copied.db.as_slice(),
        SEED,
    ) {
        Ok(conn) => other_rules_line(rt.alloc(), conn, text, fault),
        Err(_) => None,
    };
    drop(copied);
    match line {
        Some(line) => Refused::of_word(rt.alloc(), Failure::File, file, &line),
        None => Refused::of_file(rt.alloc(), Failure::File, file),
    }
}

/// Prints how the answers to the rows of the trail at a path differ under the file at another.
fn answer_under(rt: &HostRuntime, path: &str, file: &str) -> Result<(), Refused> {
    let text = other_file_at(rt, file)?;
    let copied = trail_at(rt, path)?;
    match print_under_file(rt.alloc(), copied, SEED, &text, &mut rt.stdout()) {
        Ok(()) => Ok(()),
        Err(UnderFailure::OfTrail(failure)) => Err(with_fault(rt, path, failure)),
        Err(UnderFailure::OfFile(fault)) => Err(of_other_file(rt, path, file, &text, fault)),
        Err(UnderFailure::Differ) => Err(Refused::from(Failure::Differs)),
        Err(UnderFailure::Memory) => Err(Refused::from(Failure::Stopped(Stop::Memory))),
        Err(UnderFailure::Output) => Err(Refused::from(Failure::Stopped(Stop::Output))),
    }
}

/// Prints how the answers to the rows of the trail at a path differ without those of the participant with this name.
fn answer_without(rt: &HostRuntime, path: &str, name: &str) -> Result<(), Refused> {
    let copied = trail_at(rt, path)?;
    match print_without_rows(rt.alloc(), copied, SEED, name.as_bytes(), &mut rt.stdout()) {
        Ok(()) => Ok(()),
        Err(WithoutFailure::OfTrail(failure)) => Err(with_fault(rt, path, failure)),
        Err(WithoutFailure::Nobody) => Err(nobody_named(rt.alloc(), name)),
        Err(WithoutFailure::Differ) => Err(Refused::from(Failure::Differs)),
        Err(WithoutFailure::Memory) => Err(Refused::from(Failure::Stopped(Stop::Memory))),
        Err(WithoutFailure::Output) => Err(Refused::from(Failure::Stopped(Stop::Output))),
    }
}

// Generic over the store, so that the contracts of `print_migrated` are passed on in one call.
fn migrated<S: Alter + Drop, W: Write>(
    alloc: Global,
    conn: Connection<S>,
    form: Form,
    writer: &mut W,
) -> Result<Connection<S>, (Failure, Connection<S>)> {
    print_migrated(alloc, conn, form, writer)
}

/// Closes a database as a venue does: its log is copied into the file, which then has all alone.
fn closed(conn: Connection<FileStore<File>>) -> Result<(), Failure> {
    match conn.close() {
        Ok(()) => Ok(()),
        Err(error) => Err(Failure::from(error)),
    }
}

fn migrate_and_close(
    rt: &HostRuntime,
    conn: Connection<FileStore<File>>,
    form: Form,
) -> Result<(), Failure> {
    match migrated(rt.alloc(), conn, form, &mut rt.stdout()) {
        Ok(conn) => closed(conn),
        Err((failure, conn)) => {
            // The failure that came first is the one to report.
            let _ = closed(conn);
            Err(failure)
        }
    }
}

/// Makes the trail at a path one of version 3, in the file itself, and prints its trades. The file is checked first, so
/// that no file is made, and none that is no database is touched.
fn migrate(rt: &HostRuntime, path: &str, form: Form) -> Result<(), Refused> {
    drop(trail_at(rt, path)?);
    let printed = match Connection::open(rt, path) {
        Ok(conn) => migrate_and_close(rt, conn, form),
        Err(error) => Err(Failure::from(error)),
    };
    match printed {
        Ok(()) => Ok(()),
        Err(failure) => Err(with_fault(rt, path, failure)),
    }
}

fn run(rt: &HostRuntime) -> Result<(), Refused> {
    match task_given(rt)? {
        Task::Print { path } => print_trail(rt, &path),
        Task::Migrate { path } => migrate(rt, &path, Form::Lines),
        Task::Ask { path, words } => ask(rt, &path, &words),
        Task::Against { path, desk, log } => ask_against(rt, &path, desk, &log),
        Task::Watch {
            path,
            thresholds,
            form,
        } => watch(rt, &path, &thresholds, form),
        Task::With { path, file } => answer_under(rt, &path, &file),
        Task::Without { path, name } => answer_without(rt, &path, &name),
        Task::Compare { path, other } => compare(rt, &path, &other),
        Task::Help => Ok(()),
    }
}

/// Reports the failure on a line of its own, and below it the reason, if one is known.
fn report_refused(rt: &HostRuntime, refused: &Refused) {
    // Where standard error fails too there is nobody left to report to.
    let _ = eprintln!(rt; "sef_replay: {}", refused.failure);
    if let Some(reason) = &refused.reason {
        let _ = eprintln!(rt; "  {reason}");
    }
}

fn main(rt: HostRuntime) -> ExitCode {
    match run(&rt) {
        Ok(()) => ExitCode::SUCCESS,
        Err(refused) => {
            report_refused(&rt, &refused);
            ExitCode::from(refused.failure.status())
        }
    }
}
