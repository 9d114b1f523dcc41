//! The command line.

ghost use Rattle.std.specs.Prelude.{◌≡◌};
ghost use Rattle.venue_main.specs.CommandLine.{moment_spelled};

use crate::failure::Failure;
use crate::files::Paths;
use crate::once::OnceFault;
use crate::operation::{KeptPaths, Operation};
use crate::refused::Refused;
use crate::service::Service;
use clap::error::ErrorKind;
use clap::{Arg, ArgAction, ArgMatches, Command, Error};
use program_shell::words_given;
use sef_moment::{Moment, read_utc};
use std::alloc::{AllocError, Global};

/// The request of the command line.
#[derive(Drop)]
pub enum Task {
    /// `once --participants FILE --instruments FILE --at TIME`
    Once {
        paths: Paths,
        at: Moment,
    },
    /// `serve --participants FILE --instruments FILE --port P --turns N`, with or without `--trail FILE`,
    /// `--heads FILE`, `--stop-file FILE`, `--until-eof`, `--metrics FILE`
    Serve {
        paths: Paths,
        service: Service,
        kept: KeptPaths,
        operation: Operation,
    },
    /// `check --participants FILE --instruments FILE`, with or without `--trail FILE`
    Check {
        paths: Paths,
        trail: Option<String>,
    },
    /// `explain --participants FILE --instruments FILE`
    Explain {
        paths: Paths,
    },
    /// `--version`
    Version,
    /// `--help`: the text was printed.
    Help,
}

/// The request in the process's arguments.
pub fn task_given(rt: &HostRuntime) -> Result<Task, Refused> {
    let words = match words_given(rt) {
        Ok(words) => words,
        Err(fault) => return Err(Refused::from(Failure::from(fault))),
    };
    let task = task_in(rt.alloc(), &words);
    drop(words);
    match task {
        Ok(Ok(task)) => Ok(task),
        Ok(Err(misfit)) => Err(Refused::of_command_line(rt.alloc(), misfit.text())),
        Err(error) => {
            let answer = answer_to_error(rt, &error);
            drop(error);
            answer
        }
    }
}

/// Why a word is refused whose argument is understood.
#[derive(Clone, Copy, PartialEq, Eq)]
enum Misfit {
    Port,
    Turns,
    At,
    /// Not met: the parser asks for each required argument.
    Missing,
}

impl Misfit {
    fn text(self) -> &'static str {
        match self {
            Misfit::Port => "--port: a number from 1024 to 65500",
            Misfit::Turns => "--turns: a number from 1 to 1000000000",
            Misfit::At => "--at: a moment in UTC, as 20250303-14:30:00",
            Misfit::Missing => "a required argument is missing",
        }
    }
}

/// The help's examples, below the commands.
const EXAMPLES: &str = "Examples, where FILES stands for --participants FILE --instruments FILE:
  venue_main check FILES
  venue_main once FILES --at 20250303-14:30:00 <order.fix
  venue_main explain FILES <messages.log
  venue_main serve FILES --port 7000 --turns 1000000000 --trail day.trail

docs/CONNECT.md has the settings of a client's engine, docs/PROTOCOL.md each message, docs/COMPLIANCE.md how a trail is read.";

/// The example in the help of `serve`, below its arguments.
const EXAMPLE_OF_SERVE: &str = "Example:
  venue_main serve --participants participants.toml --instruments instruments.toml --port 7000 --turns 1000000000 --trail day.trail

Standard error has each participant's name and port, and then a line for each event. A trail that is there is gone on with; without one
the rows stay in memory. The venue ends once --stop-file exists, standard input ends (--until-eof), or each thread has made its turns: one
to three for each message, and ten a second while idle.";

/// A required argument with one value.
fn needed<'a>(alloc: Global, name: &'a str, value: &'a str, help: &'a str) -> Arg<'a> {
    Arg::new(alloc, name)
        .long(name)
        .value_name(value)
        .help(help)
        .required(true)
        .action(ArgAction::Set)
}

/// A command with a further required argument. Each argument or command is added by a call of its own: several in one
/// function cost the proof a case for each at every `?`.
fn with_needed<'a>(
    alloc: Global,
    command: Command<'a>,
    name: &'a str,
    value: &'a str,
    help: &'a str,
) -> Result<Command<'a>, AllocError> {
    command.arg(needed(alloc, name, value, help))
}

/// A command on the two files.
fn command_on_files<'a>(
    alloc: Global,
    name: &'a str,
    about: &'a str,
) -> Result<Command<'a>, AllocError> {
    let command = Command::new(alloc, name).about(about);
    let command = with_needed(
        alloc,
        command,
        "participants",
        "FILE",
        "The participant file",
    )?;
    with_needed(alloc, command, "instruments", "FILE", "The instrument file")
}

/// A command with a further argument that may be absent, a path.
fn with_file<'a>(
    alloc: Global,
    command: Command<'a>,
    name: &'a str,
    help: &'a str,
) -> Result<Command<'a>, AllocError> {
    let file = Arg::new(alloc, name)
        .long(name)
        .value_name("FILE")
        .help(help)
        .action(ArgAction::Set);
    command.arg(file)
}

/// A command with a further argument without a value.
fn with_flag<'a>(
    alloc: Global,
    command: Command<'a>,
    name: &'a str,
    help: &'a str,
) -> Result<Command<'a>, AllocError> {
    let flag = Arg::new(alloc, name)
        .long(name)
        .help(help)
        .action(ArgAction::SetTrue);
    command.arg(flag)
}

/// The command that serves, with the arguments that may be absent.
fn with_operation<'a>(alloc: Global, serve: Command<'a>) -> Result<Command<'a>, AllocError> {
    let serve = with_file(
        alloc,
        serve,
        "trail",
        "The file that keeps the rows, where they are to be kept",
    )?;
    let serve = with_file(
        alloc,
        serve,
        "heads",
        "The file to which heads of the trail are appended: its count of rows, the last one's moment, its digest",
    )?;
    let serve = with_file(
        alloc,
        serve,
        "stop-file",
        "Ends the venue once this file exists",
    )?;
    let serve = with_flag(
        alloc,
        serve,
        "until-eof",
        "Ends the venue at the end of standard input, which is not read otherwise",
    )?;
    with_file(
        alloc,
        serve,
        "metrics",
        "The file of counters, for node_exporter, replaced each ten seconds and at the end",
    )
}

/// The command that serves the participants.
fn command_of_serve<'a>(alloc: Global) -> Result<Command<'a>, AllocError> {
    let serve = command_on_files(
        alloc,
        "serve",
        "Serves each participant over TCP, at 127.0.0.1",
    )?;
    let serve = with_needed(
        alloc,
        serve.after_help(EXAMPLE_OF_SERVE),
        "port",
        "P",
        "The first participant's port, from 1024 to 65500; each other has the next",
    )?;
    let serve = with_needed(
        alloc,
        serve,
        "turns",
        "N",
        "How many turns each thread makes, from 1 to 1000000000",
    )?;
    with_operation(alloc, serve)
}

/// The command that answers one stream.
fn command_of_once<'a>(alloc: Global) -> Result<Command<'a>, AllocError> {
    let once = command_on_files(
        alloc,
        "once",
        "Answers the first participant's stream, from standard input to standard output",
    )?;
    with_needed(
        alloc,
        once,
        "at",
        "TIME",
        "The moment of everything, in UTC, as 20250303-14:30:00",
    )
}

/// The command that explains a log.
fn command_of_explain<'a>(alloc: Global) -> Result<Command<'a>, AllocError> {
    command_on_files(
        alloc,
        "explain",
        "Prints of each frame of a log, from standard input, its fields, its fault and what is answered",
    )
}

/// The command that checks the files.
fn command_of_check<'a>(alloc: Global) -> Result<Command<'a>, AllocError> {
    let check = command_on_files(alloc, "check", "Prints how many entries the two files have")?;
    with_file(
        alloc,
        check,
        "trail",
        "A trail, which is refused where it is not one of these files, with what differs",
    )
}

/// A command with a subcommand, where that was made.
fn with_command<'a>(
    command: Command<'a>,
    made: Result<Command<'a>, AllocError>,
) -> Result<Command<'a>, AllocError> {
    match made {
        Ok(below) => command.subcommand(below),
        Err(fault) => {
            drop(command);
            Err(fault)
        }
    }
}

/// The program's command, with `once`, `serve`, `explain` and `check`.
fn program<'a>(alloc: Global) -> Result<Command<'a>, AllocError> {
    let command = Command::new(alloc, "venue_main")
        .about("A swap execution facility over FIX")
        .version("of the build that --version prints")
        .after_help(EXAMPLES)
        .subcommand_required(true);
    let command = with_command(command, command_of_once(alloc))?;
    let command = with_command(command, command_of_serve(alloc))?;
    let command = with_command(command, command_of_explain(alloc))?;
    with_command(command, command_of_check(alloc))
}

/// The request in these arguments, if they are understood and ask for more than help.
fn task_in(alloc: Global, words: &[String]) -> Result<Result<Task, Misfit>, Error> {
    let matches = program(alloc)?.try_get_matches_from(words)?;
    let task = task_of(alloc, &matches);
    drop(matches);
    Ok(task?)
}

fn task_of(alloc: Global, matches: &ArgMatches<'_>) -> Result<Result<Task, Misfit>, AllocError> {
    if let Some(given) = matches.subcommand_matches("check") {
        return check_in(alloc, given);
    }
    if let Some(given) = matches.subcommand_matches("explain") {
        return explain_in(alloc, given);
    }
    if let Some(given) = matches.subcommand_matches("serve") {
        return serve_in(alloc, given);
    }
    match matches.subcommand_matches("once") {
        Some(given) => once_in(alloc, given),
        None => Ok(Err(Misfit::Missing)),
    }
}

fn check_in(alloc: Global, given: &ArgMatches<'_>) -> Result<Result<Task, Misfit>, AllocError> {
    let Some(paths) = paths_in(alloc, given)? else {
        return Ok(Err(Misfit::Missing));
    };
    let trail = path_in(alloc, given, "trail")?;
    Ok(Ok(Task::Check { paths, trail }))
}

fn explain_in(alloc: Global, given: &ArgMatches<'_>) -> Result<Result<Task, Misfit>, AllocError> {
    match paths_in(alloc, given)? {
        Some(paths) => Ok(Ok(Task::Explain { paths })),
        None => Ok(Err(Misfit::Missing)),
    }
}

fn once_in(alloc: Global, given: &ArgMatches<'_>) -> Result<Result<Task, Misfit>, AllocError> {
    let Some(at) = moment_in(given) else {
        return Ok(Err(Misfit::At));
    };
    match paths_in(alloc, given)? {
        Some(paths) => Ok(Ok(Task::Once { paths, at })),
        None => Ok(Err(Misfit::Missing)),
    }
}

fn serve_in(alloc: Global, given: &ArgMatches<'_>) -> Result<Result<Task, Misfit>, AllocError> {
    let service = match service_in(given) {
        Ok(service) => service,
        Err(misfit) => return Ok(Err(misfit)),
    };
    let Some(paths) = paths_in(alloc, given)? else {
        return Ok(Err(Misfit::Missing));
    };
    let kept = kept_in(alloc, given)?;
    let operation = operation_in(alloc, given)?;
    Ok(Ok(Task::Serve {
        paths,
        service,
        kept,
        operation,
    }))
}

fn kept_in(alloc: Global, given: &ArgMatches<'_>) -> Result<KeptPaths, AllocError> {
    let trail = path_in(alloc, given, "trail")?;
    let heads = path_in(alloc, given, "heads")?;
    Ok(KeptPaths { trail, heads })
}

fn operation_in(alloc: Global, given: &ArgMatches<'_>) -> Result<Operation, AllocError> {
    let stop_file = path_in(alloc, given, "stop-file")?;
    let metrics = path_in(alloc, given, "metrics")?;
    Ok(Operation {
        stop_file,
        metrics,
        until_eof: given.get_flag("until-eof"),
    })
}

fn path_in(
    alloc: Global,
    given: &ArgMatches<'_>,
    name: &str,
) -> Result<Option<String>, AllocError> {
    match given.get_str(name) {
        Some(path) => Ok(Some(String::from_str(alloc, path)?)),
        None => Ok(None),
    }
}

fn service_in(given: &ArgMatches<'_>) -> Result<Service, Misfit> {
    let Some(port) = number_of(given, "port") else {
        return Err(Misfit::Port);
    };
    let Some(turns) = number_of(given, "turns") else {
        return Err(Misfit::Turns);
    };
    match Service::of(port, turns) {
        Some(service) => Ok(service),
        None if Service::of(port, 1).is_none() => Err(Misfit::Port),
        None => Err(Misfit::Turns),
    }
}

/// The number of an argument.
fn number_of(given: &ArgMatches<'_>, name: &str) -> Option<u64> {
    number_in(given.get_str(name)?)
}

/// The number that a text of decimal digits spells.
fn number_in(text: &str) -> Option<u64> {
    if text.as_bytes().iter().all(|byte| byte.is_ascii_digit()) {
        text.parse::<u64>().ok()
    } else {
        None
    }
}

fn paths_in(alloc: Global, given: &ArgMatches<'_>) -> Result<Option<Paths>, AllocError> {
    let Some(participants) = given.get_str("participants") else {
        return Ok(None);
    };
    let Some(instruments) = given.get_str("instruments") else {
        return Ok(None);
    };
    Ok(Some(Paths {
        participants: String::from_str(alloc, participants)?,
        instruments: String::from_str(alloc, instruments)?,
    }))
}

/// The moment of `--at`, where its text is one.
fn moment_in(given: &ArgMatches<'_>) -> Option<Moment> {
    moment_of(given.get_str("at")?)
}

/// The moment that a text spells as a message does: `20250303-14:30:00`.
fn moment_of(text: &str) -> Option<Moment>
    ensures { result ≡ moment_spelled text.now }
{
    match read_utc(text.as_bytes()) {
        Ok(moment) => Some(moment),
        Err(_) => None,
    }
}

/// Prints help where it was asked for; refuses other arguments.
fn answer_to_error(rt: &HostRuntime, error: &Error) -> Result<Task, Refused> {
    match error.kind() {
        ErrorKind::DisplayHelp => match error.print(rt) {
            Ok(()) => Ok(Task::Help),
            Err(_) => Err(Refused::from(Failure::Stopped(OnceFault::Output))),
        },
        ErrorKind::DisplayVersion => Ok(Task::Version),
        ErrorKind::OutOfMemory => Err(Refused::from(Failure::Stopped(OnceFault::Memory))),
        _ => Err(refused_by(rt.alloc(), error)),
    }
}

/// The refusal with what the error's text says before its usage, in one line: it names the words.
fn refused_by(alloc: Global, error: &Error) -> Refused {
    match said_by(alloc, error) {
        Ok(line) => Refused::of_command_line(alloc, &line),
        Err(_) => Refused::from(Failure::CommandLine),
    }
}

fn said_by(alloc: Global, error: &Error) -> Result<String, AllocError> {
    let text = format!(in alloc; "{error}")?;
    in_one_line(alloc, cause_in(&text))
}

/// What stands before the first blank line.
fn cause_in(text: &str) -> &str {
    let said = match text.split_once("\n\n") {
        Some((said, _)) => said,
        None => text,
    };
    match said.strip_prefix("error: ") {
        Some(rest) => rest,
        None => said,
    }
}

fn in_one_line(alloc: Global, text: &str) -> Result<String, AllocError> {
    let mut line = String::new(alloc);
    for part in text.lines() {
        if !line.is_empty() {
            line.push_str(" ")?;
        }
        line.push_str(part.trim())?;
    }
    Ok(line)
}
