//! The program of the venue.
#![tactic(auto)]

ghost use Rattle.std.specs.Prelude.{◌≡◌, true, OnOk};

mod build;
mod check;
mod command_line;
mod explaining;
mod failure;
mod files;
mod heads_file;
mod market;
mod measured_keeper;
mod once;
mod operation;
mod other_files;
mod ports;
mod recording;
mod refused;
mod reporting;
mod serve;
mod serve_request;
mod service;
mod serving;
mod shared_file;
mod starting_clock;
mod stopping;
mod trail_file;
mod trail_place;
mod written_files;

use audit_trail::{Files, Trail};
use build::build_line;
pub use check::{CheckFault, check};
use command_line::{Task, task_given};
use explaining::explain_log;
pub use failure::Failure;
use files::{Paths, Texts, texts_at};
use heads_file::HeadsOut;
pub use market::{FilesFault, Market};
use measured_keeper::RowGauges;
pub use once::{OnceFault, once};
use operation::Operation;
use other_files::with_difference;
pub use recording::serve_recorded;
use refused::Refused;
pub use reporting::Operator;
use sef_moment::Moment;
pub use serve::{ServeFault, emit_closed, serve};
use serve_request::{ServeRequest, StoredTrail, asked_for};
use service::Service;
use shared_file::refuse_shared;
use sqlite::{Alter, Connection, File, FileStore};
use std::alloc::{AllocError, Global};
use std::fs;
use std::io::{Read, Write};
use std::mem::drop;
use std::net::{Net, TcpListener, TcpStream};
use std::process::ExitCode;
use std::rt::Files as SystemFiles;
use std::sync::{Arc, Wait};
use std::thread::Threads;
use std::time::Clock;
use stopping::{StopWatch, watch_input};
use tcp_line::StopSource;
use trail_file::{close_trail, open_kept};
use trail_place::TrailPlace;
pub use written_files::{VenueFiles, WrittenFiles};

// What follows is generic and without contracts: so a proof of `run` or `main`, its callers, needs nothing of what the
// contracts below say of the system's own files, sockets and streams.

fn answer_texts<R: Read, W: Write>(
    alloc: Global,
    texts: &Texts,
    at: Moment,
    reader: &mut R,
    writer: &mut W,
) -> Result<(), Failure> {
    let market = Market::read(alloc, &texts.participants, &texts.instruments)?;
    Ok(once(
        alloc,
        reader,
        writer,
        market.participants,
        market.instruments,
        at,
    )?)
}

fn check_texts<W: Write>(alloc: Global, texts: &Texts, writer: &mut W) -> Result<(), Failure> {
    Ok(check(alloc, &texts.participants, &texts.instruments, writer)?)
}

fn explain_texts<R: Read + Drop, W: Write>(
    alloc: Global,
    texts: &Texts,
    reader: R,
    writer: &mut W,
) -> Result<(), Failure> {
    explain_log(alloc, texts, reader, writer)
}

fn serve_market<
    R: Net<Listener = TcpListener, Stream = TcpStream>
        + Threads
        + Wait
        + Send
        + Sync
        + Clock
        + Copy
        + Drop
        + 'static,
    E: StopSource + Drop,
    N: Write + Send + Drop + 'static,
    M: VenueFiles + Send + Drop + 'static,
    W: Write,
>(
    rt: &R,
    alloc: Global,
    market: Market,
    service: Service,
    operator: Operator<E, N, M>,
    output: &mut W,
) -> Result<(), Failure> {
    Ok(serve(rt, alloc, market, service, operator, output)?)
}

fn serve_trail<
    R: Net<Listener = TcpListener, Stream = TcpStream>
        + Threads
        + Wait
        + Send
        + Sync
        + Clock
        + Copy
        + Drop
        + 'static,
    S: Alter + Drop,
    E: StopSource + Drop,
    N: Write + Send + Drop + 'static,
    M: VenueFiles + Send + Drop + 'static,
    H: Write + Drop,
    W: Write,
>(
    rt: &R,
    alloc: Global,
    conn: Connection<S>,
    files: &Files,
    heads: Option<HeadsOut<H>>,
    market: Market,
    service: Service,
    operator: Operator<E, N, M>,
    output: &mut W,
) -> Result<(Connection<S>, bool), Failure> {
    serve_recorded(
        rt, alloc, conn, files, heads, market, service, operator, output,
    )
}

/// What stops a venue, and where its events and counters are written.
fn operator_of<
    R: SystemFiles + Threads + Clock + Copy + Send + Drop + 'static,
    I: Read + Send + Drop + 'static,
    N: Write + Drop,
>(
    rt: &R,
    alloc: Global,
    operation: Operation,
    trail: Result<Option<TrailPlace>, AllocError>,
    input: I,
    notes: N,
) -> Result<Operator<StopWatch<R>, N, WrittenFiles<R>>, ServeFault> {
    let Operation {
        stop_file,
        metrics,
        until_eof,
    } = operation;
    let trail = trail?;
    let rows = match &trail {
        Some(_) => Some(RowGauges::shared(alloc)?),
        None => None,
    };
    let files = WrittenFiles::new(*rt, alloc, metrics, trail)?;
    let ended = if until_eof {
        Some(watch_input(rt, alloc, *rt, input)?)
    } else {
        None
    };
    Ok(Operator {
        stop: StopWatch::new(*rt, stop_file, ended),
        notes,
        files,
        rows,
    })
}

/// The place of a trail, for the report of its venue.
fn place_of(alloc: Global, kept: &Option<StoredTrail>) -> Result<Option<TrailPlace>, AllocError> {
    match kept {
        Some(kept) => Ok(Some(kept.place.copied(alloc)?)),
        None => Ok(None),
    }
}

/// How a venue ended, whose trail was closed: a head that is missing is a failure.
fn ended_with(closed: Result<(), Failure>, has_heads: bool) -> Result<(), Failure>
    ensures { OnOk result (has_heads ≡ true) }
{
    closed?;
    if has_heads {
        Ok(())
    } else {
        Err(Failure::Served(ServeFault::Heads))
    }
}

/// What was done over these files, with a line on a file that is refused.
fn over(alloc: Global, texts: &Texts, done: Result<(), Failure>) -> Result<(), Refused> {
    match done {
        Ok(()) => Ok(()),
        Err(failure) => Err(Refused::over(alloc, texts, failure)),
    }
}

/// How a venue ended that was served.
fn ended_as(served: Result<(), Failure>) -> Result<(), Refused> {
    match served {
        Ok(()) => Ok(()),
        Err(failure) => Err(Refused::from(failure)),
    }
}

fn answer_at(rt: &HostRuntime, paths: &Paths, at: Moment) -> Result<(), Refused> {
    let texts = texts_at(rt, paths)?;
    let answered = answer_texts(rt.alloc(), &texts, at, &mut rt.stdin(), &mut rt.stdout());
    over(rt.alloc(), &texts, answered)
}

fn check_at(rt: &HostRuntime, paths: &Paths, trail: &Option<String>) -> Result<(), Refused> {
    let texts = texts_at(rt, paths)?;
    let checked = check_texts(rt.alloc(), &texts, &mut rt.stdout());
    over(rt.alloc(), &texts, checked)?;
    match trail {
        Some(path) => check_trail(rt, path, texts.into_files()),
        None => Ok(()),
    }
}

/// Refuses a trail that is none of these files.
fn check_trail(rt: &HostRuntime, path: &str, files: Files) -> Result<(), Refused> {
    let checked = trail_checked(rt.alloc(), open_kept(rt, path)?, &files);
    match checked {
        Ok(()) => Ok(()),
        Err(failure) => Err(with_difference(rt, path, &files, failure)),
    }
}

// Generic over the store, so that nothing of its contract is needed above.
fn trail_checked<S: Alter + Drop>(
    alloc: Global,
    conn: Connection<S>,
    files: &Files,
) -> Result<(), Failure> {
    match Trail::open(alloc, conn, Some(files)) {
        Ok(trail) => {
            drop(trail.into_connection());
            Ok(())
        }
        Err((fault, conn)) => {
            drop(conn);
            Err(Failure::from(fault))
        }
    }
}

fn explain_at(rt: &HostRuntime, paths: &Paths) -> Result<(), Refused> {
    let texts = texts_at(rt, paths)?;
    let explained = explain_texts(rt.alloc(), &texts, rt.stdin(), &mut rt.stdout());
    over(rt.alloc(), &texts, explained)
}

/// Runs the command. A venue to serve is handed back, since `main` alone may start threads.
fn run(rt: &HostRuntime) -> Result<Option<ServeRequest>, Refused> {
    match task_given(rt)? {
        Task::Once { paths, at } => answer_at(rt, &paths, at)?,
        Task::Check { paths, trail } => check_at(rt, &paths, &trail)?,
        Task::Explain { paths } => explain_at(rt, &paths)?,
        Task::Serve {
            paths,
            service,
            kept,
            operation,
        } => {
            refuse_shared(rt, &paths, &kept, &operation)?;
            note_stop_file(rt, &operation);
            let asked = asked_for(rt, texts_at(rt, &paths)?, service, kept, operation)?;
            return Ok(Some(asked));
        }
        Task::Version => print_version(rt)?,
        Task::Help => {}
    }
    Ok(None)
}

fn print_version(rt: &HostRuntime) -> Result<(), Failure> {
    let printed = match build_line(rt) {
        Some(line) => println!(rt; "venue_main {line}"),
        None => println!(rt;
            "venue_main of an unknown build: the program has no file venue_main.build"
        ),
    };
    match printed {
        Ok(()) => Ok(()),
        Err(_) => Err(Failure::Stopped(OnceFault::Output)),
    }
}

/// Reports a stop file that is there before the venue begins: it closes at once.
fn note_stop_file(rt: &HostRuntime, operation: &Operation) {
    if let Some(path) = &operation.stop_file {
        if fs::exists(rt, path.as_str()).unwrap_or(false) {
            let _ = eprintln!(rt; "venue_main: the stop file {path} is there already");
        }
    }
}

/// Reports the failure on a line of its own, and below it the reason, if one is known.
fn report_refused(rt: &HostRuntime, refused: &Refused) {
    // Where standard error fails too there is nobody left to report to.
    let _ = eprintln!(rt; "venue_main: {}", refused.failure);
    if let Some(reason) = &refused.reason {
        let _ = eprintln!(rt; "  {reason}");
    }
}

/// How a venue ended whose rows were stored.
fn ended_over(
    rt: &HostRuntime,
    place: &TrailPlace,
    files: &Files,
    served: Result<(Connection<FileStore<File>>, bool), Failure>,
) -> Result<(), Refused> {
    let ended = match served {
        Ok((conn, has_heads)) => ended_with(close_trail(rt, conn, place), has_heads),
        Err(failure) => Err(failure),
    };
    match ended {
        Ok(()) => Ok(()),
        Err(failure) => Err(with_difference(rt, place.path(), files, failure)),
    }
}

/// The status of a command that ended so, and its report.
fn status_of(rt: &HostRuntime, ended: Result<(), Refused>) -> ExitCode {
    match ended {
        Ok(()) => ExitCode::SUCCESS,
        Err(refused) => {
            report_refused(rt, &refused);
            ExitCode::from(refused.failure.status())
        }
    }
}

fn main(rt: HostRuntime) -> ExitCode {
    let ended = match run(&rt) {
        Ok(
            Some(
                ServeRequest {
                    market,
                    service,
                    kept,
                    operation,
                },
            ),
        ) => match operator_of(
            &rt,
            rt.alloc(),
            operation,
            place_of(rt.alloc(), &kept),
            rt.stdin(),
            rt.stderr(),
        ) {
            Ok(operator) => match kept {
                Some(
                    StoredTrail {
                        conn,
                        files,
                        heads,
                        place,
                    },
                ) => {
                    let served = serve_trail(
                        &rt,
                        rt.alloc(),
                        conn,
                        &files,
                        heads,
                        market,
                        service,
                        operator,
                        &mut rt.stdout(),
                    );
                    ended_over(&rt, &place, &files, served)
                }
                None => ended_as(serve_market(
                    &rt,
                    rt.alloc(),
                    market,
                    service,
                    operator,
                    &mut rt.stdout(),
                )),
            },
            Err(fault) => {
                drop(market);
                drop(kept);
                Err(Refused::from(Failure::Served(fault)))
            }
        },
        Ok(None) => Ok(()),
        Err(refused) => Err(refused),
    };
    status_of(&rt, ended)
}
