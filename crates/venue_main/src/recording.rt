//! A venue served over TCP, with its rows in a trail.

ghost use Rattle.std.specs.Prelude.{◌≡◌, ◌≢◌, IfErr, IfOk, IfSome, OnOk, map, true};
ghost use Rattle.std.specs.Io.KnownBytes.{Appends, Keeps};
ghost use Rattle.sqlite.specs.Held.{state};
ghost use Rattle.sqlite.specs.State.{HasCleanDisk};
ghost use Rattle.trail_digest.specs.Chain.{start};
ghost use Rattle.trail_journal.specs.Journal.{Began, ShowsAll, disk};
ghost use Rattle.trail_journal.specs.Written.{LeadsTo};
ghost use Rattle.venue_runtime.specs.Closing.{closing};
ghost use Rattle.venue_core.specs.State.{standing};
ghost use Rattle.venue_main.specs.Recorded.{HasRecorded, IsRecordingFailure, IsRefusalOf, UnlessEmitting};
ghost use Rattle.venue_main.specs.Serve.{HasServed, UnlessWriting, closing_line};
ghost use Rattle.venue_main.specs.declared.failure.Failure.TheVariants.{Served};
ghost use Rattle.venue_main.specs.declared.serve.ServeFault.TheVariants.{Output};

use crate::failure::Failure;
use crate::heads_file::HeadsOut;
use crate::market::{Market, delays_of};
use crate::measured_keeper::MeasuredKeeper;
use crate::reporting::Operator;
use crate::serve::{ServeFault, messages_in, write_counts};
use crate::service::Service;
use crate::serving::{keeper_of, serve_over};
use crate::starting_clock::await_clock;
use crate::written_files::VenueFiles;
use audit_trail::Files;
use gateway::closing::Closed;
use head_log::{Head, HeadKeeper, HeadReport, Newest};
use sqlite::{Alter, Connection};
use sqlite_trees::store::Store;
use std::alloc::{AllocError, Global};
use std::io::Write;
use std::mem::drop;
use std::net::{Net, TcpListener, TcpStream};
use std::sync::Wait;
use std::thread::Threads;
use std::time::Clock;
use tcp_line::{ServedLine, StopSource};
use trail_journal::{Journal, start_trail};
use venue_core::Venue;
use venue_rules::{Keep, TrailFault};

/// As `serve`, with the rows in a trail: begins where the rows of the database's trail lead, a trail of these files, or
/// makes an empty trail where the database lists nothing. Each row is committed before the venue acts on it. As the
/// venue closes the rows are read back, and the closing line counts all of them. The connection comes back, and whether
/// each head was written, where there is a place for heads. That the market is that of the files is up to the caller.
pub fn serve_recorded<
    R: Net<Listener = TcpListener, Stream = TcpStream>
        + Threads
        + Wait
        + Send
        + Sync
        + Clock
        + Copy
        + Drop
        + 'static,
    S: Alter + Drop,
    E: StopSource + Drop,
    N: Write + Send + Drop + 'static,
    M: VenueFiles + Send + Drop + 'static,
    H: Write + Drop,
    W: Write,
>(
    rt: &R,
    alloc: Global,
    conn: Connection<S>,
    files: &Files,
    heads: Option<HeadsOut<H>>,
    market: Market,
    service: Service,
    operator: Operator<E, N, M>,
    output: &mut W,
) -> Result<(Connection<S>, bool), Failure>
    ensures emitted { IfOk result (λ r. HasRecorded S.Store service.turns (record { participants = market.participants; instruments = market.instruments }) files.now (state S.Store conn) (state S.Store r.0) (W.contents output.old) (W.contents output.new)) }
    ensures silent { IfErr result (λ failure. UnlessEmitting failure (Keeps (W.contents output.old) (W.contents output.new))) }
    ensures fault { IfErr result IsRecordingFailure }
{
    let (journal, venue) = begin_in_time(rt, alloc, conn, files, market)?;
    let (keeper, heads) = match with_heads(alloc, journal, files, &venue, heads) {
        Ok(kept) => kept,
        Err(fault) => {
            drop(venue);
            return Err(Failure::Served(fault));
        }
    };
    let measuring = MeasuredKeeper::new(keeper, *rt, &operator.rows);
    let (closed, heads) = match serve_journal(
        rt, alloc, *rt, measuring, venue, service, operator, heads,
    ) {
        Ok(ended) => ended,
        Err(fault) => return Err(Failure::Served(fault)),
    };
    let sessions = closed.sessions.len();
    let keeper = journal_of(closed);
    let has_heads = close_heads(heads, keeper.head());
    let mut journal = keeper.into_journal();
    match emit_read(sessions, &mut journal, output) {
        Ok(()) => Ok((journal.into_connection(), has_heads)),
        Err(fault) => {
            drop(journal);
            Err(Failure::Served(fault))
        }
    }
}

/// The journal of the database's trail, and the venue where its rows lead, once the clock is not behind the last row.
fn begin_in_time<T: Clock, S: Alter + Drop>(
    clock: &T,
    alloc: Global,
    conn: Connection<S>,
    files: &Files,
    market: Market,
) -> Result<(Journal<S>, Venue), Failure>
    ensures market { IfOk result (λ r. r.1.market ≡ record { participants = market.participants; instruments = market.instruments }) }
    ensures leads { IfOk result (λ r. LeadsTo r.0.rows r.1) }
    ensures began { IfOk result (λ r. Began S.Store files.now (state S.Store conn) r.0) }
    ensures fault { IfErr result IsRecordingFailure }
    ensures silent { IfErr result (λ failure. failure ≢ Served Output) }
{
    let begun = begin(alloc, conn, files, market)?;
    match await_clock(clock, begun.0.last().1) {
        Ok(()) => Ok(begun),
        Err(fault) => {
            drop(begun);
            Err(Failure::Served(ServeFault::Clock(fault)))
        }
    }
}

/// The journal of the database's trail, and the venue where its rows lead.
fn begin<S: Alter + Drop>(
    alloc: Global,
    conn: Connection<S>,
    files: &Files,
    market: Market,
) -> Result<(Journal<S>, Venue), Failure>
    ensures market { IfOk result (λ r. r.1.market ≡ record { participants = market.participants; instruments = market.instruments }) }
    ensures leads { IfOk result (λ r. LeadsTo r.0.rows r.1) }
    ensures began { IfOk result (λ r. Began S.Store files.now (state S.Store conn) r.0) }
    ensures fault { IfErr result IsRecordingFailure }
    ensures silent { IfErr result (λ failure. failure ≢ Served Output) }
{
    match start_trail(alloc, conn, files, market.participants, market.instruments) {
        Ok(begun) => Ok(begun),
        Err((fault, conn)) => Err(refusal_of(fault, conn)),
    }
}

/// The failure of a trail's fault. Where the store refused: of a closed store a failed disk, else a refusal of the
/// database.
fn refusal_of<S: Alter + Drop>(fault: TrailFault, conn: Connection<S>) -> Failure
    ensures { IsRefusalOf fault result }
{
    match fault {
        TrailFault::Refused => {
            if conn.into_store().is_broken() {
                return Failure::Served(ServeFault::Trail);
            }
            Failure::from(TrailFault::Refused)
        }
        fault => {
            drop(conn);
            Failure::from(fault)
        }
    }
}

/// The journal with its heads, where they are wanted, and what writes them.
fn with_heads<S: Alter + Drop, H: Write + Drop>(
    alloc: Global,
    journal: Journal<S>,
    files: &Files,
    venue: &Venue,
    heads: Option<HeadsOut<H>>,
) -> Result<(HeadKeeper<S>, Option<HeadReport<H>>), ServeFault>
    requires leads { LeadsTo journal.rows venue.now }
    ensures rows { IfOk result (λ r. r.0.journal.rows ≡ journal.rows) }
    ensures start { IfSome heads (λ _. IfOk result (λ r. (r.0.is_wanted ≡ true) × (r.0.start ≡ start files.now.participants files.now.instruments (map (λ i. i.delay) venue.now.market.instruments)))) }
    ensures fault { IfErr result (λ fault. fault ≢ Output) }
{
    match heads {
        None => Ok((HeadKeeper::without(journal), None)),
        Some(out) => begin_heads(alloc, journal, files, venue, out),
    }
}

/// The journal with its heads, and what writes them.
fn begin_heads<S: Alter + Drop, H: Write + Drop>(
    alloc: Global,
    journal: Journal<S>,
    files: &Files,
    venue: &Venue,
    out: HeadsOut<H>,
) -> Result<(HeadKeeper<S>, Option<HeadReport<H>>), ServeFault>
    requires leads { LeadsTo journal.rows venue.now }
    ensures rows { IfOk result (λ r. r.0.journal.rows ≡ journal.rows) }
    ensures start { IfOk result (λ r. (r.0.is_wanted ≡ true) × (r.0.start ≡ start files.now.participants files.now.instruments (map (λ i. i.delay) venue.now.market.instruments))) }
    ensures fault { IfErr result (λ fault. fault ≢ Output) }
{
    let Ok((newest, report)) = report_of(alloc, out) else {
        drop(journal);
        return Err(ServeFault::Memory);
    };
    let Ok(delays) = delays_of(alloc, venue.instruments()) else {
        drop(journal);
        return Err(ServeFault::Memory);
    };
    match HeadKeeper::begin(journal, files, &delays, newest) {
        Ok(keeper) => Ok((keeper, Some(report))),
        Err(TrailFault::NoMemory) => Err(ServeFault::Memory),
        Err(_) => Err(ServeFault::Trail),
    }
}

/// What writes the heads that come.
fn report_of<H: Write + Drop>(
    alloc: Global,
    out: HeadsOut<H>,
) -> Result<(Newest, HeadReport<H>), AllocError> {
    let HeadsOut { file, is_torn } = out;
    let newest = Newest::new(alloc)?;
    let report = HeadReport::new(alloc, file, is_torn, newest.share()?)?;
    Ok((newest, report))
}

/// Writes the last head, where heads are wanted. Whether each was written.
fn close_heads<H: Write + Drop>(heads: Option<HeadReport<H>>, last: Option<Head>) -> bool {
    match heads {
        None => true,
        Some(mut report) => report.close(last),
    }
}

/// Serves a venue from where the rows of a journal lead.
fn serve_journal<
    R: Net<Listener = TcpListener, Stream = TcpStream> + Threads + Wait + Sync,
    T: Clock + Copy + Send + Drop + 'static,
    S: Alter + Drop,
    E: StopSource + Drop,
    N: Write + Send + Drop + 'static,
    M: VenueFiles + Send + Drop + 'static,
    H: Write + Drop,
>(
    rt: &R,
    alloc: Global,
    clock: T,
    measured: Measured<S, T>,
    venue: Venue,
    service: Service,
    operator: Operator<E, N, M>,
    heads: Option<HeadReport<H>>,
) -> Result<(Closed<ServedLine<T>, Measured<S, T>>, Option<HeadReport<H>>), ServeFault>
    requires leads { LeadsTo measured.keeper.journal.rows venue }
    ensures served { IfOk result (λ r. HasServed service.turns venue.market measured.keeper.journal.rows true (closing (map (λ s. s.state) r.0.sessions.items) (map (λ l. l.log) r.0.lines.items) r.0.left.items r.0.replies_left.items r.0.queues.items (standing r.0.venue.day) r.0.keeper.keeper.journal.rows true)) }
    ensures fault { IfErr result (λ fault. fault ≢ Output) }
{
    serve_over(rt, alloc, clock, venue, measured, service, operator, heads)
}

/// Keeps of the closed venue its journal alone.
fn journal_of<T: Clock + Drop, S: Alter + Drop>(
    closed: Closed<ServedLine<T>, Measured<S, T>>,
) -> HeadKeeper<S>
    ensures { result ≡ closed.keeper.keeper }
{
    let measured = keeper_of(closed);
    measured.into_keeper()
}

/// A journal with heads that is measured.
type Measured<S, T> = MeasuredKeeper<HeadKeeper<S>, T>;

/// Reads the rows back, and writes how many sessions were served and how many of the rows are messages.
fn emit_read<S: Alter + Drop, W: Write>(
    sessions: usize,
    journal: &mut Journal<S>,
    output: &mut W,
) -> Result<(), ServeFault>
    ensures emitted { HasCleanDisk (disk S.Store journal.new) → OnOk result (Appends (W.contents output.old) (W.contents output.new) (closing_line sessions journal.old.rows)) }
    ensures shown { HasCleanDisk (disk S.Store journal.new) → OnOk result (ShowsAll S.Store journal.new) }
    ensures same { journal.new.rows ≡ journal.old.rows }
    ensures silent { IfErr result (λ fault. UnlessWriting fault (Keeps (W.contents output.old) (W.contents output.new))) }
{
    let rows = match journal.rows() {
        Ok(rows) => rows,
        Err(TrailFault::NoMemory) => return Err(ServeFault::Memory),
        Err(_) => return Err(ServeFault::Trail),
    };
    let written = write_counts(sessions, messages_in(rows.as_slice()), output);
    drop(rows);
    match written {
        Ok(()) => Ok(()),
        Err(_) => Err(ServeFault::Output),
    }
}
