//! A keeper of rows that is measured, for the report of a venue.

ghost use Rattle.std.specs.Prelude.{◌≡◌};

use crate::starting_clock::moment_of;
use sef_moment::Moment;
use std::alloc::{AllocError, Global};
use std::mem::drop;
use std::sync::Arc;
use std::sync::atomic::{AtomicU64, Ordering};
use std::time::Clock;
use venue_rules::{Keep, TrailFault, TrailRow};

/// Figures of the rows of a trail, which one thread notes and another reads.
#[derive(Drop)]
pub struct RowGauges {
    rows: AtomicU64,
    /// The moment of the last row, in milliseconds.
    last: AtomicU64,
    /// The longest time from the taking of a message to the commit of its row since it was read, in milliseconds.
    longest: AtomicU64,
}

impl RowGauges {
    /// Those of no rows.
    pub fn shared(alloc: Global) -> Result<Arc<RowGauges>, AllocError> {
        let gauges = RowGauges {
            rows: AtomicU64::new(0),
            last: AtomicU64::new(0),
            longest: AtomicU64::new(0),
        };
        match Arc::new(alloc, gauges) {
            Ok(shared) => Ok(shared),
            Err(_) => Err(AllocError),
        }
    }

    /// Notes the count of rows, and the moment of the last.
    fn begin(&self, rows: u64, last: Moment) {
        self.rows.store(rows, Ordering::SeqCst);
        self.last.store(last.ms(), Ordering::SeqCst);
    }

    /// Notes a row that was committed at a moment.
    fn note(&self, rows: u64, taken: Moment, committed: Moment) {
        self.begin(rows, taken);
        let ms = committed.ms().saturating_sub(taken.ms());
        let _ = self.longest.fetch_max(ms, Ordering::SeqCst);
    }

    pub fn rows(&self) -> u64 {
        self.rows.load(Ordering::SeqCst)
    }

    /// How long ago the last row was taken, in milliseconds, where there is one.
    pub fn age_ms(&self, now: Moment) -> Option<u64> {
        if self.rows() == 0 {
            return None;
        }
        Some(now.ms().saturating_sub(self.last.load(Ordering::SeqCst)))
    }

    /// The longest time from taking to commit since the last call, in milliseconds.
    pub fn take_longest_ms(&self) -> u64 {
        self.longest.swap(0, Ordering::SeqCst)
    }
}

/// The figures, shared, of a keeper with this many rows.
fn begun(gauges: &Option<Arc<RowGauges>>, rows: u64, last: Moment) -> Option<Arc<RowGauges>> {
    match gauges {
        None => None,
        Some(gauges) => {
            gauges.begin(rows, last);
            Arc::try_clone(gauges).ok()
        }
    }
}

/// Notes a row, where it was recorded.
fn note<T: Clock>(
    gauges: &Option<Arc<RowGauges>>,
    clock: &T,
    is_recorded: bool,
    n: u64,
    taken: Moment,
) {
    match gauges {
        Some(gauges) if is_recorded => gauges.note(n, taken, moment_of(clock)),
        _ => {}
    }
}

/// A keeper whose rows are counted, and whose commits are timed.
#[derive(Drop)]
pub struct MeasuredKeeper<K: Drop, T: Drop> {
    keeper: K,
    clock: T,
    gauges: Option<Arc<RowGauges>>,
}

impl<K: Keep + Drop, T: Clock + Drop> MeasuredKeeper<K, T> {
    /// A keeper with the rows that it has. It is measured where its figures are read.
    pub fn new(keeper: K, clock: T, gauges: &Option<Arc<RowGauges>>) -> MeasuredKeeper<K, T>
        ensures { result.keeper ≡ keeper }
    {
        let (rows, last) = keeper.last();
        MeasuredKeeper {
            keeper,
            clock,
            gauges: begun(gauges, rows, last),
        }
    }

    /// Gives the keeper back.
    pub fn into_keeper(self) -> K
        ensures { result ≡ self.keeper }
    {
        let MeasuredKeeper {
            keeper,
            clock,
            gauges,
        } = self;
        drop(clock);
        drop(gauges);
        keeper
    }
}

/// Its rows are those of the keeper inside.
impl<K: Keep + Drop, T: Clock + Drop> Keep for MeasuredKeeper<K, T> {
    ghost rows = { λ k. K.rows k.keeper };

    ghost refused = { λ k. K.refused k.keeper };

    ghost is_clean = { λ k. K.is_clean k.keeper };

    ghost outlives = { λ k. K.outlives k.keeper };

    fn record(&mut self, row: TrailRow) -> Result<(), TrailFault> {
        let n = row.n;
        let taken = row.moment;
        let recorded = self.keeper.record(row);
        note(&self.gauges, &self.clock, recorded.is_ok(), n, taken);
        recorded
    }

    fn refusals(&self) -> u64 {
        self.keeper.refusals()
    }

    fn last(&self) -> (u64, Moment) {
        self.keeper.last()
    }

    fn outlives(&self) -> bool {
        self.keeper.outlives()
    }
}
