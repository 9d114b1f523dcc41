//! The clock of the matching engine, at whose moments lines are written.

ghost use Rattle.std.specs.Prelude.{◌≡◌};

use crate::report::HeadReport;
use sef_moment::Moment;
use std::io::Write;
use venue_worker::Clock;

/// A clock that answers as another one, and writes the newest head's line where one is due: with each turn of the
/// engine, also of an idle one.
pub struct HeadClock<C, W: Drop> {
    clock: C,
    report: Option<HeadReport<W>>,
}

// Written-out drop (docs/ARCHITECTURE.md).
impl<C: Drop, W: Drop> Drop for HeadClock<C, W> {
    fn drop(self) {
        let HeadClock {
            clock: _clock,
            report: _report,
        } = self;
    }
}

impl<C: Clock, W: Write + Drop> HeadClock<C, W> {
    /// This clock, with a report of heads where they are wanted.
    pub fn new(clock: C, report: Option<HeadReport<W>>) -> HeadClock<C, W>
        ensures clock { ⟦<HeadClock<C, W> as Clock>⟧.answered result ≡ C.answered clock }
        ensures report { result.report ≡ report }
    {
        HeadClock { clock, report }
    }

    /// The report of heads.
    pub fn into_report(self) -> Option<HeadReport<W>>
    where
        C: Drop,
        ensures { result ≡ self.report }
    {
        let HeadClock { clock, report } = self;
        drop(clock);
        report
    }
}

impl<C: Clock, W: Write + Drop> Clock for HeadClock<C, W> {
    ghost answered = { λ c. C.answered c.clock };

    fn now(&mut self) -> Moment {
        let moment = self.clock.now();
        if let Some(report) = &mut self.report {
            report.report(moment);
        }
        moment
    }

    fn progressed(&mut self, participant: usize) {
        self.clock.progressed(participant);
    }

    fn waits(&mut self, participant: usize, count: usize) {
        self.clock.waits(participant, count);
    }

    fn refused(&mut self) {
        self.clock.refused();
    }

    fn ended(&mut self) {
        if let Some(report) = &mut self.report {
            report.report_newest();
        }
        self.clock.ended();
    }
}
