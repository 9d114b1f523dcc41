//! What two runs of a day's rows take of the day.

ghost use Rattle.std.specs.Prelude.{◌≡◌, IfErr, IfOk, OnOk};
ghost use Rattle.std.specs.Io.KnownBytes.{Appends, Keeps};
ghost use Rattle.trail_comparison.specs.Comparison.{market_of};
ghost use Rattle.trail_comparison.specs.Under.{market_of_rules};
ghost use Rattle.trail_comparison.specs.declared.fault.ComparisonFault.TheVariants.{Memory};
ghost use Rattle.trail_digest.specs.Head.{head_text};
ghost use Rattle.trail_digest.specs.declared.head.HeadForm.TheVariants.{Line};
ghost use Rattle.sef_replay.specs.Compared.{read_side};
ghost use Rattle.sef_replay.specs.Day.{AreKept};
ghost use Rattle.sef_replay.specs.declared.failure.Stop.TheVariants as stop;

use crate::failure::Stop;
use crate::market::market_kept;
use crate::reading::ReadDay;
use crate::replaying::KeptDay;
use std::alloc::Global;
use std::io::Write;
use trail_comparison::{ComparisonFault, Rules};
use trail_digest::{Contents, DigestFault, HeadForm, print_head};
use venue_rules::TrailRow;

/// Writes the head of a day.
pub(crate) fn write_head<W: Write>(
    alloc: Global,
    day: &ReadDay,
    writer: &mut W,
) -> Result<(), ComparisonFault>
    ensures headed { OnOk result (Appends (W.contents writer.old) (W.contents writer.new) (head_text Line (read_side day.now).trail)) }
    ensures unwritten { IfErr result (λ fault. fault ≡ Memory → Keeps (W.contents writer.old) (W.contents writer.new)) }
{
    let contents = Contents {
        participants: day.files.participants.as_slice(),
        instruments: day.files.instruments.as_slice(),
        delays: day.delays.as_slice(),
        rows: day.day.rows.as_slice(),
    };
    match print_head(alloc, HeadForm::Line, &contents, writer) {
        Ok(()) => Ok(()),
        Err(DigestFault::Memory) => Err(ComparisonFault::Memory),
        Err(DigestFault::Output) => Err(ComparisonFault::Output),
        Err(DigestFault::NoRow) => Err(ComparisonFault::Output),
    }
}

/// The rules of a day, and its rows.
pub(crate) fn rules_and_rows(day: ReadDay) -> (Rules, Vec<TrailRow>)
    ensures rules { market_of_rules result.0 ≡ market_of (read_side day) }
    ensures rows { result.1.items ≡ day.day.rows.items }
{
    let ReadDay {
        files,
        delays,
        day: KeptDay {
            participants,
            instruments,
            rows,
        },
    } = day;
    drop(files);
    drop(delays);
    let rules = Rules {
        participants,
        instruments,
    };
    (rules, rows)
}

/// The rules of a day, read again from its files.
pub(crate) fn rules_again(alloc: Global, day: &ReadDay) -> Result<Rules, Stop>
    requires kept { AreKept day.now.files day.now.delays.items day.now.day.participants day.now.day.instruments }
    ensures same { IfOk result (λ own. market_of_rules own ≡ market_of (read_side day.now)) }
    ensures memory { IfErr result (λ why. why ≡ stop.Memory) }
{
    match market_kept(alloc, &day.files, day.delays.as_slice()) {
        Ok((participants, instruments)) => Ok(Rules {
            participants,
            instruments,
        }),
        Err(why) => Err(why),
    }
}
