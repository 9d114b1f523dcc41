//! The `explain` command: the frames of a log, explained.

ghost use Rattle.std.specs.Prelude.{◌≡◌, IfErr, IfOk, IfSome, OnOk};
ghost use Rattle.std.specs.Io.KnownBytes.{Keeps};
ghost use Rattle.venue_main.specs.Explaining.{HasExplained, UnlessOutput, explain_failure};

use crate::failure::Failure;
use crate::files::{Texts, fault_of, text_of};
use crate::market::Market;
use crate::once::OnceFault;
use frame_explanation::{ExplainFault, explain};
use std::alloc::Global;
use std::io::{Read, Write};

fn failure_of(fault: ExplainFault) -> Failure
    ensures { result ≡ explain_failure fault }
{
    match fault {
        ExplainFault::Memory => Failure::Stopped(OnceFault::Memory),
        ExplainFault::Output => Failure::Stopped(OnceFault::Output),
    }
}

/// All bytes of a log.
fn log_of<R: Read + Drop>(alloc: Global, reader: R) -> Result<Vec<u8>, OnceFault>
    ensures { IfOk result (λ log. IfSome (R.remaining reader) (λ bytes. log.items ≡ bytes)) }
{
    match text_of(alloc, reader) {
        Ok(log) => Ok(log),
        Err(error) => Err(fault_of(&error)),
    }
}

/// Reads both files, then the log, and writes its explanation. The files are read twice, as a venue keeps what it gets.
pub fn explain_log<R: Read + Drop, W: Write>(
    alloc: Global,
    texts: &Texts,
    reader: R,
    writer: &mut W,
) -> Result<(), Failure>
    ensures written { OnOk result (HasExplained texts.now.participants.items texts.now.instruments.items (R.remaining reader) (W.contents writer.old) (W.contents writer.new)) }
    ensures unwritten { IfErr result (λ failure. UnlessOutput failure (Keeps (W.contents writer.old) (W.contents writer.new))) }
{
    let named = Market::read(alloc, &texts.participants, &texts.instruments)?;
    let market = Market::read(alloc, &texts.participants, &texts.instruments)?;
    let log = log_of(alloc, reader)?;
    let explained = explain(
        alloc,
        &log,
        &named.participants,
        market.participants,
        market.instruments,
        writer,
    );
    drop(named);
    match explained {
        Ok(()) => Ok(()),
        Err(fault) => Err(failure_of(fault)),
    }
}
