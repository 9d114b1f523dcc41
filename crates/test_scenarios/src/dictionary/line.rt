//! The lines of a transcript.

use crate::dictionary::Dictionary;
use crate::dictionary::reading::answer;
use crate::lines::Part;
use crate::refusals::{Refusals, Trouble};
use crate::texts::write_again;
use anyhow::{Result, bail, ensure};
use std::alloc::{AllocError, Global};

impl Part for Dictionary {
    fn begin(_alloc: Global) -> Result<Dictionary> {
        Ok(Dictionary {})
    }

    // Runs a line again where an allocation failed.
    fn run_line(
        &mut self,
        alloc: Global,
        line: &str,
        emitted: &mut Vec<u8>,
        refusals: &mut Refusals,
    ) -> Result<()> {
        write_again("", line, emitted, refusals)?;
        if line.is_empty() || line.starts_with('#') {
            return Ok(());
        }
        let before = emitted.len();
        let mut known = answer(alloc, line, emitted);
        if let Err(Trouble::NoMemory) = known {
            refusals.one_more()?;
            emitted.truncate(before);
            known = answer(alloc, line, emitted);
        }
        match known {
            Ok(known) => ensure!(known, "no call: {line}"),
            Err(Trouble::NoMemory) => return Err(AllocError.into()),
            Err(Trouble::Changed) => bail!("a refused print changed its vector"),
        }
        Ok(())
    }
}
