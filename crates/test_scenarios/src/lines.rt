//! The lines of a part, run one after the other.

use crate::refusals::Refusals;
use anyhow::Result;
use std::alloc::Global;

/// The state that the lines of a part run on.
pub trait Part: Sized {
    /// The state before the first line.
    fn begin(alloc: Global) -> Result<Self>;

    /// Runs a call, and appends its line and its answers.
    fn run_line(
        &mut self,
        alloc: Global,
        line: &str,
        emitted: &mut Vec<u8>,
        refusals: &mut Refusals,
    ) -> Result<()>;
}

// Answers among the lines are skipped.
fn run_lines<P: Part>(
    alloc: Global,
    part: &mut P,
    lines: &str,
    emitted: &mut Vec<u8>,
    refusals: &mut Refusals,
) -> Result<()> {
    for line in lines.lines() {
        if !line.starts_with("  ") {
            part.run_line(alloc, line, emitted, refusals)?;
        }
    }
    Ok(())
}

/// Appends the calls of a part and their answers. Its state is made again where an allocation failed.
pub fn run_part<P: Part + Drop>(
    alloc: Global,
    lines: &str,
    emitted: &mut Vec<u8>,
    refusals: &mut Refusals,
) -> Result<()> {
    let mut part = match P::begin(alloc) {
        Ok(part) => part,
        Err(_) => {
            refusals.one_more()?;
            P::begin(alloc)?
        }
    };
    let outcome = run_lines(alloc, &mut part, lines, emitted, refusals);
    drop(part);
    outcome
}
