//! The lines of a transcript.

use crate::emitting::emit_again;
use crate::lines::Part;
use crate::refusals::Refusals;
use crate::texts::write_again;
use crate::world::emitting::Emitted;
use crate::world::running::{Answer, Outcome, new_world, scenario};
use anyhow::Result;
use std::alloc::Global;

impl Part for Outcome {
    fn begin(alloc: Global) -> Result<Outcome> {
        Ok(new_world(alloc, None)?)
    }

    fn run_line(
        &mut self,
        alloc: Global,
        line: &str,
        emitted: &mut Vec<u8>,
        refusals: &mut Refusals,
    ) -> Result<()> {
        write_again("", line, emitted, refusals)?;
        if line.is_empty() {
            return Ok(());
        }
        let answer = scenario(alloc, self, line, refusals)?;
        let answer = Emitted {
            world: self,
            answer: &answer,
        };
        emit_again(alloc, &answer, emitted, refusals)
    }
}
