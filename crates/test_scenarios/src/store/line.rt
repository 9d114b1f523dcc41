//! The lines of a transcript.

use crate::emitting::emit_line;
use crate::lines::Part;
use crate::refusals::Refusals;
use crate::store::adding::add;
use crate::store::looking::look;
use crate::texts::{times_in, write_again};
use anyhow::{Result, bail, ensure};
use resend_store::{Store, StoreFault};
use std::alloc::{AllocError, Global};
use std::mem;

// Makes a call, and appends what is answered; false where it is no call.
fn ask(
    alloc: Global,
    store: &mut Store,
    call: &str,
    emitted: &mut Vec<u8>,
) -> Result<bool, AllocError> {
    let (word, rest) = call.split_once(' ').unwrap_or((call, ""));
    match add(alloc, store, word, rest) {
        Ok(true) => return Ok(true),
        Ok(false) => {}
        Err(StoreFault::Full) => {
            emit_line("the numbers are spent", emitted)?;
            return Ok(true);
        }
        Err(StoreFault::Eras) => {
            emit_line("the eras are spent", emitted)?;
            return Ok(true);
        }
        Err(StoreFault::NoMemory) => return Err(AllocError),
    }
    look(alloc, store, word, rest, emitted)
}

// Makes a call again where an allocation failed, once the store was compared with what it was.
fn ask_again(
    alloc: Global,
    store: &mut Store,
    call: &str,
    emitted: &mut Vec<u8>,
    refusals: &mut Refusals,
) -> Result<()> {
    let (answers, era, number) = (emitted.len(), store.era(), store.next_number());
    let mut known = ask(alloc, store, call, emitted);
    if known.is_err() {
        refusals.one_more()?;
        if store.era() != era || store.next_number() != number {
            bail!("a refused call changed the store");
        }
        emitted.truncate(answers);
        known = ask(alloc, store, call, emitted);
    }
    ensure!(known?, "no call: {call}");
    Ok(())
}

impl Part for Store {
    fn begin(alloc: Global) -> Result<Store> {
        Ok(Store::new(alloc))
    }

    fn run_line(
        &mut self,
        alloc: Global,
        line: &str,
        emitted: &mut Vec<u8>,
        refusals: &mut Refusals,
    ) -> Result<()> {
        write_again("", line, emitted, refusals)?;
        if line.is_empty() {
            return Ok(());
        }
        if line.starts_with('#') {
            drop(mem::replace(self, Store::new(alloc)));
            return Ok(());
        }
        let (times, call) = times_in(line);
        for _ in 0..times {
            ask_again(alloc, self, call, emitted, refusals)?;
        }
        Ok(())
    }
}
