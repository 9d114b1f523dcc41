//! Calls that change the store.

use crate::moments::moment_in;
use crate::texts::app_in;
use resend_store::{Store, StoreFault};
use std::alloc::Global;

// Adds the message that follows its first moment; false where there is none.
fn add_message(alloc: Global, store: &mut Store, text: &str) -> Result<bool, StoreFault> {
    let Some((moment, message)) = text.split_once(' ') else {
        return Ok(false);
    };
    let Some(first_sent) = moment_in(moment) else {
        return Ok(false);
    };
    let Some(app) = app_in(alloc, message)? else {
        return Ok(false);
    };
    let number = store.next_number();
    let added = store.add_app(number, &app, first_sent);
    drop(app);
    added?;
    Ok(true)
}

/// Makes a call that adds, if it is one.
pub fn add(alloc: Global, store: &mut Store, word: &str, rest: &str) -> Result<bool, StoreFault> {
    match word {
        "admin" => {
            let number = store.next_number();
            store.add_admin(number)?;
        }
        "era" => store.begin_era()?,
        "message" => return add_message(alloc, store, rest),
        "reserve" => match rest.parse::<usize>() {
            Ok(count) => store.reserve(count)?,
            Err(_) => return Ok(false),
        },
        _ => return Ok(false),
    }
    Ok(true)
}
