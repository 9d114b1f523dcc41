//! The message of a frame's body.

ghost use Rattle.std.specs.Prelude.{◌≡◌, List, IfOk, IfSome};
ghost use Rattle.fix_fields.specs.Fields.{AreFields, Entry, fields_text};
ghost use Rattle.fix_decoder.specs.Messages.{Spells};

use fix_decoder::read_message;
use fix_dictionary::Message;
use fix_fields::{FieldFault, split};
use fix_validation::DictFault;
use std::alloc::{AllocError, Global};

/// The message that a body spells, if it spells one.
pub(crate) fn message_in(alloc: Global, body: &[u8]) -> Result<Option<Message>, AllocError>
    ensures { IfOk result (λ read. IfSome read (λ message. (fields : List Entry) × AreFields fields × (body.now ≡ fields_text fields) × Spells message fields)) }
{
    let fields = match split(alloc, body) {
        Ok(fields) => fields,
        Err(FieldFault::NoMemory) => return Err(AllocError),
        Err(_) => return Ok(None),
    };
    match read_message(alloc, &fields) {
        Ok(message) => Ok(Some(message)),
        Err(DictFault::NoMemory) => Err(AllocError),
        Err(_) => Ok(None),
    }
}
