//! The head above an answer: which trail it is from.

ghost use Rattle.std.specs.Prelude.{◌≡◌, IfErr, OnOk};
ghost use Rattle.trail_digest.specs.Trail.{trail_of};
ghost use Rattle.trail_questions.specs.Ending.{Fails, IsNever};
ghost use Rattle.trail_questions.specs.Headed.{Heads, head_form};

use crate::fault::AskedFault;
use message_words::Form;
use std::alloc::Global;
use std::io::Write;
use trail_digest::{Contents, DigestFault, HeadForm, print_head};

/// The form of the head above an answer in this form; a table has none.
pub(crate) fn head_form(form: Form) -> Option<HeadForm>
    ensures { result ≡ head_form form }
{
    match form {
        Form::Lines => Some(HeadForm::Line),
        Form::Table => None,
        Form::Json => Some(HeadForm::Json),
    }
}

/// Writes the head, where there is one.
pub(crate) fn write_head<W: Write>(
    alloc: Global,
    form: Option<HeadForm>,
    trail: &Contents<'_>,
    writer: &mut W,
) -> Result<(), AskedFault>
    ensures headed { OnOk result (Heads form (trail_of trail.now) (W.contents writer.old) (W.contents writer.new)) }
    ensures failed { IfErr result (Fails ⊥ ⊥ IsNever (W.contents writer.old) (W.contents writer.new)) }
{
    let Some(form) = form else {
        return Ok(());
    };
    match print_head(alloc, form, trail, writer) {
        Ok(()) => Ok(()),
        Err(DigestFault::Memory) => Err(AskedFault::Memory),
        Err(DigestFault::Output) => Err(AskedFault::Output),
        Err(DigestFault::NoRow) => Err(AskedFault::Output),
    }
}
