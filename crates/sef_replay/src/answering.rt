//! The answer to a question in words, of the bytes of a trail's files.

ghost use Rattle.std.specs.Prelude.{IfErr, OnOk};
ghost use Rattle.sef_replay.specs.Answered.{AnswersWords, FailsToAnswer};

use crate::copied::{Copied, print_copied};
use crate::failure::Failure;
use std::alloc::Global;
use std::io::Write;
use trail_questions::{AskedWords, Unknown, question_of};

/// Why words are not answered.
#[derive(Drop)]
pub enum WordsFailure {
    /// The word for this has not its form.
    Misspelt(Unknown),
    /// The question that they ask is not answered.
    Failed(Failure),
}

/// Prints the answer to the question that these words ask of the trail that these bytes hold.
pub fn print_words<W: Write>(
    alloc: Global,
    copied: Copied,
    seed: u64,
    words: &AskedWords,
    writer: &mut W,
) -> Result<(), WordsFailure>
    ensures emitted { OnOk result (AnswersWords words.now copied (W.contents writer.old) (W.contents writer.new)) }
    ensures failed { IfErr result (FailsToAnswer words.now copied (W.contents writer.old) (W.contents writer.new)) }
{
    let question = match question_of(words) {
        Ok(question) => question,
        Err(unknown) => {
            drop(copied);
            return Err(WordsFailure::Misspelt(unknown));
        }
    };
    match print_copied(alloc, copied, seed, &Some(question), writer) {
        Ok(()) => Ok(()),
        Err(failure) => Err(WordsFailure::Failed(failure)),
    }
}
