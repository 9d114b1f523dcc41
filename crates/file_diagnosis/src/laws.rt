//! What a cause says of a file.

ghost use Rattle.file_diagnosis.specs.First.{AreFirst};
ghost use Rattle.file_diagnosis.specs.Numbers.{InstrumentsAgree, ParticipantsAgree};

/// A document has a cause with the number of its refusal, and none where it is read.
#[tactic(auto, using(crate::proofs::Agreement::participants_agree, crate::proofs::Agreement::instruments_agree))]
pub fn causes_have_the_number()
    ensures participants { ParticipantsAgree }
    ensures instruments { InstrumentsAgree }
{}

/// The entry of a cause has its fault, and no entry before it has one that is looked for with it.
#[tactic(auto, using(crate::proofs::Firsts::are_first))]
pub fn causes_are_first()
    ensures { AreFirst }
{}
