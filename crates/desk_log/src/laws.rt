//! What every reading of a log keeps.

ghost use Rattle.desk_log.specs.Absent.{FoundAreThere, NoneIsLeft, PartIsFound};
ghost use Rattle.desk_log.specs.Lines.{TextsAreLines};
ghost use Rattle.desk_log.specs.Missing.{GapsAreMissing, MissingAreMissing};

/// Numbers that are said to be missing are in no frame of their era; those before them are, from where the search
/// began; and the next is a frame's own. So of one gap after another, as they are printed.
pub fn missing_are_missing()
    ensures first { MissingAreMissing }
    ensures each { GapsAreMissing }
{}

/// What is printed of the bytes of a log, and of a message that is owed, is one line, whatever these bytes are.
pub fn texts_are_lines()
    ensures { TextsAreLines }
{}

/// What is said to be in a log is there, in order, and each message of the log is one of these or left over: all are,
/// where the log has nothing else. Where no message that is left over is named, none has the text.
pub fn found_are_there()
    ensures found { FoundAreThere }
    ensures part { PartIsFound }
    ensures left { NoneIsLeft }
{}
