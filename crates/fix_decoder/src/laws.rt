//! Laws of printing and reading: each is the contract of a function with no parameters.
ghost use Rattle.std.specs.Prelude.{◌≡◌, ◌⊎◌, ◌≤◌, List, length};
ghost use Rattle.fix_fields.specs.Fields.{Entry, AreFields, fields_text};
ghost use Rattle.fix_decoder.specs.Applications.{SpellsApp};
ghost use Rattle.fix_dictionary.specs.Fits.{FitsMessage, FitsBody};
ghost use Rattle.fix_decoder.specs.Messages.{Spells, HasFault};
ghost use Rattle.fix_dictionary.specs.Text.{fields_of, message_slots, message_text, app_text};
ghost use Rattle.fix_validation.specs.declared.faults.DictFault.{DictFault};
ghost use Rattle.fix_dictionary.specs.declared.messages.App.{App};
ghost use Rattle.fix_dictionary.specs.declared.messages.Body.TheVariants as body;
ghost use Rattle.fix_dictionary.specs.declared.messages.Message.{Message};

/// Law call (docs/ARCHITECTURE.md): the printed text of a message is a list of fields, and any fields with that text
/// spell the message. The same holds of the text of an application message without header.
pub fn printed_is_read()
    ensures fields { (m : Message) → FitsMessage m → AreFields (fields_of (message_slots m)) }
    ensures message { (m : Message) (fields : List Entry) → FitsMessage m
        → AreFields fields → message_text m ≡ fields_text fields → Spells m fields }
    ensures app { (a : App) (fields : List Entry) → FitsBody (body.App a)
        → AreFields fields → app_text a ≡ fields_text fields → SpellsApp a fields }
{}

/// Law call (docs/ARCHITECTURE.md): the text of a message has at most 65,536 bytes, the limit of a frame's body.
pub fn printed_is_short()
    ensures { (m : Message) → FitsMessage m → length (message_text m) ≤ 65_536 }
{}

/// Law call (docs/ARCHITECTURE.md): fields spell a message or have a first fault, and not both.
pub fn spelled_or_faulty()
    ensures either { (fields : List Entry) → ((m : Message) × Spells m fields) ⊎ ((fault : DictFault) × HasFault fault fields) }
    ensures not_both { (fields : List Entry) (m : Message) (fault : DictFault) → Spells m fields → HasFault fault fields → ⊥ }
{}
