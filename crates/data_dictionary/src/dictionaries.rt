//! Writing of the data dictionaries.
ghost use Rattle.std.specs.Prelude.{◌≡◌, ◌++◌, OnOk, IfOk, IfErr, map};
ghost use Rattle.std.specs.List.{flat_map};
ghost use Rattle.std.specs.Io.KnownBytes.{Appends, Keeps};
ghost use Rattle.data_dictionary.specs.Dictionaries.{application_text, dictionary_text, table_text, field_head, field_text, fields_text, header_text, message_head, message_text, messages_text, trailer_text, transport_text, value_text, values_text};
ghost use Rattle.data_dictionary.specs.Faults.{UnlessWriting};
ghost use Rattle.data_dictionary.specs.MessageTypes.{seen};
ghost use Rattle.fix_validation.specs.Tables.{rows_of};
ghost use Rattle.data_dictionary.specs.Values.{named, values_of};

use crate::faults::WriteFault;
use crate::fields::{
    DataType, application_tags, data_type_of, name_of, transport_tags, type_name_of,
};
use crate::lines::{append, append_fields_asked, append_table, required};
use crate::message_types::{Listed, application_types, session_types};
use fix_dictionary::MessageType;
use fix_validation::{header, resend_request_rows, rows_of, type_of};
use itoa::Buffer;
use std::alloc::{AllocError, Global};
use std::io::Write;

/// The data dictionaries of a FIXT 1.1 engine.
#[derive(Clone, Copy)]
pub enum Dictionary {
    /// FIXT 1.1: the header, the trailer and the session's messages.
    Transport,
    /// FIX 5.0 SP2: the application messages.
    Application,
}

#[tactic(auto, unfolding(crate::specs::Dictionaries::message_head))]
fn append_message_head(
    text: &mut Vec<u8>,
    category: &'static str,
    kind: &Listed,
) -> Result<(), AllocError>
    ensures { OnOk result (text.new.items ≡ text.old.items ++ message_head category.now (seen kind.now)) }
{
    append(
        text,
        &[
            "    <message name='",
            kind.name,
            "' msgtype='",
            kind.code,
            "' msgcat='",
            category,
            "'>\n",
        ],
    )
}

// Appends the lines of a type's table. The number that a resend request begins with bounds only its 16, which its line
// leaves out.
fn append_table_of(text: &mut Vec<u8>, kind: MessageType) -> Result<(), AllocError>
    ensures { OnOk result (text.new.items ≡ text.old.items ++ table_text (rows_of kind 0)) }
{
    match kind {
        MessageType::ResendRequest => append_table(text, &resend_request_rows(0)),
        _ => append_table(text, rows_of(kind)),
    }
}

#[tactic(auto, unfolding(crate::specs::Dictionaries::message_text))]
fn append_message(
    text: &mut Vec<u8>,
    category: &'static str,
    kind: &Listed,
) -> Result<(), AllocError>
    ensures { OnOk result (text.new.items ≡ text.old.items ++ message_text category.now (seen kind.now)) }
{
    append_message_head(text, category, kind)?;
    append_table_of(text, type_of(kind.code.as_bytes()))?;
    append(text, &["    </message>\n"])
}

fn append_each_message(
    text: &mut Vec<u8>,
    category: &'static str,
    kinds: &[Listed],
) -> Result<(), AllocError>
    ensures { OnOk result (text.new.items ≡ text.old.items ++ flat_map (λ kind. message_text category.now (seen kind)) kinds.now) }
{
    for kind in kinds {
        append_message(text, category, kind)?;
    }
    Ok(())
}

// Appends the messages of one category: `admin` for the session's, `app` for the application's.
#[tactic(auto, unfolding(crate::specs::Dictionaries::messages_text))]
fn append_messages(
    text: &mut Vec<u8>,
    category: &'static str,
    kinds: &[Listed],
) -> Result<(), AllocError>
    ensures { OnOk result (text.new.items ≡ text.old.items ++ messages_text category.now (map seen kinds.now)) }
{
    append(text, &["  <messages>\n"])?;
    append_each_message(text, category, kinds)?;
    append(text, &["  </messages>\n"])
}

#[tactic(auto, unfolding(crate::specs::Dictionaries::value_text))]
fn append_value(
    text: &mut Vec<u8>,
    value: &'static str,
    name: &'static str,
) -> Result<(), AllocError>
    ensures { OnOk result (text.new.items ≡ text.old.items ++ value_text (named value.now name.now)) }
{
    append(
        text,
        &[
            "      <value enum='",
            value,
            "' description='",
            name,
            "'/>\n",
        ],
    )
}

// Appends the values of a data type that has few.
#[tactic(auto, unfolding(crate::specs::Dictionaries::values_text, crate::specs::Values::values_of))]
fn append_values(text: &mut Vec<u8>, data_type: DataType) -> Result<(), AllocError>
    ensures { OnOk result (text.new.items ≡ text.old.items ++ values_text (values_of data_type)) }
{
    match data_type {
        DataType::Version => append_value(text, "9", "FIX50SP2"),
        DataType::Side => {
            append_value(text, "1", "BUY")?;
            append_value(text, "2", "SELL")
        }
        DataType::Flag => {
            append_value(text, "N", "NO")?;
            append_value(text, "Y", "YES")
        }
        DataType::NoEncryption => append_value(text, "0", "NONE_OTHER"),
        DataType::One => append_value(text, "1", "ONE_INSTRUMENT"),
        DataType::Two => append_value(text, "2", "BOTH_SIDES"),
        _ => Ok(()),
    }
}

#[tactic(auto, unfolding(crate::specs::Dictionaries::field_head))]
fn append_field_head(text: &mut Vec<u8>, tag: u32) -> Result<(), AllocError>
    ensures { OnOk result (text.new.items ≡ text.old.items ++ field_head tag) }
{
    let mut digits = Buffer::new();
    append(text, &["    <field number='", digits.format(tag)])?;
    append(
        text,
        &[
            "' name='",
            name_of(tag),
            "' type='",
            type_name_of(data_type_of(tag)),
            "'>\n",
        ],
    )
}

#[tactic(auto, unfolding(crate::specs::Dictionaries::field_text))]
fn append_field(text: &mut Vec<u8>, tag: u32) -> Result<(), AllocError>
    ensures { OnOk result (text.new.items ≡ text.old.items ++ field_text tag) }
{
    append_field_head(text, tag)?;
    append_values(text, data_type_of(tag))?;
    append(text, &["    </field>\n"])
}

fn append_each_field(text: &mut Vec<u8>, tags: &[u32]) -> Result<(), AllocError>
    ensures { OnOk result (text.new.items ≡ text.old.items ++ flat_map field_text tags.now) }
{
    for tag in tags {
        append_field(text, *tag)?;
    }
    Ok(())
}

// Appends the fields, to the end of the dictionary.
#[tactic(auto, unfolding(crate::specs::Dictionaries::fields_text))]
fn append_fields(text: &mut Vec<u8>, tags: &[u32]) -> Result<(), AllocError>
    ensures { OnOk result (text.new.items ≡ text.old.items ++ fields_text tags.now) }
{
    append(text, &["  <components/>\n  <fields>\n"])?;
    append_each_field(text, tags)?;
    append(text, &["  </fields>\n</fix>\n"])
}

// Appends the header, from the dictionary's first line on.
#[tactic(auto, unfolding(crate::specs::Dictionaries::header_text, crate::specs::Layout::frame_begin))]
fn append_header(text: &mut Vec<u8>) -> Result<(), AllocError>
    ensures { OnOk result (text.new.items ≡ text.old.items ++ header_text) }
{
    append(
        text,
        &["<fix type='FIXT' major='1' minor='1'>\n  <header>\n"],
    )?;
    append_fields_asked(text, &[required(8), required(9)])?;
    append_table(text, header())?;
    append(text, &["  </header>\n"])
}

#[tactic(auto, unfolding(crate::specs::Dictionaries::trailer_text, crate::specs::Layout::frame_end))]
fn append_trailer(text: &mut Vec<u8>) -> Result<(), AllocError>
    ensures { OnOk result (text.new.items ≡ text.old.items ++ trailer_text) }
{
    append(text, &["  <trailer>\n"])?;
    append_fields_asked(text, &[required(10)])?;
    append(text, &["  </trailer>\n"])
}

#[tactic(auto, unfolding(crate::specs::Dictionaries::transport_text))]
fn append_transport(text: &mut Vec<u8>) -> Result<(), AllocError>
    ensures { OnOk result (text.new.items ≡ text.old.items ++ transport_text) }
{
    append_header(text)?;
    append_messages(text, "admin", session_types())?;
    append_trailer(text)?;
    append_fields(text, transport_tags())
}

#[tactic(auto, unfolding(crate::specs::Dictionaries::application_text))]
fn append_application(text: &mut Vec<u8>) -> Result<(), AllocError>
    ensures { OnOk result (text.new.items ≡ text.old.items ++ application_text) }
{
    append(
        text,
        &["<fix type='FIX' major='5' minor='0' servicepack='2'>\n  <header/>\n  <trailer/>\n"],
    )?;
    append_messages(text, "app", application_types())?;
    append_fields(text, application_tags())
}

#[tactic(auto, unfolding(crate::specs::Dictionaries::dictionary_text))]
fn text_of(alloc: Global, dictionary: Dictionary) -> Result<Vec<u8>, AllocError>
    ensures { IfOk result (λ text. text.items ≡ dictionary_text dictionary) }
{
    let mut text = Vec::new(alloc);
    match dictionary {
        Dictionary::Transport => append_transport(&mut text)?,
        Dictionary::Application => append_application(&mut text)?,
    }
    Ok(text)
}

/// Writes a data dictionary as QuickFIX reads it (XML): the rows of each table by which messages are read and printed,
/// in printed order, each with whether it is required and within its group; then each field of theirs once, with its
/// tag, name and data type, and the listed values of the data type, if any.
pub fn write_dictionary<W: Write>(
    alloc: Global,
    dictionary: Dictionary,
    writer: &mut W,
) -> Result<(), WriteFault>
    ensures written { OnOk result (Appends (W.contents writer.old) (W.contents writer.new) (dictionary_text dictionary)) }
    ensures unwritten { IfErr result (λ fault. UnlessWriting fault (Keeps (W.contents writer.old) (W.contents writer.new))) }
{
    let text = text_of(alloc, dictionary)?;
    match writer.write_all(&text) {
        Ok(()) => Ok(()),
        Err(_) => Err(WriteFault::Output),
    }
}
