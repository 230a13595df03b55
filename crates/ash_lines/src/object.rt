//! Writing words and objects.

ghost use Rattle.std.specs.Prelude.{◌++◌, ◌∷◌, [], codes, map};
ghost use Rattle.std.specs.List.{flat_map};
ghost use Rattle.hex.specs.Hex.{encode_lower};
ghost use Rattle.ash_requests.specs.RequestViews.{field_seen, contents_seen, shown_seen};
ghost use Rattle.ash_lines.specs.Sink.{Writes};
ghost use Rattle.ash_lines.specs.ObjectTexts.{word_text, field_name_text, field_text, element_text};
ghost use Rattle.ash_lines.specs.ObjectTexts.{byte_text, state_text};
ghost use Rattle.ash_lines.specs.ObjectTexts.{contents_text, object_text, shown_text};

use crate::pieces::write_all;
use crate::sink::{Sink, WriteFault};
use ash_host::Word;
use ash_requests::{ObjectContents, Shown};
use hex::encode_to_slice;
use itoa::Buffer;

/// Writes an object as it is shown.
pub(crate) fn write_shown<K: Sink>(output: &mut K, shown: &Shown) -> Result<(), WriteFault>
    ensures text { Writes K.outlet output.old (shown_text (shown_seen shown.now))
        result output.new }
{
    write_object(output, shown.number, shown.type_name.as_str(), shown.count)?;
    write_contents(output, &shown.contents)
}

/// Writes the number of an object, the name of its type and its count.
fn write_object<K: Sink>(
    output: &mut K,
    number: u64,
    type_name: &str,
    count: usize,
) -> Result<(), WriteFault>
    ensures text { Writes K.outlet output.old (object_text number type_name.now count)
        result output.new }
{
    let mut digits = Buffer::new();
    let mut count_digits = Buffer::new();
    write_all(
        output,
        &[
            b"ok object ".as_slice(),
            digits.format(number).as_bytes(),
            b" ".as_slice(),
            type_name.as_bytes(),
            b" count ".as_slice(),
            count_digits.format(count).as_bytes(),
        ],
    )
}

/// Writes what is in an object.
fn write_contents<K: Sink>(output: &mut K, contents: &ObjectContents) -> Result<(), WriteFault>
    ensures text { Writes K.outlet output.old (contents_text (contents_seen contents.now))
        result output.new }
{
    match contents {
        ObjectContents::Fields(fields) => write_fields(output, fields.as_slice()),
        ObjectContents::HostState(state) => write_state(output, state.as_slice()),
        ObjectContents::Elements(elements) => write_elements(output, elements.as_slice()),
    }
}

/// Writes fields, with a blank before each.
fn write_fields<K: Sink>(output: &mut K, fields: &[(String, Word)]) -> Result<(), WriteFault>
    ensures text { Writes K.outlet output.old (flat_map field_text (map field_seen fields.now))
        result output.new }
{
    for field in fields {
        write_field(output, field.0.as_str(), field.1)?;
    }
    Ok(())
}

/// Writes a field by its name, with a blank before it.
fn write_field<K: Sink>(output: &mut K, name: &str, word: Word) -> Result<(), WriteFault>
    ensures text { Writes K.outlet output.old (field_text (name.now, word)) result output.new }
{
    write_field_name(output, name)?;
    write_word(output, word)
}

/// Writes the name of a field, with a blank on either side.
fn write_field_name<K: Sink>(output: &mut K, name: &str) -> Result<(), WriteFault>
    ensures text { Writes K.outlet output.old (field_name_text name.now) result output.new }
{
    write_all(output, &[b" ".as_slice(), name.as_bytes(), b" ".as_slice()])
}

/// Writes the state of a host object.
fn write_state<K: Sink>(output: &mut K, state: &[u8]) -> Result<(), WriteFault>
    ensures text { Writes K.outlet output.old (state_text state.now) result output.new }
{
    if state.is_empty() {
        return output.write(b" state");
    }
    output.write(b" state ")?;
    write_bytes(output, state)
}

/// Writes bytes as hexadecimal digits.
fn write_bytes<K: Sink>(output: &mut K, bytes: &[u8]) -> Result<(), WriteFault>
    ensures text { Writes K.outlet output.old (flat_map byte_text bytes.now) result output.new }
{
    for byte in bytes {
        write_byte(output, *byte)?;
    }
    Ok(())
}

/// Writes a byte as two hexadecimal digits.
fn write_byte<K: Sink>(output: &mut K, byte: u8) -> Result<(), WriteFault>
    ensures text { Writes K.outlet output.old (encode_lower (byte ∷ [])) result output.new }
{
    let bytes = [byte];
    let mut digits = [0u8; 2];
    match encode_to_slice(bytes.as_slice(), &mut digits) {
        Ok(()) => output.write(&digits),
        Err(_) => unreachable!(),
    }
}

/// Writes elements, with a blank before each.
fn write_elements<K: Sink>(output: &mut K, elements: &[Word]) -> Result<(), WriteFault>
    ensures text { Writes K.outlet output.old (flat_map element_text elements.now)
        result output.new }
{
    for element in elements {
        write_element(output, *element)?;
    }
    Ok(())
}

fn write_element<K: Sink>(output: &mut K, element: Word) -> Result<(), WriteFault>
    ensures text { Writes K.outlet output.old (element_text element) result output.new }
{
    output.write(b" ")?;
    write_word(output, element)
}

/// Writes a word that is asked for.
pub(crate) fn write_ok<K: Sink>(output: &mut K, word: Word) -> Result<(), WriteFault>
    ensures text { Writes K.outlet output.old (codes "ok " ++ word_text word) result output.new }
{
    output.write(b"ok ")?;
    write_word(output, word)
}

fn write_word<K: Sink>(output: &mut K, word: Word) -> Result<(), WriteFault>
    ensures text { Writes K.outlet output.old (word_text word) result output.new }
{
    let mut digits = Buffer::new();
    match word {
        Word::Bool(true) => output.write(b"true"),
        Word::Bool(false) => output.write(b"false"),
        Word::Int(number) => output.write(digits.format(number).as_bytes()),
        Word::Uint(number) => output.write(digits.format(number).as_bytes()),
        Word::Int64(number) => output.write(digits.format(number).as_bytes()),
        Word::Uint64(number) => output.write(digits.format(number).as_bytes()),
        Word::Null => output.write(b"null"),
        Word::Object(number) => write_all(
            output,
            &[b"object ".as_slice(), digits.format(number).as_bytes()],
        ),
    }
}
