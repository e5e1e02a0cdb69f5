//! Texts: what a text becomes when variables are put into it, over any source of values.
#![tactic(auto)]

ghost use Rattle.std.specs.Prelude.{◌≡◌, ◌≤◌, length, Some, OnOk};
ghost use Rattle.text.specs.declared.Mode.TheVariants.{Plain};
ghost use Rattle.convert.specs.Escape.{escape as escaped};
ghost use Rattle.convert.specs.Unescape.{unescape as unescaped, ConversionsFit};
ghost use Rattle.text.specs.Fill.{Lookup, convert, referred, filled, broken_at};
ghost use Rattle.text.specs.Answers.{number_of, whole, fill_answer, convert_answer, written, room_answer};
ghost use Rattle.text.specs.Laws.{FillingKeeps};

use convert::{Counter, Sink, Writer};
use names::{MOST_NAME, MOST_TEXT};
use pieces::{Conversion, Piece, first_piece};

/// How a reference without a conversion is turned.
#[derive(Clone, Copy, PartialEq, Eq, Debug)]
pub enum Mode {
    /// Values are copied: for pages, names and values.
    Plain,
    /// Values are escaped: for the address text of a task.
    Address,
}

/// Why a text is not filled or converted.
#[derive(Clone, Copy, PartialEq, Eq, Debug)]
pub enum TextFault {
    /// The text has over 1,024 bytes.
    TooLong,
    /// The place of the first dollar sign that begins nothing.
    Broken(usize),
    /// The buffer is too short.
    ShortBuffer,
}

impl TextFault {
    /// The fault by its number: 22, 21 or 35.
    pub fn number(self) -> u8
        ensures { result ≡ number_of self }
    {
        match self {
            TextFault::TooLong => 22,
            TextFault::Broken(_) => 21,
            TextFault::ShortBuffer => 35,
        }
    }
}

/// A source of values.
pub trait Values {
    ghost lookup: { Self → Lookup };

    /// The value of a name, at most 64 bytes; empty where it is not set.
    fn value(&self, name: &[u8]) -> &[u8]
        ensures value { result.now ≡ lookup self.now name.now }
        ensures short { length result.now ≤ 64 };
}

/// What a reference to the name gives, before it is converted.
fn value_referred<'a, V: Values>(values: &'a V, name: &[u8]) -> &'a [u8]
    ensures value { result.now ≡ referred (V.Values.lookup values.now) name.now }
    ensures short { length result.now ≤ 64 }
{
    if name.len() > MOST_NAME {
        return b"";
    }
    values.value(name)
}

/// Sends the value, converted.
fn send_converted<S: Sink>(value: &[u8], mode: Mode, conversion: Option<Conversion>, sink: &mut S)
    requires { S.fits sink.old (length (convert mode conversion value.now)) }
    ensures { S.takes sink.old (convert mode conversion value.now) sink.new }
{
    match (conversion, mode) {
        (Some(Conversion::Escape), _) | (None, Mode::Address) => convert::escape(value, sink),
        (Some(Conversion::Noesc), _) | (None, Mode::Plain) => convert::copy(value, sink),
        (Some(Conversion::Unesc), _) => convert::unescape(value, sink),
    }
}

/// Sends the filled text, or as far as it goes before it breaks.
fn send_filled<V: Values, S: Sink>(
    text: &[u8],
    values: &V,
    mode: Mode,
    sink: &mut S,
) -> Result<(), TextFault>
    requires { S.fits sink.old (length (filled (V.Values.lookup values.now) mode text.now)) }
    ensures answer { result ≡ whole (broken_at text.now) }
    ensures bytes { OnOk result (S.takes sink.old (filled (V.Values.lookup values.now) mode text.now) sink.new) }
{
    let mut rest = text;
    while let Some((piece, more)) = first_piece(rest) {
        match piece {
            Piece::Literal(byte) => sink.put(byte),
            Piece::Reference { name, conversion } => {
                send_converted(value_referred(values, name), mode, conversion, sink)
            }
            Piece::Broken => return Err(TextFault::Broken(text.len() - rest.len())),
        }
        rest = more;
    }
    Ok(())
}

/// Writes the filled text to the front of `buf`, whose rest stays, and answers its length.
///
/// Refused, in this order and with `buf` as it was: a text over 1,024 bytes, a broken text, a buffer
/// too short.
pub fn fill<V: Values>(
    text: &[u8],
    values: &V,
    mode: Mode,
    buf: &mut [u8],
) -> Result<usize, TextFault>
    ensures answer { result ≡ fill_answer (V.Values.lookup values.now) mode text.now buf.old }
    ensures bytes { buf.new ≡ written result (filled (V.Values.lookup values.now) mode text.now) buf.old }
{
    if text.len() > MOST_TEXT {
        return Err(TextFault::TooLong);
    }
    let mut filled = Counter::new();
    send_filled(text, values, mode, &mut filled)?;
    if filled.count > buf.len() {
        return Err(TextFault::ShortBuffer);
    }
    let mut writer = Writer::new(buf);
    send_filled(text, values, mode, &mut writer)?;
    Ok(writer.at)
}

/// Writes the converted bytes to the front of `buf`, whose rest stays, and answers their length.
fn convert_within(value: &[u8], conversion: Conversion, buf: &mut [u8]) -> Result<usize, TextFault>
    ensures answer { result ≡ convert_answer value.now (convert Plain (Some conversion) value.now) buf.old }
    ensures bytes { buf.new ≡ written result (convert Plain (Some conversion) value.now) buf.old }
{
    if value.len() > MOST_TEXT {
        return Err(TextFault::TooLong);
    }
    let mut converted = Counter::new();
    send_converted(value, Mode::Plain, Some(conversion), &mut converted);
    if converted.count > buf.len() {
        return Err(TextFault::ShortBuffer);
    }
    let mut writer = Writer::new(buf);
    send_converted(value, Mode::Plain, Some(conversion), &mut writer);
    Ok(writer.at)
}

/// Writes the escaped bytes to the front of `buf`, whose rest stays, and answers their length.
///
/// Refused, in this order and with `buf` as it was: over 1,024 bytes, a buffer too short.
pub fn escape(value: &[u8], buf: &mut [u8]) -> Result<usize, TextFault>
    ensures answer { result ≡ convert_answer value.now (escaped value.now) buf.old }
    ensures bytes { buf.new ≡ written result (escaped value.now) buf.old }
{
    convert_within(value, Conversion::Escape, buf)
}

/// Writes the unescaped bytes to the front of `buf`, whose rest stays, and answers their length.
///
/// Refused, in this order and with `buf` as it was: over 1,024 bytes, a buffer too short.
pub fn unescape(value: &[u8], buf: &mut [u8]) -> Result<usize, TextFault>
    ensures answer { result ≡ convert_answer value.now (unescaped value.now) buf.old }
    ensures bytes { buf.new ≡ written result (unescaped value.now) buf.old }
{
    convert_within(value, Conversion::Unesc, buf)
}

fn room(given: &[u8], each: usize) -> Result<usize, TextFault>
    requires { each ≤ 96 }
    ensures { result ≡ room_answer each given.now }
{
    if given.len() > MOST_TEXT {
        return Err(TextFault::TooLong);
    }
    Ok(each * given.len())
}

/// Room that suffices for the text, filled from any source of values in either mode.
pub fn room_for_filling(text: &[u8]) -> Result<usize, TextFault>
    ensures answer { result ≡ room_answer 96 text.now }
    ensures laws { FillingKeeps }
{
    room(text, 96)
}

/// Room that suffices for the value, escaped.
pub fn room_for_escaping(value: &[u8]) -> Result<usize, TextFault>
    ensures answer { result ≡ room_answer 3 value.now }
    ensures laws { ConversionsFit }
{
    room(value, 3)
}
