// A value of an attribute: its format, and its bits untouched.
ghost use Rattle.std.specs.Prelude.{◌≡◌, ◌<◌, ◌^◌, ◌||◌, eqb};
ghost use Rattle.items.specs.declared.head.Span.{Span};
ghost use Rattle.items.specs.Formats.{BINARY, ASCII, code, size_of};
ghost use Rattle.values.specs.Values.{f4_of, f8_of, number_of, value_in};

use items::formats::Format;
use items::head::*;

#[derive(Clone, Copy)]
pub enum Value {
    // the format, and the number
    Unsigned(Format, u64),
    Signed(Format, i64),
    // the byte that was sent: 0 is false
    Boolean(u8),
    // binary or text: the format, and where it stands
    Bytes(Format, Span),
    F4(f32),
    F8(f64),
    // the bits of a NaN, which a float would lose
    Nan4(u32),
    Nan8(u64),
}

// An F4 of its 32 bits: above those of an infinity they are a NaN's. F4 and F8 stand beside each other: a trait over both
// floats, with its laws, would be longer than the second function.
fn f4(bits: u32) -> Value
    ensures { result ≡ f4_of bits }
{
    if 0x7F80_0000 < bits % 0x8000_0000 {
        Value::Nan4(bits)
    } else {
        let x = f32::from_bits(bits);
        Value::F4(x)
    }
}

// An F8 of its 64 bits.
fn f8(bits: u64) -> Value
    ensures { result ≡ f8_of bits }
{
    if 0x7FF0_0000_0000_0000 < bits % 0x8000_0000_0000_0000 {
        Value::Nan8(bits)
    } else {
        let x = f64::from_bits(bits);
        Value::F8(x)
    }
}

// A number or boolean of its bits, a sign in two's complement; no value of any other format.
#[tactic(auto, unfolding(items::specs::Formats::size_of, crate::specs::Values::number_of))]
fn number_of(format: Format, bits: u64) -> Option<Value>
    requires { bits < 256 ^ size_of (code format) }
    ensures { result ≡ number_of format bits }
{
    match format {
        Format::U1 | Format::U2 | Format::U4 | Format::U8 => Some(Value::Unsigned(format, bits)),
        Format::I1 => Some(Value::Signed(format, i64::from((bits as u8).cast_signed()))),
        Format::I2 => Some(Value::Signed(format, i64::from((bits as u16).cast_signed()))),
        Format::I4 => Some(Value::Signed(format, i64::from((bits as u32).cast_signed()))),
        Format::I8 => Some(Value::Signed(format, bits.cast_signed())),
        Format::Boolean => Some(Value::Boolean(bits as u8)),
        Format::F4 => Some(f4(bits as u32)),
        Format::F8 => Some(f8(bits)),
        Format::List | Format::Binary | Format::Ascii => None,
    }
}

fn is_bytes(format: Format) -> bool
    ensures { result ≡ (eqb (code format) BINARY || eqb (code format) ASCII) }
{
    matches!(format, Format::Binary | Format::Ascii)
}

// What the data at a position hold, of a format's code and a length: nothing for a list, or for an item that doesn't hold one
// value.
pub fn value_in(msg: &[u8], code: usize, at: usize, many: usize) -> Option<Value>
    ensures { result ≡ value_in msg.now code (record { at = at; many = many }) }
{
    let format = Format::of(code)?;
    if is_bytes(format) {
        return Some(Value::Bytes(format, Span { at, many }));
    }
    if many != format.size() || msg.len() < at || msg.len() - at < many {
        return None;
    }
    number_of(format, number(msg, at, many) as u64)
}
