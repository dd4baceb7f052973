// The strings of RFC 8259, section 7, as they are written.
ghost use Rattle.std.specs.Prelude.{◌≡◌, ◌<◌, ◌++◌};
ghost use Rattle.json_writer.specs.Standing.{Start};
ghost use Rattle.json_value.specs.Text.{escaped_byte, quoted};
ghost use Rattle.json_value.specs.Text as spec;

use crate::out::Out;
use json_value::plain_len;

/// The lower-case hexadecimal digit.
fn hex_digit(number: u8) -> u8
    requires { number < 16 }
    ensures { result ≡ spec.hex_digit number }
{
    if number < 10 {
        b'0' + number
    } else {
        b'a' - 10 + number
    }
}

/// Puts what stands for the byte between quotation marks.
#[tactic(auto, unfolding(json_value::specs::Text::escaped_byte))]
fn put_escaped<O: Out>(byte: u8, out: &mut O)
    ensures text { O.text out.new ≡ O.text out.old ++ escaped_byte byte }
    ensures kept { (start : Start) → O.good out.old start → O.good out.new start }
{
    if byte == b'"' {
        return out.put(b"\\\"");
    }
    if byte == b'\\' {
        return out.put(b"\\\\");
    }
    if byte == 0x08 {
        return out.put(b"\\b");
    }
    if byte == b'\t' {
        return out.put(b"\\t");
    }
    if byte == b'\n' {
        return out.put(b"\\n");
    }
    if byte == 0x0c {
        return out.put(b"\\f");
    }
    if byte == b'\r' {
        return out.put(b"\\r");
    }
    if byte < 0x20 {
        let high = hex_digit(byte / 16);
        let low = hex_digit(byte % 16);
        return out.put(&[b'\\', b'u', b'0', b'0', high, low]);
    }
    out.put(&[byte])
}

/// Puts the text between quotation marks, as `write_text` does.
pub fn put_text<O: Out>(text: &str, out: &mut O)
    ensures text { O.text out.new ≡ O.text out.old ++ quoted text.now }
    ensures kept { (start : Start) → O.good out.old start → O.good out.new start }
{
    out.put(b"\"");
    let mut rest = text.as_bytes();
    'runs: loop {
        let (run, following) = rest.split_at(plain_len(rest));
        out.put(run);
        let Some((byte, after)) = following.split_first() else {
            return out.put(b"\"");
        };
        put_escaped(*byte, out);
        rest = after;
    }
}
