//! One line, in memory of its own, so that its length is known before it is written.

ghost use Rattle.std.specs.Prelude.{◌≡◌, ◌+◌, ◌≤◌, ◌++◌};
ghost use Rattle.arrayvec.specs.ArrayString.{array_string_len};
ghost use Rattle.sinks.specs.Lines.{spaced, line, Small};

use arrayvec::ArrayString;
use event_log::item::Item;
use itoa::Buffer;

/// A number, with a space before it.
fn push_spaced(line: &mut ArrayString<16>, n: u16)
    requires { array_string_len line.old + 6 ≤ 16 }
    ensures text { line.new.bytes ≡ line.old.bytes ++ spaced n }
    ensures count { array_string_len line.new ≤ array_string_len line.old + 6 }
{
    line.push_str(" ");
    line.push_str(Buffer::new().format(n));
}

/// The longest line, `! 255 65535` with its end, has twelve bytes. `write!` would not promise that there is room.
pub fn line_of(item: Item) -> ArrayString<16>
    ensures text { result.bytes ≡ line item }
    ensures small { Small item }
{
    let mut line = ArrayString::new();
    match item {
        Item::Enter { kind } => {
            line.push_str("+");
            push_spaced(&mut line, kind);
        }
        Item::Leave => line.push_str("-"),
        Item::Token { kind, width } => {
            line.push_str("=");
            push_spaced(&mut line, kind);
            push_spaced(&mut line, width.into());
        }
        Item::Error { number, kind } => {
            line.push_str("!");
            push_spaced(&mut line, number.into());
            push_spaced(&mut line, kind);
        }
    }
    line.push_str("\n");
    line
}
