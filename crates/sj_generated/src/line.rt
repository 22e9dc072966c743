// The text of a line.
ghost use Rattle.std.specs.Prelude.{◌≡◌, ◌<◌, ◌≤◌, ◌+◌, ◌%◌, ◌++◌, decimal};
ghost use Rattle.arrayvec.specs.ArrayString.{array_string_len};
ghost use Rattle.sj_generated.specs.Lines as spec;
ghost use Rattle.sj_generated.specs.Lines.{members};

use arrayvec::ArrayString;
use itoa::Buffer;

/// How many bytes a line may have.
pub(crate) const ROOM: usize = 64;

/// The line of this number.
pub(crate) fn line(number: u32) -> ArrayString<ROOM>
    ensures { result.bytes ≡ spec.line number }
{
    let mut text = ArrayString::new();
    text.push_str("{\"n\":");
    text.push_str(Buffer::new().format(number));
    if number % 10 == 0 {
        text.push_str(",\n");
    } else {
        push_members(&mut text, number);
    }
    text
}

/// Appends what stands behind the number of a line that is JSON.
fn push_members(text: &mut ArrayString<ROOM>, number: u32)
    requires { array_string_len text.old ≤ 15 }
    ensures { text.new.bytes ≡ text.old.bytes ++ members number }
{
    text.push_str(",\"v\":[");
    push_digit(text, number, 7);
    text.push_str(",");
    push_digit(text, number, 3);
    text.push_str("],\"s\":\"k");
    push_digit(text, number, 5);
    text.push_str("\"}\n");
}

/// Appends the last digit of the number to this base.
fn push_digit(text: &mut ArrayString<ROOM>, number: u32, base: u32)
    requires base { 0 < base }
    requires digit { base ≤ 10 }
    requires room { array_string_len text.old + 1 ≤ ROOM }
    ensures bytes { text.new.bytes ≡ text.old.bytes ++ decimal (number % base) }
    ensures len { array_string_len text.new ≤ array_string_len text.old + 1 }
{
    text.push_str(Buffer::new().format(number % base));
}
