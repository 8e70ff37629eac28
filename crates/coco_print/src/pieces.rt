//! Words, numbers and texts in quotes.

ghost use Rattle.std.specs.Prelude.{◌≡◌, ◌==◌, ◌||◌, ◌++◌, OnOk, decimal};
ghost use Rattle.std.specs.Char.{encode_utf8};
ghost use Rattle.std.specs.Fmt.{signed_decimal};
ghost use Rattle.std.specs.String.{string_bytes};
ghost use Rattle.coco_lex.specs.Bytes.{quote, backslash};
ghost use Rattle.coco_lex.specs.Lexeme.{spelled};
ghost use Rattle.coco_print.specs.Printed.{quoted};

use coco_types::NoMemory;
use itoa::Buffer;

pub(crate) fn push(out: &mut String, text: &str) -> Result<(), NoMemory>
    ensures { OnOk result (string_bytes out.new ≡ string_bytes out.old ++ text.now) }
{
    out.push_str(text)?;
    Ok(())
}

pub(crate) fn push_number(out: &mut String, n: i64) -> Result<(), NoMemory>
    ensures { OnOk result (string_bytes out.new ≡ string_bytes out.old ++ signed_decimal n) }
{
    let mut buffer = Buffer::new();
    push(out, buffer.format(n))
}

pub(crate) fn push_count(out: &mut String, n: u64) -> Result<(), NoMemory>
    ensures { OnOk result (string_bytes out.new ≡ string_bytes out.old ++ decimal n) }
{
    let mut buffer = Buffer::new();
    push(out, buffer.format(n))
}

// In quotes, with a backslash before each quote and backslash.
pub(crate) fn push_quoted(out: &mut String, content: &str) -> Result<(), NoMemory>
    ensures { OnOk result (string_bytes out.new ≡ string_bytes out.old ++ quoted content.now) }
{
    push(out, "\"")?;
    push_spelled(out, content)?;
    push(out, "\"")
}

fn push_spelled(out: &mut String, content: &str) -> Result<(), NoMemory>
    ensures { OnOk result (string_bytes out.new ≡ string_bytes out.old ++ spelled content.now) }
{
    for c in content.chars() {
        push_char(out, c)?;
    }
    Ok(())
}

fn push_char(out: &mut String, c: char) -> Result<(), NoMemory>
    ensures { OnOk result (string_bytes out.new ≡ string_bytes out.old ++ spelled (encode_utf8 c)) }
{
    push(out, mark_before(c))?;
    out.push(c)?;
    Ok(())
}

// A backslash before a quote and a backslash.
#[tactic(auto, using(crate::proofs::Escapes::spelled_special, crate::proofs::Escapes::spelled_plain))]
fn mark_before(c: char) -> &'static str
    ensures { spelled (encode_utf8 c) ≡ result.now ++ encode_utf8 c }
{
    if is_escaped(c) { "\\" } else { "" }
}

fn is_escaped(c: char) -> bool
    ensures { result ≡ (c == quote || c == backslash) }
{
    c == '"' || c == '\\'
}
