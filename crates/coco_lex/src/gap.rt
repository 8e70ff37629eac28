//! Blanks and comments, which separate tokens.

ghost use Rattle.std.specs.Prelude.{◌<◌, ◌≤◌, length};
ghost use Rattle.coco_lex.specs.Gap.{IsGap};
ghost use Rattle.coco_lex.specs.Steps.{IsSeparator, IsComment};

// Where the separators that begin at `from` end.
pub(crate) fn gap_end(text: &[u8], from: usize) -> usize
    requires { from ≤ length text.now }
    ensures { IsGap text.now from result }
{
    let mut at = from;
    while at < text.len() {
        let len = separator_len(&text[at..]);
        if len == 0 {
            break;
        }
        at += len;
    }
    at
}

// How long the blank or the comment at the front is, and 0 where neither stands there.
fn separator_len(rest: &[u8]) -> usize
    requires { 0 < length rest.now }
    ensures { IsSeparator rest.now result }
{
    match rest[0] {
        b' ' | b'\t' | b'\n' | b'\r' => 1,
        b'#' => comment_len(rest),
        _ => 0,
    }
}

// A comment goes up to its line feed, or to the end of the text.
fn comment_len(rest: &[u8]) -> usize
    requires { 0 < length rest.now }
    ensures { IsComment rest.now result }
{
    match rest.iter().position(|b| *b == b'\n') {
        Some(at) => at + 1,
        None => rest.len(),
    }
}
