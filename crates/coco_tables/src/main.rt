//! Says of each page of the standard input what it comes to: of a procedure text, of calls, of attempts that take turns.
#![tactic(auto)]

mod attempts;
mod calls;
mod lines;
mod played;
mod say;
mod serial;
mod texts;

use crate::played::say_lines;
use crate::serial::say_calls;
use crate::texts::say_text;
use std::io::{self, Read};
use std::str::from_utf8;

// A form feed stands between pages, and a line feed behind it belongs to none.
const FORM_FEED: u8 = 12;

fn main(rt: HostRuntime) -> io::Result<()> {
    let mut input = Vec::new(rt.alloc());
    rt.stdin().read_to_end(&mut input)?;
    for page in input.split(|b| *b == FORM_FEED) {
        say_page(rt, without_line_feed(page))?;
    }
    Ok(())
}

fn without_line_feed(page: &[u8]) -> &[u8] {
    match page {
        [b'\n', rest @ ..] => rest,
        _ => page,
    }
}

// Calls stand behind a line of two equal signs, lines of attempts behind one of two bars; else it is a text alone.
fn say_page(rt: HostRuntime, page: &[u8]) -> io::Result<()> {
    let Ok(text) = from_utf8(page) else {
        return say_text(&rt, rt.alloc(), page);
    };
    if let Some((procs, calls)) = text.split_once("\n==\n") {
        return say_calls(&rt, rt.alloc(), procs, calls);
    }
    if let Some((procs, lines)) = text.split_once("\n||\n") {
        return say_lines(&rt, rt.alloc(), procs, lines);
    }
    say_text(&rt, rt.alloc(), page)
}
