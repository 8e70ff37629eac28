//! Procedure texts: their printed form, or why they are refused.

use coco_ast::Checked;
use coco_check::check;
use coco_lex::lex;
use coco_parse::parse;
use coco_print::print;
use coco_types::NoMemory;
use coco_types::limits::MOST_PROCEDURE_BYTES;
use std::alloc::Global;
use std::fmt::Display;
use std::io::{self, ErrorKind};

/// Says the printed form of a text, or its first refusal.
pub fn say_text(rt: &impl Print, alloc: Global, text: &[u8]) -> io::Result<()> {
    if text.len() > MOST_PROCEDURE_BYTES {
        return println!(rt; "long at byte {MOST_PROCEDURE_BYTES}");
    }
    let tokens = match lex(alloc, text) {
        Ok(tokens) => tokens,
        Err(fault) => return say_refusal(rt, &fault),
    };
    let procs = match parse(alloc, text, tokens.as_slice()) {
        Ok(procs) => procs,
        Err(fault) => return say_refusal(rt, &fault),
    };
    let printed = print(alloc, &procs).map_err(out_of_memory)?;
    match check(alloc, procs) {
        Ok(_) => print!(rt; "{printed}"),
        Err(fault) => say_refusal(rt, &fault),
    }
}

fn say_refusal(rt: &impl Print, fault: &impl Display) -> io::Result<()> {
    println!(rt; "{fault}")
}

/// The accepted tree of a text. None where it is refused, or memory runs out.
pub fn accepted(alloc: Global, text: &str) -> Option<Checked> {
    if text.len() > MOST_PROCEDURE_BYTES {
        return None;
    }
    let Ok(tokens) = lex(alloc, text.as_bytes()) else {
        return None;
    };
    match parse(alloc, text.as_bytes(), tokens.as_slice()) {
        Ok(procs) => check(alloc, procs).ok(),
        Err(_) => None,
    }
}

/// Want of memory as the program's error.
pub fn out_of_memory(_error: NoMemory) -> io::Error {
    io::Error::from(ErrorKind::OutOfMemory)
}
