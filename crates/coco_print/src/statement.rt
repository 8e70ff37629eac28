//! The text of statements and blocks.

ghost use Rattle.std.specs.Prelude.{◌≡◌, [], ◌++◌, codes, decimal, IfOk, OnOk};
ghost use Rattle.std.specs.String.{string_bytes};
ghost use Rattle.coco_ast.specs.Tree.{Let, Get, Put, Delete, Refuse, Reply};
ghost use Rattle.coco_ast.specs.Views.{expression_of, place_of, statement_of, statements_of};
ghost use Rattle.coco_print.specs.Printed.{expression_text, statement_text, lines_text, block_text, deeper};

use crate::expression::{push_expr, push_place};
use crate::pieces::{push, push_count};
use coco_ast::{Block, Expr, Name, Place, Stmt};
use coco_types::NoMemory;
use std::alloc::Global;

// A block that begins on a line with this margin.
#[cycle(blocks)]
pub(crate) fn push_block(
    alloc: Global,
    out: &mut String,
    margin: &str,
    block: &Block,
) -> Result<(), NoMemory>
    ensures { OnOk result (string_bytes out.new ≡ string_bytes out.old ++ block_text margin.now (statements_of block.now.items)) }
{
    let inner = inner_margin(alloc, margin)?;
    push(out, "{\n")?;
    push_lines(alloc, out, inner.as_str(), block)?;
    push(out, margin)?;
    push(out, "}")
}

#[cycle(blocks)]
fn push_lines(alloc: Global, out: &mut String, margin: &str, block: &[Stmt]) -> Result<(), NoMemory>
    ensures { OnOk result (string_bytes out.new ≡ string_bytes out.old ++ lines_text margin.now (statements_of block.now)) }
{
    for stmt in block {
        push(out, margin)?;
        push_stmt(alloc, out, margin, stmt)?;
        push(out, "\n")?;
    }
    Ok(())
}

#[cycle(blocks)]
fn push_stmt(alloc: Global, out: &mut String, margin: &str, stmt: &Stmt) -> Result<(), NoMemory>
    ensures { OnOk result (string_bytes out.new ≡ string_bytes out.old ++ statement_text margin.now (statement_of stmt.now)) }
{
    match stmt {
        Stmt::Let { name, value } => push_let(out, name, value),
        Stmt::Get { name, place } => push_get(out, name, place),
        Stmt::Put { place, value } => push_put(out, place, value),
        Stmt::Delete { place } => push_delete(out, place),
        Stmt::If { test, yes, no } => {
            push_test(out, test)?;
            push_block(alloc, out, margin, yes)?;
            match no {
                None => Ok(()),
                Some(no) => {
                    push(out, " else ")?;
                    push_block(alloc, out, margin, no)
                }
            }
        }
        Stmt::Repeat { bound, name, block } => {
            push_turns(out, *bound, name)?;
            push_block(alloc, out, margin, block)
        }
        Stmt::Refuse(n) => push_refuse(out, *n),
        Stmt::Reply(value) => push_reply(out, value),
    }
}

fn push_let(out: &mut String, name: &Name, value: &Expr) -> Result<(), NoMemory>
    ensures { OnOk result (string_bytes out.new ≡ string_bytes out.old ++ statement_text [] (Let name.now (expression_of value.now))) }
{
    push(out, "let ")?;
    push(out, name.as_str())?;
    push(out, " = ")?;
    push_expr(out, value)?;
    push(out, ";")
}

fn push_get(out: &mut String, name: &Name, place: &Place) -> Result<(), NoMemory>
    ensures { OnOk result (string_bytes out.new ≡ string_bytes out.old ++ statement_text [] (Get name.now (place_of place.now))) }
{
    push(out, "let ")?;
    push(out, name.as_str())?;
    push(out, " = get ")?;
    push_place(out, place)?;
    push(out, ";")
}

fn push_put(out: &mut String, place: &Place, value: &Expr) -> Result<(), NoMemory>
    ensures { OnOk result (string_bytes out.new ≡ string_bytes out.old ++ statement_text [] (Put (place_of place.now) (expression_of value.now))) }
{
    push(out, "put ")?;
    push_place(out, place)?;
    push(out, " = ")?;
    push_expr(out, value)?;
    push(out, ";")
}

fn push_delete(out: &mut String, place: &Place) -> Result<(), NoMemory>
    ensures { OnOk result (string_bytes out.new ≡ string_bytes out.old ++ statement_text [] (Delete (place_of place.now))) }
{
    push(out, "delete ")?;
    push_place(out, place)?;
    push(out, ";")
}

fn push_refuse(out: &mut String, n: u16) -> Result<(), NoMemory>
    ensures { OnOk result (string_bytes out.new ≡ string_bytes out.old ++ statement_text [] (Refuse n)) }
{
    push(out, "refuse ")?;
    push_count(out, n as u64)?;
    push(out, ";")
}

fn push_reply(out: &mut String, value: &Expr) -> Result<(), NoMemory>
    ensures { OnOk result (string_bytes out.new ≡ string_bytes out.old ++ statement_text [] (Reply (expression_of value.now))) }
{
    push(out, "reply ")?;
    push_expr(out, value)?;
    push(out, ";")
}

// An `if` up to its first block.
fn push_test(out: &mut String, test: &Expr) -> Result<(), NoMemory>
    ensures { OnOk result (string_bytes out.new ≡ string_bytes out.old ++ (codes "if " ++ expression_text (expression_of test.now) ++ codes " ")) }
{
    push(out, "if ")?;
    push_expr(out, test)?;
    push(out, " ")
}

// A `repeat` up to its block.
fn push_turns(out: &mut String, bound: u64, name: &Name) -> Result<(), NoMemory>
    ensures { OnOk result (string_bytes out.new ≡ string_bytes out.old ++ (codes "repeat " ++ decimal bound ++ codes " as " ++ name.now ++ codes " ")) }
{
    push(out, "repeat ")?;
    push_count(out, bound)?;
    push(out, " as ")?;
    push(out, name.as_str())?;
    push(out, " ")
}

// The margin of a block's lines, within a line with this margin.
fn inner_margin(alloc: Global, margin: &str) -> Result<String, NoMemory>
    ensures { IfOk result (λ s. string_bytes s ≡ deeper margin.now) }
{
    let mut inner = String::from_str(alloc, margin)?;
    inner.push_str("  ")?;
    Ok(inner)
}
