//! The built-in table and procedures.

ghost use Rattle.std.specs.Prelude.{◌≡◌, true, codes, pos, IfOk};
ghost use Rattle.coco_ast.specs.Builtins as trees;
ghost use Rattle.coco_ast.specs.Builtins.{main_row};
ghost use Rattle.coco_ast.specs.Tree.{Number, None as Nothing, Variable, Two, Equal, Let, Get, Put, If, Reply, End, Then};
ghost use Rattle.coco_ast.specs.Views.{expression_of, place_of, statement_of, statements_of, procedure_of, procedures_of};
ghost use Rattle.coco_ast.specs.Words.{is_word};

use crate::{Block, Expr, Name, Names, Place, Proc, ProcList, Procs, Stmt, TwoOp};
use coco_types::NoMemory;
use std::alloc::Global;

/// The table `main` and the procedures `get`, `put` and `add`, which stand before those of a text.
pub fn builtins(alloc: Global) -> Result<Procs, NoMemory>
    ensures { IfOk result (λ procs. procedures_of procs ≡ trees.builtins) }
{
    let mut tables = Names::new(alloc);
    tables.push(word("main"))?;
    let get = get_proc(alloc)?;
    let put = put_proc(alloc)?;
    let add = add_proc(alloc)?;
    let mut procs = ProcList::new(alloc);
    procs.push(get)?;
    procs.push(put)?;
    procs.push(add)?;
    Ok(Procs { tables, procs })
}

// let v = get main[r]; reply v;
fn get_proc(alloc: Global) -> Result<Proc, NoMemory>
    ensures { IfOk result (λ p. procedure_of p ≡ trees.get_proc) }
{
    let mut params = Names::new(alloc);
    params.push(word("r"))?;
    let mut body = Block::new(alloc);
    body.push(read_v())?;
    body.push(reply_v())?;
    Ok(Proc {
        name: word("get"),
        params,
        body,
    })
}

// put main[r] = v; reply v;
fn put_proc(alloc: Global) -> Result<Proc, NoMemory>
    ensures { IfOk result (λ p. procedure_of p ≡ trees.put_proc) }
{
    let mut params = Names::new(alloc);
    params.push(word("r"))?;
    params.push(word("v"))?;
    let mut body = Block::new(alloc);
    body.push(write_v())?;
    body.push(reply_v())?;
    Ok(Proc {
        name: word("put"),
        params,
        body,
    })
}

// let v = get main[r]; if v == none { let v = 0; } let v = v + n; put main[r] = v; reply v;
fn add_proc(alloc: Global) -> Result<Proc, NoMemory>
    ensures { IfOk result (λ p. procedure_of p ≡ trees.add_proc) }
{
    let mut params = Names::new(alloc);
    params.push(word("r"))?;
    params.push(word("n"))?;
    let body = add_body(alloc)?;
    Ok(Proc {
        name: word("add"),
        params,
        body,
    })
}

fn add_body(alloc: Global) -> Result<Block, NoMemory>
    ensures { IfOk result (λ b. statements_of b.items ≡ trees.add_proc.body) }
{
    let begin = begin_at_zero(alloc)?;
    let sum = Expr::two(alloc, TwoOp::Add, variable("v"), variable("n"))?;
    let mut body = Block::new(alloc);
    body.push(read_v())?;
    body.push(begin)?;
    body.push(set_v(sum))?;
    body.push(write_v())?;
    body.push(reply_v())?;
    Ok(body)
}

// if v == none { let v = 0; }
fn begin_at_zero(alloc: Global) -> Result<Stmt, NoMemory>
    ensures { IfOk result (λ s. statement_of s ≡ If
        (Two Equal (Variable (codes "v")) Nothing)
        (Then (Let (codes "v") (Number (pos 0))) End)) }
{
    let test = Expr::two(alloc, TwoOp::Equal, variable("v"), Expr::None)?;
    let yes = block_of(alloc, set_v(Expr::Number(0)))?;
    Ok(when(test, yes))
}

fn block_of(alloc: Global, stmt: Stmt) -> Result<Block, NoMemory>
    ensures { IfOk result (λ b. statements_of b.items ≡ Then (statement_of stmt) End) }
{
    let mut block = Block::new(alloc);
    block.push(stmt)?;
    Ok(block)
}

fn when(test: Expr, yes: Block) -> Stmt
    ensures { statement_of result ≡ If (expression_of test) (statements_of yes.items) }
{
    Stmt::If {
        test,
        yes,
        no: None,
    }
}

fn set_v(value: Expr) -> Stmt
    ensures { statement_of result ≡ Let (codes "v") (expression_of value) }
{
    Stmt::Let {
        name: word("v"),
        value,
    }
}

fn read_v() -> Stmt
    ensures { statement_of result ≡ Get (codes "v") main_row }
{
    Stmt::Get {
        name: word("v"),
        place: main_r(),
    }
}

fn write_v() -> Stmt
    ensures { statement_of result ≡ Put main_row (Variable (codes "v")) }
{
    Stmt::Put {
        place: main_r(),
        value: variable("v"),
    }
}

fn reply_v() -> Stmt
    ensures { statement_of result ≡ Reply (Variable (codes "v")) }
{
    Stmt::Reply(variable("v"))
}

fn main_r() -> Place
    ensures { place_of result ≡ main_row }
{
    Place {
        table: word("main"),
        row: variable("r"),
    }
}

fn variable(text: &str) -> Expr
    requires { is_word text.now ≡ true }
    ensures { expression_of result ≡ Variable text.now }
{
    Expr::Var(word(text))
}

fn word(text: &str) -> Name
    requires { is_word text.now ≡ true }
    ensures { result ≡ text.now }
{
    match Name::of(text.as_bytes()) {
        Some(name) => name,
        None => unreachable!(),
    }
}
