//! How many keys a block may need, how deep blocks stand in it, and whether each way through it ends.

ghost use Rattle.std.specs.Prelude.{◌≡◌, ◌+◌, min, IfOk};
ghost use Rattle.coco_ast.specs.Checks.{counted_weight, statement_weight, ends, ends_at};
ghost use Rattle.coco_ast.specs.Plans.{depth, depth_one};
ghost use Rattle.coco_ast.specs.Views.{statement_of, statements_of};

use coco_ast::Stmt;
use coco_types::NoMemory;

/// A weight above this counts as this.
pub const MOST_WEIGHT: u64 = 1_000_000;

/// How many keys a run of a block may need, at most `MOST_WEIGHT`, and how deep blocks stand in one
/// another.
#[derive(Clone, Copy)]
pub(crate) struct Measure {
    pub(crate) weight: u64,
    pub(crate) depth: usize,
}

#[cycle(measure)]
fn stmt_measure(stmt: &Stmt) -> Result<Measure, NoMemory>
    ensures weight { IfOk result (λ m. m.weight ≡ min (statement_weight (statement_of stmt.now)) MOST_WEIGHT) }
    ensures depth { IfOk result (λ m. m.depth ≡ depth_one (statement_of stmt.now)) }
{
    match stmt {
        Stmt::Let { .. } | Stmt::Refuse(_) | Stmt::Reply(_) => Ok(Measure {
            weight: 0,
            depth: 0,
        }),
        Stmt::Get { .. } | Stmt::Put { .. } | Stmt::Delete { .. } => Ok(Measure {
            weight: 1,
            depth: 0,
        }),
        Stmt::If { yes, no: None, .. } => block_measure(yes),
        Stmt::If {
            yes,
            no: Some(no),
            ..
        } => {
            let one = block_measure(yes)?;
            let other = block_measure(no)?;
            Ok(Measure {
                weight: one.weight.max(other.weight),
                depth: one.depth.max(other.depth),
            })
        }
        Stmt::Repeat { bound, block, .. } => {
            let turn = block_measure(block)?;
            Ok(Measure {
                weight: bound.saturating_mul(turn.weight).min(MOST_WEIGHT),
                depth: turn.depth,
            })
        }
    }
}

// The measure of a block, unless no number of the machine is as great as its depth.
#[cycle(measure)]
pub(crate) fn block_measure(block: &[Stmt]) -> Result<Measure, NoMemory>
    ensures weight { IfOk result (λ m. m.weight ≡ counted_weight (statements_of block.now)) }
    ensures depth { IfOk result (λ m. m.depth ≡ depth (statements_of block.now)) }
{
    let mut weight = 0;
    let mut deep = 0;
    for stmt in block {
        let within = stmt_measure(stmt)?;
        weight = (weight + within.weight).min(MOST_WEIGHT);
        deep = deep.max(next(within.depth)?);
    }
    Ok(Measure {
        weight,
        depth: deep,
    })
}

fn next(count: usize) -> Result<usize, NoMemory>
    ensures { IfOk result (λ n. n ≡ count + 1) }
{
    match count.checked_add(1) {
        Some(next) => Ok(next),
        None => Err(NoMemory),
    }
}

#[cycle(ends)]
fn stmt_ends(stmt: &Stmt) -> bool
    ensures { result ≡ ends_at (statement_of stmt.now) }
{
    match stmt {
        Stmt::Refuse(_) | Stmt::Reply(_) => true,
        Stmt::If {
            yes,
            no: Some(no),
            ..
        } => block_ends(yes) && block_ends(no),
        _ => false,
    }
}

// Whether every way through the block replies or refuses.
#[cycle(ends)]
pub(crate) fn block_ends(block: &[Stmt]) -> bool
    ensures { result ≡ ends (statements_of block.now) }
{
    for stmt in block {
        if stmt_ends(stmt) {
            return true;
        }
    }
    false
}
