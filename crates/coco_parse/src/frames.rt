//! The frames that wait for an operand, and how an operator fits into them.

ghost use Rattle.std.specs.Prelude.{◌≡◌, ◌∷◌, true, false, None, Some, nat_le, IfOk};
ghost use Rattle.coco_ast.specs.Views.{expression_of};
ghost use Rattle.coco_ast.specs.Tree.{Expression};
ghost use Rattle.coco_parse.specs.Machine.{Left, operate, wants, binding};
ghost use Rattle.coco_parse.specs.Steps.{frame_of, frames_of, around, is_opened, Fits, Collapses, Operates};

use coco_ast::{Expr, TwoOp};
use coco_types::NoMemory;
use std::alloc::Global;

// What waits for an operand: a parenthesis, `not`, a minus, or an operator with what stands on
// its left.
#[derive(Drop)]
pub(crate) enum Frame {
    Opened,
    Inverted,
    Negated,
    Left(TwoOp, Box<Expr>),
}

// An operator behind an operand in a frame: it takes the operand, it can't follow, or the frame
// ends before it.
#[derive(Clone, Copy)]
pub(crate) enum Fit {
    Within,
    Apart,
    Around,
}

// The frames behind an operator that follows an operand. False: it can't follow.
pub(crate) fn operate(
    alloc: Global,
    operand: Expr,
    frames: &mut Vec<Frame>,
    op: TwoOp,
) -> Result<bool, NoMemory>
    ensures { IfOk result (λ follows. Operates follows (operate (expression_of operand) (frames_of frames.old.items) op) (frames_of frames.new.items)) }
{
    let mut operand = operand;
    while let Some(frame) = frames.pop() {
        match frame.fit(op) {
            Fit::Within => {
                frames.push(frame)?;
                wait(alloc, operand, frames, op)?;
                return Ok(true);
            }
            Fit::Apart => return Ok(false),
            Fit::Around => operand = frame.around(alloc, operand)?,
        }
    }
    wait(alloc, operand, frames, op)?;
    Ok(true)
}

// An operand waits on the left of its operator. It is boxed at once, so that frames are small.
fn wait(alloc: Global, operand: Expr, frames: &mut Vec<Frame>, op: TwoOp) -> Result<(), NoMemory>
    ensures { IfOk result (λ _. frames_of frames.new.items ≡ Left op (expression_of operand) ∷ frames_of frames.old.items) }
{
    let left = Box::new(alloc, operand)?;
    frames.push(Frame::Left(op, left))?;
    Ok(())
}

// The operand that ends where a parenthesis closes or where the expression ends, and whether a
// parenthesis was open.
#[derive(Drop)]
pub(crate) struct Collapsed {
    pub(crate) operand: Expr,
    pub(crate) opened: bool,
}

pub(crate) fn collapse(
    alloc: Global,
    operand: Expr,
    frames: &mut Vec<Frame>,
) -> Result<Collapsed, NoMemory>
    ensures { IfOk result (λ c. Collapses c.opened (expression_of c.operand) (expression_of operand) (frames_of frames.old.items) (frames_of frames.new.items)) }
{
    let mut operand = operand;
    while let Some(frame) = frames.pop() {
        if frame.is_opened() {
            return Ok(Collapsed {
                operand,
                opened: true,
            });
        }
        operand = frame.around(alloc, operand)?;
    }
    Ok(Collapsed {
        operand,
        opened: false,
    })
}

impl Frame {
    fn is_opened(&self) -> bool
        ensures { result ≡ is_opened (frame_of self.now) }
    {
        matches!(self, Frame::Opened)
    }

    fn fit(&self, op: TwoOp) -> Fit
        ensures { Fits result (frame_of self.now) op }
    {
        match self {
            Frame::Opened => Fit::Within,
            Frame::Negated => Fit::Around,
            Frame::Inverted => {
                if binding(op) >= 2 {
                    Fit::Within
                } else {
                    Fit::Around
                }
            }
            Frame::Left(before, _) => fit_behind(*before, op),
        }
    }

    // The operand, with the frame that ends behind it.
    fn around(self, alloc: Global, operand: Expr) -> Result<Expr, NoMemory>
        ensures { IfOk result (λ e. expression_of e ≡ around (frame_of self) (expression_of operand)) }
    {
        match self {
            Frame::Opened => Ok(operand),
            Frame::Inverted => Expr::not(alloc, operand),
            Frame::Negated => Expr::negate(alloc, operand),
            Frame::Left(op, left) => {
                let right = Box::new(alloc, operand)?;
                Ok(Expr::Two { op, left, right })
            }
        }
    }
}

// How an operator fits behind the right operand of another.
fn fit_behind(before: TwoOp, op: TwoOp) -> Fit
    ensures { (d : Expression) → Fits result (Left before d) op }
{
    if binding(op) > binding(before) {
        Fit::Within
    } else if binding(before) == COMPARISON && binding(op) == COMPARISON {
        Fit::Apart
    } else {
        Fit::Around
    }
}

const COMPARISON: u8 = 3;

// How much an operator binds.
fn binding(op: TwoOp) -> u8
    ensures { result ≡ binding op }
{
    match op {
        TwoOp::Or => 0,
        TwoOp::And => 1,
        TwoOp::Equal
        | TwoOp::NotEqual
        | TwoOp::Less
        | TwoOp::AtMost
        | TwoOp::Greater
        | TwoOp::AtLeast => COMPARISON,
        TwoOp::Add | TwoOp::Subtract => 4,
        TwoOp::Multiply | TwoOp::Divide | TwoOp::Remainder => 5,
    }
}

// Whether `not` may stand in the innermost frame.
pub(crate) fn takes_not(frames: &[Frame]) -> bool
    ensures { result ≡ nat_le (wants (frames_of frames.now)) 2 }
{
    match frames.last() {
        None | Some(Frame::Opened) | Some(Frame::Inverted) => true,
        Some(Frame::Negated) => false,
        Some(Frame::Left(op, _)) => binding(*op) < 2,
    }
}
