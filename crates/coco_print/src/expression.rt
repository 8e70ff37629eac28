//! The text of expressions and places.

ghost use Rattle.std.specs.Prelude.{◌≡◌, ◌++◌, OnOk};
ghost use Rattle.std.specs.String.{string_bytes};
ghost use Rattle.coco_ast.specs.Views.{expression_of, place_of, sign_of};
ghost use Rattle.coco_print.specs.Printed as text;
ghost use Rattle.coco_print.specs.Printed.{operator_text, operand_text, expression_text, place_text};

use crate::pieces::{push, push_number, push_quoted};
use coco_ast::{Expr, Place, TwoOp};
use coco_types::NoMemory;

#[cycle(operands)]
pub(crate) fn push_expr(out: &mut String, e: &Expr) -> Result<(), NoMemory>
    ensures { OnOk result (string_bytes out.new ≡ string_bytes out.old ++ expression_text (expression_of e.now)) }
{
    match e {
        Expr::Number(n) => push_number(out, *n),
        Expr::Text(text) => push_quoted(out, text.as_str()),
        Expr::None => push(out, "none"),
        Expr::Var(name) => push(out, name.as_str()),
        Expr::Not(operand) => {
            push(out, "not ")?;
            push_operand(out, operand)
        }
        Expr::Negate(operand) => {
            push(out, "-")?;
            push_operand(out, operand)
        }
        Expr::Two { op, left, right } => {
            push_operand(out, left)?;
            push(out, operator(*op))?;
            push_operand(out, right)
        }
    }
}

#[cycle(operands)]
fn push_operand(out: &mut String, e: &Expr) -> Result<(), NoMemory>
    ensures { OnOk result (string_bytes out.new ≡ string_bytes out.old ++ operand_text (expression_of e.now) (expression_text (expression_of e.now))) }
{
    if is_operator(e) {
        push(out, "(")?;
        push_expr(out, e)?;
        push(out, ")")
    } else {
        push_expr(out, e)
    }
}

fn is_operator(e: &Expr) -> bool
    ensures { result ≡ text.is_operator (expression_of e.now) }
{
    matches!(e, Expr::Not(_) | Expr::Negate(_) | Expr::Two { .. })
}

fn operator(op: TwoOp) -> &'static str
    ensures { result.now ≡ operator_text (sign_of op) }
{
    match op {
        TwoOp::Add => " + ",
        TwoOp::Subtract => " - ",
        TwoOp::Multiply => " * ",
        TwoOp::Divide => " / ",
        TwoOp::Remainder => " % ",
        TwoOp::Equal => " == ",
        TwoOp::NotEqual => " != ",
        TwoOp::Less => " < ",
        TwoOp::AtMost => " <= ",
        TwoOp::Greater => " > ",
        TwoOp::AtLeast => " >= ",
        TwoOp::And => " and ",
        TwoOp::Or => " or ",
    }
}

pub(crate) fn push_place(out: &mut String, place: &Place) -> Result<(), NoMemory>
    ensures { OnOk result (string_bytes out.new ≡ string_bytes out.old ++ place_text (place_of place.now)) }
{
    push(out, place.table.as_str())?;
    push(out, "[")?;
    push_expr(out, &place.row)?;
    push(out, "]")
}
