//! The values of expressions.
ghost use Rattle.std.specs.Prelude.{◌≡◌, ◌<◌, ℕ, List, [], length, true, not, neg_ℤ, IfSome, Ok, None, Some};
ghost use Rattle.coco_ast.specs.Meaning.{value_of, combined, numbers, number_of, and_then, is_true, truth, within_range};
ghost use Rattle.coco_ast.specs.Tree.{Two, None as Nothing, Add, Subtract, Multiply, Divide, Remainder};
ghost use Rattle.coco_types.specs.declared.value.Value.TheVariants.{Int};
ghost use Rattle.coco_ast.specs.Plans.{expression_at, term_tree, trees_behind};
ghost use Rattle.coco_ast.specs.Views.{sign_of};
ghost use Rattle.coco_eval.specs.Lending.{datum_of, computed_of, whole_of};
ghost use Rattle.coco_eval.specs.Slots.{names_in};

use crate::operand::{Operand, are_same, number};
use crate::variables::Slots;
use coco_ast::{Term, TwoOp};
use coco_types::Cause;

/// What the expression at a place among terms comes to. The value is lent from the terms or from the variables.
/// Most expressions are whole numbers of one operator at most, and these take the quick way.
#[inline(always)]
pub fn value<'a>(
    terms: &'a [Term],
    place: usize,
    variables: &'a Slots,
) -> Result<Operand<'a>, Cause>
    ensures { computed_of result ≡ value_of variables.now (expression_at (names_in variables.now) terms.now place) }
{
    match quick(terms, place, variables) {
        Some(number) => Ok(Operand::Int(number)),
        None => any(terms, place, variables),
    }
}

fn any<'a>(terms: &'a [Term], place: usize, variables: &'a Slots) -> Result<Operand<'a>, Cause>
    ensures { computed_of result ≡ value_of variables.now (expression_at (names_in variables.now) terms.now place) }
{
    match nested(terms, place, variables) {
        Some(number) => Ok(Operand::Int(number)),
        None => computed(terms, place, variables),
    }
}

// The term at a place with those before it, which its operands are among. Beyond the last one there is none.
#[inline(always)]
fn split(terms: &[Term], place: usize) -> Option<(&Term, &[Term])>
    ensures some { IfSome result (λ r. (names : List (List ℕ)) → expression_at names terms.now place ≡ term_tree names (trees_behind names [] r.1.now) r.0.now) }
    ensures fewer { IfSome result (λ r. length r.1.now < length terms.now) }
    ensures none { result ≡ None → (names : List (List ℕ)) → expression_at names terms.now place ≡ Nothing }
{
    if place < terms.len() {
        Some((&terms[place], &terms[..place]))
    } else {
        None
    }
}

// The whole number that an expression comes to. None says nothing: the expression may have operators within
// one another, come to a text or to none, or be refused. It calls nothing, so that it takes no room.
fn quick(terms: &[Term], place: usize, variables: &Slots) -> Option<i64>
    ensures { IfSome result (λ n. value_of variables.now (expression_at (names_in variables.now) terms.now place) ≡ Ok (Some (Int n))) }
{
    let (term, before) = split(terms, place)?;
    let Term::Two { op, left, right } = term else {
        return leaf(terms, place, variables);
    };
    if is_none(before, *right) {
        return beside_none(*op, before, *left, variables);
    }
    let left = leaf(before, *left, variables)?;
    let right = leaf(before, *right, variables)?;
    simple(*op, left, right)
}

// The same of an expression with operators within one another.
#[cycle(nested)]
fn nested(terms: &[Term], place: usize, variables: &Slots) -> Option<i64>
    ensures { IfSome result (λ n. value_of variables.now (expression_at (names_in variables.now) terms.now place) ≡ Ok (Some (Int n))) }
{
    let (term, before) = split(terms, place)?;
    let Term::Two { op, left, right } = term else {
        return None;
    };
    let left = nested_or_quick(before, *left, variables)?;
    let right = nested_or_quick(before, *right, variables)?;
    of_numbers(*op, left, right).ok()
}

#[cycle(nested)]
fn nested_or_quick(terms: &[Term], place: usize, variables: &Slots) -> Option<i64>
    ensures { IfSome result (λ n. value_of variables.now (expression_at (names_in variables.now) terms.now place) ≡ Ok (Some (Int n))) }
{
    match quick(terms, place, variables) {
        Some(number) => Some(number),
        None => nested(terms, place, variables),
    }
}

/// The number that a name or a number is.
#[inline(always)]
pub fn leaf(terms: &[Term], place: usize, variables: &Slots) -> Option<i64>
    ensures { IfSome result (λ n. value_of variables.now (expression_at (names_in variables.now) terms.now place) ≡ Ok (Some (Int n))) }
{
    let (term, _) = split(terms, place)?;
    match term {
        Term::Number(number) => Some(*number),
        Term::Variable(slot) => match variables.at(*slot) {
            Operand::Int(number) => Some(number),
            Operand::None | Operand::Text(_) | Operand::Literal(_) => None,
        },
        _ => None,
    }
}

// Whether the word `none` stands there.
#[inline(always)]
fn is_none(terms: &[Term], place: usize) -> bool
    ensures { result ≡ true → (names : List (List ℕ)) → expression_at names terms.now place ≡ Nothing }
{
    match split(terms, place) {
        Some((term, _)) => matches!(term, Term::None),
        None => true,
    }
}

// A variable is compared with `none`.
#[inline(always)]
fn beside_none(op: TwoOp, terms: &[Term], left: usize, variables: &Slots) -> Option<i64>
    ensures { IfSome result (λ n. value_of variables.now (Two (sign_of op) (expression_at (names_in variables.now) terms.now left) Nothing) ≡ Ok (Some (Int n))) }
{
    let (term, _) = split(terms, left)?;
    let Term::Variable(slot) = term else {
        return None;
    };
    let is_none = are_same(&variables.at(*slot), &Operand::None);
    match op {
        TwoOp::Equal => Some(as_number(is_none)),
        TwoOp::NotEqual => Some(as_number(!is_none)),
        _ => None,
    }
}

// What an operator makes of two whole numbers, if it does not divide and is not refused.
#[inline(always)]
fn simple(op: TwoOp, left: i64, right: i64) -> Option<i64>
    ensures { IfSome result (λ n. numbers (sign_of op) left right ≡ Ok (Some (Int n))) }
{
    match op {
        TwoOp::Add => left.checked_add(right),
        TwoOp::Subtract => left.checked_sub(right),
        TwoOp::Multiply => left.checked_mul(right),
        TwoOp::Divide | TwoOp::Remainder => None,
        TwoOp::Equal => Some(as_number(left == right)),
        TwoOp::NotEqual => Some(as_number(left != right)),
        TwoOp::Less => Some(as_number(left < right)),
        TwoOp::AtMost => Some(as_number(left <= right)),
        TwoOp::Greater => Some(as_number(left > right)),
        TwoOp::AtLeast => Some(as_number(left >= right)),
        TwoOp::And => Some(as_number(left != 0 && right != 0)),
        TwoOp::Or => Some(as_number(left != 0 || right != 0)),
    }
}

// The value of a name, a number or `none`, and None for any other expression.
#[inline(always)]
fn plain<'a>(terms: &'a [Term], place: usize, variables: &'a Slots) -> Option<Operand<'a>>
    ensures { IfSome result (λ v. value_of variables.now (expression_at (names_in variables.now) terms.now place) ≡ Ok (datum_of v)) }
{
    match split(terms, place) {
        None => Some(Operand::None),
        Some((term, _)) => match term {
            Term::Variable(slot) => Some(variables.at(*slot)),
            Term::Number(number) => Some(Operand::Int(*number)),
            Term::None => Some(Operand::None),
            _ => None,
        },
    }
}

#[cycle(computed)]
#[inline(never)]
fn computed<'a>(terms: &'a [Term], place: usize, variables: &'a Slots) -> Result<Operand<'a>, Cause>
    ensures { computed_of result ≡ value_of variables.now (expression_at (names_in variables.now) terms.now place) }
{
    let Some((term, before)) = split(terms, place) else {
        return Ok(Operand::None);
    };
    match term {
        Term::Number(number) => Ok(Operand::Int(*number)),
        Term::Text(literal) => Ok(Operand::Literal(literal)),
        Term::None => Ok(Operand::None),
        Term::Variable(slot) => Ok(variables.at(*slot)),
        Term::Not(operand) => match computed(before, *operand, variables) {
            Ok(operand) => whole(inverted(&operand)),
            Err(cause) => Err(cause),
        },
        Term::Negate(operand) => match computed(before, *operand, variables) {
            Ok(operand) => whole(negated(&operand)),
            Err(cause) => Err(cause),
        },
        Term::Two { op, left, right } => {
            let left = match part(before, *left, variables) {
                Ok(left) => left,
                Err(cause) => return Err(cause),
            };
            let right = match part(before, *right, variables) {
                Ok(right) => right,
                Err(cause) => return Err(cause),
            };
            whole(combination(*op, &left, &right))
        }
    }
}

#[cycle(computed)]
#[inline(always)]
fn part<'a>(terms: &'a [Term], place: usize, variables: &'a Slots) -> Result<Operand<'a>, Cause>
    ensures { computed_of result ≡ value_of variables.now (expression_at (names_in variables.now) terms.now place) }
{
    match plain(terms, place, variables) {
        Some(value) => Ok(value),
        None => computed(terms, place, variables),
    }
}

fn whole<'a>(computed: Result<i64, Cause>) -> Result<Operand<'a>, Cause>
    ensures { computed_of result ≡ whole_of computed }
{
    match computed {
        Ok(number) => Ok(Operand::Int(number)),
        Err(cause) => Err(cause),
    }
}

fn inverted(operand: &Operand<'_>) -> Result<i64, Cause>
    ensures { whole_of result ≡ and_then (number_of (datum_of operand.now)) (λ z. truth (not (is_true z))) }
{
    match number(operand) {
        Ok(number) => Ok(as_number(number == 0)),
        Err(cause) => Err(cause),
    }
}

fn negated(operand: &Operand<'_>) -> Result<i64, Cause>
    ensures { whole_of result ≡ and_then (number_of (datum_of operand.now)) (λ z. within_range (neg_ℤ z)) }
{
    match number(operand) {
        Ok(number) => match number.checked_neg() {
            Some(number) => Ok(number),
            None => Err(Cause::Overflow),
        },
        Err(cause) => Err(cause),
    }
}

// What an operator makes of its two operands.
#[inline(always)]
fn combination(op: TwoOp, left: &Operand<'_>, right: &Operand<'_>) -> Result<i64, Cause>
    ensures { whole_of result ≡ combined (sign_of op) (datum_of left.now) (datum_of right.now) }
{
    match op {
        TwoOp::Equal => Ok(as_number(are_same(left, right))),
        TwoOp::NotEqual => Ok(as_number(!are_same(left, right))),
        _ => match (left, right) {
            (Operand::Int(left), Operand::Int(right)) => of_numbers(op, *left, *right),
            _ => Err(Cause::Kind),
        },
    }
}

#[inline(always)]
fn of_numbers(op: TwoOp, left: i64, right: i64) -> Result<i64, Cause>
    ensures { whole_of result ≡ numbers (sign_of op) left right }
{
    match op {
        TwoOp::Add => sum(left, right),
        TwoOp::Subtract => difference(left, right),
        TwoOp::Multiply => product(left, right),
        TwoOp::Divide => quotient(left, right),
        TwoOp::Remainder => remainder(left, right),
        TwoOp::Equal => Ok(as_number(left == right)),
        TwoOp::NotEqual => Ok(as_number(left != right)),
        TwoOp::Less => Ok(as_number(left < right)),
        TwoOp::AtMost => Ok(as_number(left <= right)),
        TwoOp::Greater => Ok(as_number(left > right)),
        TwoOp::AtLeast => Ok(as_number(left >= right)),
        TwoOp::And => Ok(as_number(left != 0 && right != 0)),
        TwoOp::Or => Ok(as_number(left != 0 || right != 0)),
    }
}

fn sum(left: i64, right: i64) -> Result<i64, Cause>
    ensures { whole_of result ≡ numbers Add left right }
{
    match left.checked_add(right) {
        Some(sum) => Ok(sum),
        None => Err(Cause::Overflow),
    }
}

fn difference(left: i64, right: i64) -> Result<i64, Cause>
    ensures { whole_of result ≡ numbers Subtract left right }
{
    match left.checked_sub(right) {
        Some(difference) => Ok(difference),
        None => Err(Cause::Overflow),
    }
}

fn product(left: i64, right: i64) -> Result<i64, Cause>
    ensures { whole_of result ≡ numbers Multiply left right }
{
    match left.checked_mul(right) {
        Some(product) => Ok(product),
        None => Err(Cause::Overflow),
    }
}

fn quotient(left: i64, right: i64) -> Result<i64, Cause>
    ensures { whole_of result ≡ numbers Divide left right }
{
    if right == 0 {
        return Err(Cause::ZeroDivide);
    }
    match left.checked_div(right) {
        Some(quotient) => Ok(quotient),
        None => Err(Cause::Overflow),
    }
}

fn remainder(left: i64, right: i64) -> Result<i64, Cause>
    ensures { whole_of result ≡ numbers Remainder left right }
{
    if right == 0 {
        return Err(Cause::ZeroDivide);
    }
    match left.checked_rem(right) {
        Some(remainder) => Ok(remainder),
        None => Err(Cause::Overflow),
    }
}

// 1 or 0.
fn as_number(holds: bool) -> i64
    ensures { whole_of (Ok result) ≡ truth holds }
{
    if holds { 1 } else { 0 }
}
