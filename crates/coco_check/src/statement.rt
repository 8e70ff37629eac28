//! What is wrong with a statement itself.

ghost use Rattle.std.specs.Prelude.{◌≡◌, ◌≤◌, not, ◌&&◌};
ghost use Rattle.coco_ast.specs.Checks.{own_tables, own_variables, set_by, variables_of};
ghost use Rattle.coco_ast.specs.Views.{expression_of, place_of, statement_of};
ghost use Rattle.coco_check.specs.Search.{has, has_all, is_bad_bound, kind_at, knows_names, repeats_badly};

use crate::CheckKind;
use crate::names::NameSet;
use coco_ast::{Expr, Place, Stmt};
use coco_types::limits::{MOST_BOUND, MOST_TURNS};

// What is wrong with a statement itself, where these tables are declared, these variables known and
// the repeats around it have so many turns in all.
pub(crate) fn kind_of(
    tables: &NameSet,
    known: &NameSet,
    around: u64,
    stmt: &Stmt,
) -> Option<CheckKind>
    requires { around ≤ MOST_TURNS }
    ensures { result ≡ kind_at tables.now.keys known.now.keys
        (record { statement = statement_of stmt.now; around = around }) }
{
    if !names_known(tables, known, stmt) {
        return Some(CheckKind::UnknownName);
    }
    match stmt {
        Stmt::Repeat { bound, .. } if !is_good_bound(around, *bound) => {
            Some(CheckKind::RepeatBound)
        }
        _ => None,
    }
}

fn is_good_bound(around: u64, bound: u64) -> bool
    requires { around ≤ MOST_TURNS }
    ensures { result ≡ not (is_bad_bound around bound) }
{
    1 <= bound && bound <= MOST_BOUND && around * bound <= MOST_TURNS
}

fn names_known(tables: &NameSet, known: &NameSet, stmt: &Stmt) -> bool
    ensures { result ≡ knows_names tables.now.keys known.now.keys (statement_of stmt.now) }
{
    match stmt {
        Stmt::Let { value, .. } => variables_known(known, value),
        Stmt::Get { place, .. } => place_known(tables, known, place),
        Stmt::Put { place, value } => {
            place_known(tables, known, place) && variables_known(known, value)
        }
        Stmt::Delete { place } => place_known(tables, known, place),
        Stmt::If { test, .. } => variables_known(known, test),
        Stmt::Repeat { .. } | Stmt::Refuse(_) => true,
        Stmt::Reply(value) => variables_known(known, value),
    }
}

fn place_known(tables: &NameSet, known: &NameSet, place: &Place) -> bool
    ensures { result ≡ has tables.now.keys place.now.table
        && has_all known.now.keys (variables_of (expression_of place.now.row)) }
{
    tables.contains(&place.table) && variables_known(known, &place.row)
}

fn variables_known(known: &NameSet, expr: &Expr) -> bool
    ensures { result ≡ has_all known.now.keys (variables_of (expression_of expr.now)) }
{
    match expr {
        Expr::Number(_) | Expr::Text(_) | Expr::None => true,
        Expr::Var(name) => known.contains(name),
        Expr::Not(operand) => variables_known(known, operand),
        Expr::Negate(operand) => variables_known(known, operand),
        Expr::Two { left, right, .. } => {
            variables_known(known, left) && variables_known(known, right)
        }
    }
}
