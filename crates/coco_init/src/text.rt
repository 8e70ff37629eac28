//! A text of procedures is accepted, or refused by the first thing that is wrong with it.

ghost use Rattle.std.specs.Prelude.{◌≤◌, ℕ, List, length};
ghost use Rattle.coco_types.specs.Limits.{most_procedure_bytes};
ghost use Rattle.coco_init.specs.Texts.{AcceptsOrEnds, HasOneAnswer};

use coco_ast::Checked;
use coco_check::check;
use coco_ending::Ending;
use coco_lex::lex;
use coco_parse::parse;
use std::alloc::Global;

/// The tree of a text, behind the built-in procedures.
pub fn accepted(alloc: Global, text: &[u8]) -> Result<Checked, Ending>
    requires { length text.now ≤ most_procedure_bytes }
    ensures { AcceptsOrEnds text.now result }
{
    let tokens = lex(alloc, text)?;
    let tree = parse(alloc, text, &tokens)?;
    Ok(check(alloc, tree)?)
}

/// A text is answered in one way: it is accepted with one tree, or one thing is the first that is wrong with it.
pub fn one_answer()
    ensures { (text : List ℕ) → HasOneAnswer text }
{
    coco_lex::one_reading();
    coco_parse::one_reading();
}
