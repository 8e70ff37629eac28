//! The statements of a procedure, one after the other: the variables known behind each, and its step.

ghost use Rattle.std.specs.Prelude.{◌≡◌, ◌+◌, ◌<◌, ◌≤◌, ◌^◌, length, IfOk, OnOk};
ghost use Rattle.std.specs.Option.{option_to_list};
ghost use Rattle.coco_ast.specs.Checks.{and_within, in_order, set_by};
ghost use Rattle.coco_ast.specs.Planning.{AreStepsOf, IsStepOf, names_in, names_throughout};
ghost use Rattle.coco_ast.specs.Views.{statement_of, statements_of};
ghost use Rattle.coco_ast.specs.declared.tree.Stmt.TheVariants.{If};
ghost use Rattle.coco_check.specs.Drafting.{Extends, IsPlain};
ghost use Rattle.coco_check.specs.Search.{step, walk};
ghost use Rattle.coco_check.specs.Walking.{walk_of, within, Follows};

use crate::draft::Draft;
use crate::fault::BodyFault;
use crate::names::NameSet;
use crate::statement::kind_of;
use coco_ast::planning::{delete_step, get_step, let_step, put_step, reply_step, term_of};
use coco_ast::{Block, Expr, Name, PlanStep, Steps, Stmt};
use coco_types::NoMemory;
use coco_types::limits::MOST_TURNS;

// How far the statements of a procedure are checked: the number of the last one, and the variables
// known behind it.
#[derive(Drop)]
pub(crate) struct Body {
    pub(crate) last: u32,
    pub(crate) known: NameSet,
}

// A statement takes its step as soon as it is checked, while its expressions are at hand. Names take slots in the
// order of the text: those in a statement's own expressions, then the one that it sets, then those in its blocks.
impl Body {
    #[cycle(body)]
    pub(crate) fn check_block(
        &mut self,
        draft: &mut Draft,
        tables: &NameSet,
        around: u64,
        block: &[Stmt],
    ) -> Result<Steps, BodyFault>
        requires turns { around ≤ MOST_TURNS }
        requires numbers { self.old.last + length (in_order around (statements_of block.now)) < 2 ^ 32 }
        ensures walk { Follows result self.new
            (walk tables.now.keys (walk_of self.old) (in_order around (statements_of block.now))) }
        ensures last { OnOk result
            (self.new.last ≡ self.old.last + length (in_order around (statements_of block.now))) }
        ensures adds { OnOk result (Extends draft.old draft.new (names_throughout (statements_of block.now))) }
        ensures steps { IfOk result (λ steps. AreStepsOf draft.new.slots draft.new.terms.items (statements_of block.now) steps.items) }
    {
        let mut steps = Steps::with_capacity(draft.alloc, block.len())?;
        for stmt in block {
            let step = self.check_stmt(draft, tables, around, stmt)?;
            steps.push_reserved(step);
        }
        Ok(steps)
    }

    #[cycle(body)]
    fn check_stmt(
        &mut self,
        draft: &mut Draft,
        tables: &NameSet,
        around: u64,
        stmt: &Stmt,
    ) -> Result<PlanStep, BodyFault>
        requires turns { around ≤ MOST_TURNS }
        requires numbers { self.old.last + length (and_within around (statement_of stmt.now)) < 2 ^ 32 }
        ensures walk { Follows result self.new
            (walk tables.now.keys (walk_of self.old) (and_within around (statement_of stmt.now))) }
        ensures last { OnOk result
            (self.new.last ≡ self.old.last + length (and_within around (statement_of stmt.now))) }
        ensures adds { OnOk result (Extends draft.old draft.new (names_in (statement_of stmt.now))) }
        ensures step { IfOk result (λ step. IsStepOf draft.new.slots draft.new.terms.items (statement_of stmt.now) step) }
    {
        self.enter(tables, around, stmt)?;
        match stmt {
            Stmt::If { test, yes, no } => self.check_if(draft, tables, around, test, yes, no),
            Stmt::Repeat { bound, name, block } => {
                let slot = draft.slots.slot(name)?;
                let block = self.check_block(draft, tables, around * bound, block)?;
                let bound = *bound;
                Ok(PlanStep::Repeat { bound, slot, block })
            }
            _ => Ok(plain_step(draft, stmt)?),
        }
    }

    // The blocks of an `if` that was entered.
    #[cycle(body)]
    fn check_if(
        &mut self,
        draft: &mut Draft,
        tables: &NameSet,
        around: u64,
        test: &Expr,
        yes: &Block,
        no: &Option<Block>,
    ) -> Result<PlanStep, BodyFault>
        requires turns { around ≤ MOST_TURNS }
        requires numbers { self.old.last + length (within around (statement_of (If test.now yes.now no.now))) < 2 ^ 32 }
        ensures walk { Follows result self.new
            (walk tables.now.keys (walk_of self.old) (within around (statement_of (If test.now yes.now no.now)))) }
        ensures last { OnOk result
            (self.new.last ≡ self.old.last + length (within around (statement_of (If test.now yes.now no.now)))) }
        ensures adds { OnOk result (Extends draft.old draft.new (names_in (statement_of (If test.now yes.now no.now)))) }
        ensures step { IfOk result (λ step. IsStepOf draft.new.slots draft.new.terms.items (statement_of (If test.now yes.now no.now)) step) }
    {
        let test = term_of(&mut draft.slots, &mut draft.terms, draft.alloc, test)?;
        let yes = self.check_block(draft, tables, around, yes)?;
        match no {
            None => Ok(PlanStep::If {
                test,
                yes,
                no: None,
            }),
            Some(no) => {
                let no = Some(self.check_block(draft, tables, around, no)?);
                Ok(PlanStep::If { test, yes, no })
            }
        }
    }

    // Checks a statement itself, and notes what it sets.
    fn enter(&mut self, tables: &NameSet, around: u64, stmt: &Stmt) -> Result<(), BodyFault>
        requires turns { around ≤ MOST_TURNS }
        requires numbers { self.old.last + 1 < 2 ^ 32 }
        ensures walk { Follows result self.new (step tables.now.keys (walk_of self.old)
            (record { statement = statement_of stmt.now; around = around })) }
        ensures last { OnOk result (self.new.last ≡ self.old.last + 1) }
    {
        let statement = self.last + 1;
        if let Some(kind) = kind_of(tables, &self.known, around, stmt) {
            return Err(BodyFault::Refused { statement, kind });
        }
        if let Some(name) = name_set(stmt) {
            self.known.insert(name)?;
        }
        self.last = statement;
        Ok(())
    }
}

// The step of a statement without blocks.
fn plain_step(draft: &mut Draft, stmt: &Stmt) -> Result<PlanStep, NoMemory>
    requires { IsPlain (statement_of stmt.now) }
    ensures adds { OnOk result (Extends draft.old draft.new (names_in (statement_of stmt.now))) }
    ensures step { IfOk result (λ step. IsStepOf draft.new.slots draft.new.terms.items (statement_of stmt.now) step) }
{
    let alloc = draft.alloc;
    let slots = &mut draft.slots;
    let terms = &mut draft.terms;
    match stmt {
        Stmt::Let { name, value } => let_step(slots, terms, alloc, name, value),
        Stmt::Get { name, place } => get_step(slots, terms, alloc, name, place),
        Stmt::Put { place, value } => put_step(slots, terms, alloc, place, value),
        Stmt::Delete { place } => delete_step(slots, terms, alloc, place),
        Stmt::Refuse(code) => Ok(PlanStep::Refuse(*code)),
        Stmt::Reply(value) => reply_step(slots, terms, alloc, value),
        Stmt::If { .. } | Stmt::Repeat { .. } => unreachable!(),
    }
}

// The variable that a statement sets.
fn name_set(stmt: &Stmt) -> Option<Name>
    ensures { option_to_list result ≡ set_by (statement_of stmt.now) }
{
    match stmt {
        Stmt::Let { name, .. } | Stmt::Get { name, .. } | Stmt::Repeat { name, .. } => Some(*name),
        _ => None,
    }
}
