//! Trees without errors, and what is asked of them.

ghost use Rattle.std.specs.Prelude.{◌≡◌, ℕ, ◌≤◌, IfOk, IfSome, slice_get, length};
ghost use Rattle.std.specs.Option.{option_map};
ghost use Rattle.coco_types.specs.Limits.{most_arguments};
ghost use Rattle.coco_ast.specs.Checks.{IsAccepted};
ghost use Rattle.coco_ast.specs.Fitting.{any_writes, writes_in};
ghost use Rattle.coco_ast.specs.Meaning.{procedure_at};
ghost use Rattle.coco_ast.specs.Numbering.{IsNamed};
ghost use Rattle.coco_ast.specs.Plans.{ArePlansOf, IsPlanFor};
ghost use Rattle.coco_ast.specs.Views.{procedure_of, procedures_of, statement_of, statements_of};

use crate::index::{Numbers, numbers_of};
use crate::{Name, Plan, Plans, Proc, Procs, Stmt};
use coco_types::NoMemory;
use std::alloc::Global;
use std::marker::Model;

/// The tables and procedures of a text without errors, with the built-in ones in front. Contracts
/// see their tree.
#[derive(Debug, Drop)]
pub struct Checked {
    procs: Procs,
    numbers: Numbers,
    plans: Plans,
}

impl Model for Checked {
    ghost use Rattle.coco_ast.specs.Checks.{IsAccepted};
    ghost use Rattle.coco_ast.specs.Numbering.{IsIndexOf};
    ghost use Rattle.coco_ast.specs.Plans.{ArePlansOf};
    ghost use Rattle.coco_ast.specs.Tree.{Procedures};
    ghost use Rattle.coco_ast.specs.TreeCode.{procedures_code};
    ghost use Rattle.coco_ast.specs.Views.{procedures_of};

    ghost Value = { Procedures };

    ghost coded = { procedures_code };

    ghost view = { λ c. procedures_of c.procs };

    ghost invariant = { λ c. IsAccepted (procedures_of c.procs) × IsIndexOf c.procs.procs c.numbers × ArePlansOf (procedures_of c.procs).procs c.plans.items };
}

impl Checked {
    /// An accepted tree with the plans of its procedures.
    pub fn of(alloc: Global, tree: Procs, plans: Plans) -> Result<Checked, NoMemory>
        requires accepted { IsAccepted (procedures_of tree) }
        requires plans { ArePlansOf (procedures_of tree).procs plans.items }
        ensures { IfOk result (λ c. c ≡ procedures_of tree) }
    {
        let numbers = numbers_of(alloc, tree.procs.as_slice())?;
        Ok(Checked {
            procs: tree,
            numbers,
            plans,
        })
    }

    pub fn tree(&self) -> &Procs
        ensures value { procedures_of result.now ≡ self.now }
        ensures accepted { IsAccepted self.now }
    {
        &self.procs
    }

    /// How a procedure is run, if there is one of this number.
    pub fn plan(&self, proc_no: u16) -> Option<&Plan>
        ensures plan { IsPlanFor (procedure_at self.now.procs proc_no) result }
        ensures accepted { IsAccepted self.now }
    {
        self.plans.as_slice().get(proc_no as usize)
    }

    /// The number of the procedure of a name.
    pub fn proc_no(&self, name: &str) -> Option<u16>
        ensures found { IfSome result (λ n. IsNamed self.now n name.now) }
        ensures only { (n : ℕ) → IsNamed self.now n name.now → result ≡ Some n }
    {
        let numbers = &self.numbers;
        match Name::of(name.as_bytes()) {
            None => None,
            Some(name) => numbers.get(&name).copied(),
        }
    }

    /// How many parameters a procedure has.
    pub fn params(&self, proc_no: u16) -> Option<u8>
        ensures value { result ≡ option_map (λ p. length p.params) (procedure_at self.now.procs proc_no) }
        ensures few { IfSome result (λ n. n ≤ most_arguments) }
    {
        match self.proc_at(proc_no) {
            None => None,
            Some(proc) => Some(proc.params.len() as u8),
        }
    }

    /// Whether a procedure contains `put` or `delete`.
    pub fn writes(&self, proc_no: u16) -> Option<bool>
        ensures { result ≡ option_map (λ p. any_writes p.body) (procedure_at self.now.procs proc_no) }
    {
        match self.proc_at(proc_no) {
            None => None,
            Some(proc) => Some(block_writes(&proc.body)),
        }
    }

    pub fn proc_name(&self, proc_no: u16) -> Option<&str>
        ensures { option_map (λ s. s.now) result ≡ option_map (λ p. p.name) (procedure_at self.now.procs proc_no) }
    {
        match self.proc_at(proc_no) {
            None => None,
            Some(proc) => Some(proc.name.as_str()),
        }
    }

    pub fn table_name(&self, table: u16) -> Option<&str>
        ensures { option_map (λ s. s.now) result ≡ slice_get self.now.tables table }
    {
        match self.procs.tables.as_slice().get(table as usize) {
            None => None,
            Some(name) => Some(name.as_str()),
        }
    }

    fn proc_at(&self, proc_no: u16) -> Option<&Proc>
        ensures value { option_map (λ p. procedure_of p.now) result ≡ procedure_at self.now.procs proc_no }
        ensures params { IfSome result (λ p. length p.now.params ≤ most_arguments) }
    {
        self.procs.procs.as_slice().get(proc_no as usize)
    }
}

#[cycle(writes)]
fn stmt_writes(stmt: &Stmt) -> bool
    ensures { result ≡ writes_in (statement_of stmt.now) }
{
    match stmt {
        Stmt::Let { .. } | Stmt::Get { .. } | Stmt::Refuse(_) | Stmt::Reply(_) => false,
        Stmt::Put { .. } | Stmt::Delete { .. } => true,
        Stmt::If { yes, no: None, .. } => block_writes(yes),
        Stmt::If {
            yes,
            no: Some(no),
            ..
        } => block_writes(yes) || block_writes(no),
        Stmt::Repeat { block, .. } => block_writes(block),
    }
}

#[cycle(writes)]
fn block_writes(block: &[Stmt]) -> bool
    ensures { result ≡ any_writes (statements_of block.now) }
{
    for stmt in block {
        if stmt_writes(stmt) {
            return true;
        }
    }
    false
}
