//! A whole tree: its tables, its procedures, and the tree behind the built-in ones.

ghost use Rattle.std.specs.Prelude.{◌≡◌, ◌+◌, ◌<◌, ◌≤◌, ◌^◌, ◌⊎◌, ◌++◌, [], map, length, IfOk, IfErr, IsErrAnd, MatchResult};
ghost use Rattle.std.specs.List.{All};
ghost use Rattle.coco_types.specs.Limits.{most_declared};
ghost use Rattle.coco_ast.specs.Builtins.{builtins as built_in};
ghost use Rattle.coco_ast.specs.Checks.{HasNoError, IsFirstError, IsWithinLimits, behind_builtins, statements_in};
ghost use Rattle.coco_ast.specs.Plans.{ArePlansOf};
ghost use Rattle.coco_ast.specs.Views.{procedure_of, procedures_of};
ghost use Rattle.coco_ast.specs.declared.error.CheckError.{CheckError};
ghost use Rattle.coco_check.specs.Accepting.{HasFewStatements, OnRefused};
ghost use Rattle.coco_check.specs.Search.{FindsError, IsErrorFound, adding, built_in_names, built_in_tables, first_error, first_of_procedures, with_names};
ghost use Rattle.coco_check.specs.Walking.{TablesAre};

use crate::fault::CheckFault;
use crate::names::{NameSet, add_all};
use crate::procedure::check_proc;
use crate::{CheckError, CheckKind};
use coco_ast::{Checked, Name, Names, Plans, Proc, ProcList, Procs, builtins};
use coco_types::NoMemory;
use std::alloc::{AllocFailed, Global};

/// The tree behind the built-in tables and procedures, or its first error.
pub fn check(alloc: Global, procs: Procs) -> Result<Checked, CheckFault>
    requires limits { IsWithinLimits (procedures_of procs) }
    requires statements { HasFewStatements (procedures_of procs) }
    ensures accepted { IfOk result (λ c. c ≡ behind_builtins (procedures_of procs)) }
    ensures sound { IfOk result (λ c. HasNoError (procedures_of procs)) }
    ensures refused { IfErr result (λ fault. OnRefused fault (IsFirstError (procedures_of procs))) }

    // Only want of memory comes in the place of what the tree is answered.
    ensures only_accepted { HasNoError (procedures_of procs)
        → MatchResult result (λ c. c ≡ behind_builtins (procedures_of procs)) (λ fault. fault ≡ CheckFault.NoMemory) }
    ensures only_refused { (e : CheckError) → IsFirstError (procedures_of procs) e
        → IsErrAnd result (λ fault. (fault ≡ CheckFault.Refused e) ⊎ (fault ≡ CheckFault.NoMemory)) }
{
    let first = builtins(alloc)?;
    let mut plans = built_in_plans(alloc, &first)?;
    let mut more = find_error(alloc, &first, &procs)?;
    plans.append(&mut more)?;
    let tree = joined(first, procs)?;
    Ok(Checked::of(alloc, tree, plans)?)
}

/// The built-in procedures alone.
pub fn built_in(alloc: Global) -> Result<Checked, NoMemory>
    ensures { IfOk result (λ c. c ≡ built_in) }
{
    let tree = builtins(alloc)?;
    let plans = built_in_plans(alloc, &tree)?;
    Checked::of(alloc, tree, plans)
}

// The plans of the built-in procedures, in which nothing is wrong.
fn built_in_plans(alloc: Global, first: &Procs) -> Result<Plans, NoMemory>
    requires { procedures_of first.now ≡ built_in }
    ensures { IfOk result (λ plans. ArePlansOf built_in.procs plans.items) }
{
    let mut tables = NameSet::new(alloc);
    add_all(&mut tables, first.tables.as_slice())?;
    let mut names = NameSet::new(alloc);
    match check_procs(alloc, &tables, &mut names, 0, first.procs.as_slice()) {
        Ok(plans) => Ok(plans),
        Err(CheckFault::NoMemory) => Err(NoMemory),
        Err(CheckFault::Refused(_)) => unreachable!(),
    }
}

// The plans of a tree's procedures, or its first error.
fn find_error(alloc: Global, first: &Procs, procs: &Procs) -> Result<Plans, CheckFault>
    requires first { procedures_of first.now ≡ built_in }
    requires limits { IsWithinLimits (procedures_of procs.now) }
    requires statements { HasFewStatements (procedures_of procs.now) }
    ensures error { FindsError result (first_error (procedures_of procs.now)) }
    ensures plans { IfOk result (λ plans. ArePlansOf (procedures_of procs.now).procs plans.items) }
{
    let tables = check_tables(alloc, first.tables.as_slice(), procs.tables.as_slice())?;
    let mut names = names_of(alloc, first.procs.as_slice())?;
    let item = procs.tables.len() as u32 + 1;
    check_procs(alloc, &tables, &mut names, item, procs.procs.as_slice())
}

// The names of all tables, if none stands twice.
fn check_tables(alloc: Global, first: &[Name], tables: &[Name]) -> Result<NameSet, CheckFault>
    requires first { first.now ≡ built_in.tables }
    requires few { length tables.now ≤ most_declared }
    ensures { TablesAre result (adding built_in_tables 0 tables.now) }
{
    let mut known = NameSet::new(alloc);
    add_all(&mut known, first)?;
    match add_all(&mut known, tables)? {
        None => Ok(known),
        Some(i) => Err(CheckFault::Refused(CheckError {
            item: i as u32 + 1,
            statement: 0,
            kind: CheckKind::Twice,
        })),
    }
}

fn names_of(alloc: Global, procs: &[Proc]) -> Result<NameSet, AllocFailed<Name>>
    ensures { IfOk result (λ names. names.keys ≡ with_names [] (map (λ p. p.name) procs.now)) }
{
    let mut names = NameSet::new(alloc);
    for proc in procs {
        names.insert(proc.name)?;
    }
    Ok(names)
}

// The plans of procedures, the first of which is this item, or their first error.
fn check_procs(
    alloc: Global,
    tables: &NameSet,
    names: &mut NameSet,
    first: u32,
    procs: &[Proc],
) -> Result<Plans, CheckFault>
    requires few { first + length procs.now < 2 ^ 32 }
    requires statements { All (λ p. length (statements_in (procedure_of p)) < 2 ^ 32) procs.now }
    ensures error { FindsError result (first_of_procedures tables.now.keys names.old.keys first
        (map procedure_of procs.now)) }
    ensures plans { IfOk result (λ plans. ArePlansOf (map procedure_of procs.now) plans.items) }
{
    let mut plans = Plans::with_capacity(alloc, procs.len())?;
    let mut item = first;
    for proc in procs {
        let is_new = names.insert(proc.name)?;
        match check_proc(alloc, tables, is_new, proc) {
            Ok(plan) => plans.push_reserved(plan),
            Err(fault) => return Err(fault.at(item)),
        }
        item += 1;
    }
    Ok(plans)
}

// The tables and procedures of both, in order.
fn joined(first: Procs, rest: Procs) -> Result<Procs, NoMemory>
    ensures { IfOk result (λ t. procedures_of t ≡ record {
      tables = first.tables ++ rest.tables;
      procs = map procedure_of first.procs ++ map procedure_of rest.procs;
    }) }
{
    let mut tables = first.tables.into_vec();
    let mut more = rest.tables.into_vec();
    tables.append(&mut more)?;
    let mut procs = first.procs.into_vec();
    let mut more = rest.procs.into_vec();
    procs.append(&mut more)?;
    Ok(Procs {
        tables: Names::from_vec(tables),
        procs: ProcList::from_vec(procs),
    })
}
