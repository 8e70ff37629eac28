//! A file of a store read once from its front, entry by entry, each as its rules have it.
ghost use Rattle.std.specs.Prelude.{◌≡◌, ◌≢◌, ℕ, ◌<◌, ◌≤◌, ◌+◌, List, length, Some, true, [], Ok, Err, IfOk};
ghost use Rattle.coco_host.specs.Files.{Files};
ghost use Rattle.coco_log.specs.Grammar.{IsNoHeader};
ghost use Rattle.coco_log.specs.LogState.{IsFresh, IsOnlyRead};
ghost use Rattle.coco_log.specs.Reading.{IsBegun, IsOf};
ghost use Rattle.coco_read.specs.declared.fault.OpenFault.TheVariants as fault;
ghost use Rattle.coco_read.specs.EntryRules.{IsFile, IsFirstIn, IsReadLog, IsStep, IsUnderWay};
ghost use Rattle.coco_read.specs.Faults.{Counts};

use crate::fault::fault_in;
use crate::{OpenFault, Rules};
use coco_host::Host;
use coco_log::{Entries, Log};
use std::alloc::Global;

/// Reads a file of a store as a log of this kind whose entries keep the rules, which then have taken them all.
/// The file stays as it is, and is synced first, so that a crash leaves what was read. A file that is none is
/// refused at its first place: where it is no log, a body is no entry, an entry breaks a rule or, at the last
/// gate, something lacks.
pub fn read_file<H: Host, R: Rules>(
    alloc: Global,
    host: &mut H,
    file: u32,
    kind: u8,
    rules: &mut R,
) -> Result<Log, OpenFault>
    requires { R.taken rules.old ≡ [] }
    ensures setting { R.setting rules.new ≡ R.setting rules.old }
    ensures log { IfOk result (λ log. IsFresh log file kind) }
    ensures ok { IfOk result (λ log. (files : Files) → H.reads host.old ≡ Some files
        → IsReadLog (R.rules (R.setting rules.old)) (R.taken rules.new) log files (H.may_leave host.new)) }
    ensures whole { IfOk result (λ _. ¬ ((R.rules (R.setting rules.old)).Lacks (R.taken rules.new))) }
    ensures here { (other at : ℕ) → result ≡ Err (fault.NotAStore other at) → other ≡ file }
    ensures refused { (other at : ℕ) (files : Files) → result ≡ Err (fault.NotAStore other at) → H.reads host.old ≡ Some files
        → IsFirstIn (R.rules (R.setting rules.old)) kind (files file) at }
    ensures kept { (other at : ℕ) (files : Files) (entries : List (R.Entry)) → H.reads host.old ≡ Some files
        → IsFile (R.rules (R.setting rules.old)) kind entries (files file) → result ≢ Err (fault.NotAStore other at) }
    ensures read { IsOnlyRead H.Host host.old host.new }
    ensures counts { Counts result (H.disk_faults host.old) (H.disk_faults host.new) }
{
    let mut entries = begin(alloc, host, file, kind)?;
    while read_next(alloc, host, file, &mut entries, rules)? {}
    if rules.lacks() {
        return Err(OpenFault::NotAStore {
            file,
            at: entries.gate(),
        });
    }
    Ok(entries.into_log())
}

// Begins to read a file, or refuses it for its header.
fn begin<H: Host>(alloc: Global, host: &mut H, file: u32, kind: u8) -> Result<Entries, OpenFault>
    ensures of { IfOk result (λ entries. IsOf file kind entries) }
    ensures ok { IfOk result (λ entries. (files : Files) → H.reads host.old ≡ Some files → IsBegun entries files (H.may_leave host.new)) }
    ensures here { (other at : ℕ) → result ≡ Err (fault.NotAStore other at) → other ≡ file }
    ensures refused { (other at : ℕ) (files : Files) → result ≡ Err (fault.NotAStore other at) → H.reads host.old ≡ Some files → IsNoHeader kind (files file) at }
    ensures read { IsOnlyRead H.Host host.old host.new }
    ensures counts { Counts result (H.disk_faults host.old) (H.disk_faults host.new) }
{
    match Entries::open(alloc, host, file, kind) {
        Ok(entries) => Ok(entries),
        Err(fault) => Err(fault_in(file, fault)),
    }
}

// Goes on to the next entry and has the rules take it; answers whether there was one.
fn read_next<H: Host, R: Rules>(
    alloc: Global,
    host: &mut H,
    file: u32,
    entries: &mut Entries,
    rules: &mut R,
) -> Result<bool, OpenFault>
    requires { file ≡ entries.old.file }
    ensures of { IsOf entries.old.file entries.old.kind entries.new }
    ensures setting { R.setting rules.new ≡ R.setting rules.old }
    ensures step { (files : Files) → H.reads host.old ≡ Some files → IsUnderWay (R.rules (R.setting rules.old)) entries.old (R.taken rules.old) (files file)
        → IsStep (R.rules (R.setting rules.old)) result entries.new (R.taken rules.new) (files file) }
    ensures here { (other at : ℕ) → result ≡ Err (fault.NotAStore other at) → other ≡ file }
    ensures end { entries.new.end ≡ entries.old.end }
    ensures on { result ≡ Ok true → (entries.old.at < entries.new.at) × (entries.new.at < entries.new.end) }
    ensures read { IsOnlyRead H.Host host.old host.new }
    ensures counts { Counts result (H.disk_faults host.old) (H.disk_faults host.new) }
{
    let goes_on = match entries.next(host) {
        Ok(more) => more,
        Err(fault) => return Err(fault_in(file, fault)),
    };
    if goes_on {
        if let Some(at) = rules.take(alloc, entries.body())? {
            return Err(OpenFault::NotAStore {
                file,
                at: byte_of(entries, at),
            });
        }
    }
    Ok(goes_on)
}

// Where a byte of the body that was read stands in the file.
fn byte_of(entries: &Entries, at: usize) -> u64
    requires { at ≤ length entries.now.body }
    ensures { result + length entries.now.body ≡ entries.now.at + at }
{
    let gate = entries.gate();
    let behind = gate - entries.place() - at as u64;
    gate - behind
}
