//! What a store stands on, as a trait, and the saying of a whole piece.
ghost use Rattle.std.specs.Prelude.{◌≡◌, ℕ, ◌+◌, ◌-◌, ◌*◌, ◌<◌, ◌≤◌, min, List, Option, Some, is_some, true, length, take, drop, IfOk, IfSome, OnOk, OnErr, IsErrOf};
ghost use Rattle.std.specs.Io.KnownBytes.{append_known};
ghost use Rattle.coco_types.specs.Limits.{files_end};
ghost use Rattle.coco_io.specs.Counts.{CountsRead, CountsWrite};
ghost use Rattle.coco_host.specs.Files.{Files, put_into, TornIn, Become, Follows, NoMore, IsDurable};
ghost use Rattle.coco_host.specs.Moments.{Observation, IsNew, Elapses, SeesOnly};

use coco_types::{Failed, OutFault};

/// Where a store lives: numbered files and the stream that its replies leave by, under one clock. A file
/// that was never written has no bytes, and can be synced.
///
/// Between two syncs of a file a crash may leave any bytes in each written range and past the old end;
/// the other bytes stay. After a sync that succeeded it leaves what a read gives.
pub trait Host {
    /// The bytes said so far, none where the host doesn't tell them.
    ghost said: { Self → Option (List ℕ) };

    /// How many calls of `say` failed. It never falls, and stands still at the end of 64 bits.
    ghost say_faults: { Self → ℕ };

    /// How many calls on files failed, likewise.
    ghost disk_faults: { Self → ℕ };

    /// The files as they read, none where the host doesn't tell them.
    ghost reads: { Self → Option Files };

    /// What a crash at this moment may leave of the files.
    ghost may_leave: { Self → Files → Type 0 };

    /// The moment, as a number that doesn't fall.
    ghost moment: { Self → ℕ };

    /// What was seen at some moment from that one on, during a call or between two.
    ghost observed: { Self → ℕ → Observation → Type 0 };

    /// The length of a file.
    fn len(&mut self, file: u32) -> Result<u64, Failed>
        ensures length { IfOk result (λ n. IfSome (reads self.old) (λ files. n ≡ length (files file))) }
        ensures same { reads self.new ≡ reads self.old }
        ensures said { said self.new ≡ said self.old }
        ensures crash { NoMore (may_leave self.old) (may_leave self.new) }
        ensures time { Elapses (moment self.old) (moment self.new) (observed self.old) (observed self.new) (IsNew (may_leave self.new) (said self.old) (said self.new)) }
        ensures counts { CountsRead result (disk_faults self.old) (disk_faults self.new) }
        ensures others { say_faults self.new ≡ say_faults self.old };

    /// Reads from a place of a file into the buffer's front: as many bytes as fit and are there.
    fn read_at(&mut self, file: u32, at: u64, into: &mut [u8]) -> Result<usize, Failed>
        ensures count { IfOk result (λ k. k ≤ length into.old) }
        ensures bytes { IfOk result (λ k. IfSome (reads self.old) (λ files. (k ≡ min (length into.old) (length (files file) - at)) × (take k into.new ≡ take k (drop at (files file))))) }
        ensures same { reads self.new ≡ reads self.old }
        ensures said { said self.new ≡ said self.old }
        ensures crash { NoMore (may_leave self.old) (may_leave self.new) }
        ensures time { Elapses (moment self.old) (moment self.new) (observed self.old) (observed self.new) (IsNew (may_leave self.new) (said self.old) (said self.new)) }
        ensures counts { CountsRead result (disk_faults self.old) (disk_faults self.new) }
        ensures others { say_faults self.new ≡ say_faults self.old };

    /// Writes over what is there, and past the end. A write that would end at `FILES_END` or behind it is refused.
    /// After a call that is refused the range may hold any bytes.
    fn write_at(&mut self, file: u32, at: u64, from: &[u8]) -> Result<(), OutFault>
        requires { IfSome (reads self.old) (λ files. at ≤ length (files file)) }
        ensures written { OnOk result (Become (λ old new. new ≡ put_into file at from.now old) (reads self.old) (reads self.new)) }
        ensures refused { OnErr result (Become (TornIn file at (length from.now)) (reads self.old) (reads self.new)) }
        ensures small { OnOk result (at + length from.now < files_end) }
        ensures said { said self.new ≡ said self.old }
        ensures crash { Follows (TornIn file at (length from.now)) (may_leave self.old) (may_leave self.new) }
        ensures time { Elapses (moment self.old) (moment self.new) (observed self.old) (observed self.new) (IsNew (may_leave self.new) (said self.old) (said self.new)) }
        ensures counts { CountsWrite result (disk_faults self.old) (disk_faults self.new) }
        ensures others { say_faults self.new ≡ say_faults self.old };

    /// After it a crash leaves the file as it reads.
    fn sync(&mut self, file: u32) -> Result<(), Failed>
        ensures durable { OnOk result (IsDurable file (reads self.old) (may_leave self.new)) }
        ensures same { reads self.new ≡ reads self.old }
        ensures said { said self.new ≡ said self.old }
        ensures crash { NoMore (may_leave self.old) (may_leave self.new) }
        ensures time { Elapses (moment self.old) (moment self.new) (observed self.old) (observed self.new) (IsNew (may_leave self.new) (said self.old) (said self.new)) }
        ensures counts { CountsRead result (disk_faults self.old) (disk_faults self.new) }
        ensures others { say_faults self.new ≡ say_faults self.old };

    /// Says bytes from the front of the piece, and answers how many: at least one. A call that fails, or
    /// for which there is no memory, says nothing.
    fn say(&mut self, from: &[u8]) -> Result<usize, OutFault>
        requires { 0 < length from.now }
        ensures count { IfOk result (λ k. k ≤ length from.now) }
        ensures some { IfOk result (λ k. 0 < k) }
        ensures bytes { IfOk result (λ k. said self.new ≡ append_known (said self.old) (take k from.now)) }
        ensures err { OnErr result (said self.new ≡ said self.old) }
        ensures same { reads self.new ≡ reads self.old }
        ensures crash { NoMore (may_leave self.old) (may_leave self.new) }
        ensures time { Elapses (moment self.old) (moment self.new) (observed self.old) (observed self.new) (IsNew (may_leave self.new) (said self.old) (said self.new)) }
        ensures counts { CountsWrite result (say_faults self.old) (say_faults self.new) }
        ensures others { disk_faults self.new ≡ disk_faults self.old };

    fn say_faults(&self) -> u64
        ensures { result ≡ say_faults self.now };

    fn disk_faults(&self) -> u64
        ensures { result ≡ disk_faults self.now };

    /// This moment is one of those since an earlier one.
    ghost seen_now: { (host : Self) (t : ℕ) (seen : Observation) → t ≤ moment host → may_leave host seen.image → said host ≡ Some seen.said → observed host t seen };

    /// Since this moment there is no other.
    ghost only_now: { (host : Self) (seen : Observation) → observed host (moment host) seen → may_leave host seen.image × (said host ≡ Some seen.said) };

    /// A crash may leave the files as they read.
    ghost reads_left: { (host : Self) (files : Files) → reads host ≡ Some files → may_leave host files };

    /// A host that tells its files tells what it said, too. So what is seen of it is there to be judged.
    ghost tells_both: { (host : Self) (files : Files) → reads host ≡ Some files → is_some (said host) ≡ true };
}

/// Says the whole piece. After an error the front of it was said, maybe nothing. At each moment of it a crash may
/// leave only what one might have left before, and what is said has what was said before as its front and
/// goes no further than what is said after.
pub fn say_all<H: Host>(host: &mut H, piece: &[u8]) -> Result<(), OutFault>
    ensures ok { OnOk result (H.said host.new ≡ append_known (H.said host.old) piece.now) }
    ensures err { OnErr result ((k : ℕ) × (k ≤ length piece.now) × (H.said host.new ≡ append_known (H.said host.old) (take k piece.now))) }
    ensures same { H.reads host.new ≡ H.reads host.old }
    ensures crash { NoMore (H.may_leave host.old) (H.may_leave host.new) }
    ensures sees { SeesOnly H.moment H.observed host.old host.new (IsNew (H.may_leave host.old) (H.said host.old) (H.said host.new)) }
    ensures counts { CountsWrite result (H.say_faults host.old) (H.say_faults host.new) }
    ensures others { H.disk_faults host.new ≡ H.disk_faults host.old }
{
    let mut done = 0;
    while done < piece.len() {
        done += host.say(&piece[done..])?;
    }
    Ok(())
}
