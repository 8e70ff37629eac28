//! What stands in a log's file: its header, and behind it gate after gate.
ghost use Rattle.std.specs.Prelude.{◌≡◌, ◌≢◌, ◌⊎◌, ℕ, ◌+◌, ◌-◌, ◌<◌, ◌≤◌, ◌^◌, List, Some, [], ◌∷◌, ◌++◌, Ok, Err, length, take, drop, vec_len, Option, None, IfOk, OnOk};
ghost use Rattle.coco_types.specs.Limits.{files_end};
ghost use Rattle.coco_host.specs.Files.{Files};
ghost use Rattle.coco_log.specs.declared.fault.LogFault.TheVariants as fault;
ghost use Rattle.coco_log.specs.Faults.{CountsFault, CountsRead};
ghost use Rattle.coco_log.specs.Grammar.{header, IsNoHeader};
ghost use Rattle.coco_log.specs.Gates.{IsHead, IsPart, IsStep};
ghost use Rattle.coco_log.specs.LogState.{IsOnlyRead};

use crate::LogFault;
use crate::window::Window;
use coco_bytes::get_u32;
use coco_host::Host;

/// The greatest length of an entry's body, in bytes.
pub const MOST_ENTRY_BYTES: u32 = 67_108_864;

/// What stands where a gate belongs.
#[derive(Clone, Copy)]
pub enum Head {
    /// The file ends there.
    End,
    /// A gate that isn't open.
    Closed,
    /// An open gate, and behind it less than a length.
    Short,
    /// An open gate, and behind it this length.
    Open { length: u32 },
}

fn head_of(bytes: &[u8]) -> Head
    ensures { IsHead bytes.now result }
{
    if bytes.is_empty() {
        return Head::End;
    }
    if bytes[0] != 1 {
        return Head::Closed;
    }
    match get_u32(bytes, 1) {
        Ok((length, _)) => Head::Open { length },
        Err(_) => Head::Short,
    }
}

// What stands where a gate belongs.
fn head_at<H: Host>(host: &mut H, window: &mut Window, at: u64) -> Result<Head, LogFault>
    requires { at < files_end }
    ensures file { window.new.file ≡ window.old.file }
    ensures part { (files : Files) → H.reads host.old ≡ Some files → IsPart window.old.from window.old.count window.old.bytes.items (files window.old.file)
        → IsPart window.new.from window.new.count window.new.bytes.items (files window.old.file) }
    ensures head { IfOk result (λ head. (files : Files) → H.reads host.old ≡ Some files → IsPart window.old.from window.old.count window.old.bytes.items (files window.old.file)
        → IsHead (drop at (files window.old.file)) head) }
    ensures read { IsOnlyRead H.Host host.old host.new }
    ensures counts { CountsFault result (H.disk_faults host.old) (H.disk_faults host.new) }
{
    let skip = window.reach(host, at, 5)?;
    Ok(head_of(&window.bytes[skip..window.count]))
}

/// The place of the gate behind the entry whose gate stands at a place, or none where that gate isn't open.
pub fn next_gate<H: Host>(
    host: &mut H,
    window: &mut Window,
    at: u64,
    end: u64,
) -> Result<Option<u64>, LogFault>
    requires small { at < files_end }
    ensures file { window.new.file ≡ window.old.file }
    ensures part { (files : Files) → H.reads host.old ≡ Some files → IsPart window.old.from window.old.count window.old.bytes.items (files window.old.file)
        → IsPart window.new.from window.new.count window.new.bytes.items (files window.old.file) }
    ensures step { (files : Files) → H.reads host.old ≡ Some files → end ≡ length (files window.old.file) → IsPart window.old.from window.old.count window.old.bytes.items (files window.old.file)
        → IsStep (files window.old.file) at result }
    ensures on { (next : ℕ) → result ≡ Ok (Some next) → (at + 5 ≤ next) × (next < at + 2 ^ 32) × (next < end) }
    ensures read { IsOnlyRead H.Host host.old host.new }
    ensures counts { CountsRead result (H.disk_faults host.old) (H.disk_faults host.new) }
{
    match head_at(host, window, at)? {
        Head::Closed => Ok(None),
        Head::Open { length } => {
            let next = at + 5 + u64::from(length);
            if length <= MOST_ENTRY_BYTES && next < end {
                Ok(Some(next))
            } else {
                Err(LogFault::NotALog { at })
            }
        }
        Head::Short => Err(LogFault::NotALog { at }),
        Head::End => Err(LogFault::NotALog { at }),
    }
}

/// The header of a log of this kind.
pub fn header_of(kind: u8) -> [u8; 8]
    ensures { result ≡ header kind }
{
    [b'C', b'O', b'C', b'O', b'L', b'O', b'G', kind]
}

/// Refuses a file that doesn't begin as a log of this kind.
pub fn read_header<H: Host>(host: &mut H, window: &mut Window, kind: u8) -> Result<(), LogFault>
    ensures file { window.new.file ≡ window.old.file }
    ensures part { (files : Files) → H.reads host.old ≡ Some files → IsPart window.old.from window.old.count window.old.bytes.items (files window.old.file)
        → IsPart window.new.from window.new.count window.new.bytes.items (files window.old.file) }
    ensures ok { OnOk result ((files : Files) → H.reads host.old ≡ Some files → IsPart window.old.from window.old.count window.old.bytes.items (files window.old.file) → take 8 (files window.old.file) ≡ header kind) }
    ensures refused { (at : ℕ) (files : Files) → result ≡ Err (fault.NotALog at) → H.reads host.old ≡ Some files → IsPart window.old.from window.old.count window.old.bytes.items (files window.old.file)
        → IsNoHeader kind (files window.old.file) at }
    ensures read { IsOnlyRead H.Host host.old host.new }
    ensures counts { CountsRead result (H.disk_faults host.old) (H.disk_faults host.new) }
{
    let header = [b'C', b'O', b'C', b'O', b'L', b'O', b'G', kind];
    let skip = window.reach(host, 0, 8)?;
    match first_difference(&window.bytes[skip..window.count], &header) {
        Some(at) => Err(LogFault::NotALog { at: at as u64 }),
        None => Ok(()),
    }
}

// The first place of the header at which the bytes differ from it or have ended.
fn first_difference(bytes: &[u8], header: &[u8]) -> Option<usize>
    ensures same { result ≡ None → take (length header.now) bytes.now ≡ header.now }
    ensures differs { (at : ℕ) → result ≡ Some at
        → (at < length header.now) × (take at bytes.now ≡ take at header.now) × (take (at + 1) bytes.now ≢ take (at + 1) header.now) }
{
    for at in 0..header.len() {
        if at >= bytes.len() || bytes[at] != header[at] {
            return Some(at);
        }
    }
    None
}
