//! What both commands say of small stores in memory, and of files that are none.

use crate::made::{COMMITS, LAYOUTS, PREPARED, host_with};
use coco_commands::{dump, verify};
use coco_ending::Ending;
use coco_types::OutFault;
use std::alloc::Global;
use std::test::Fail;

const SERIAL: &str =
    r#"{"args":[5,70],"call":"put","epoch":1,"id":1,"ok":70,"snapshot":false,"time":1}
{"row":5,"table":"main","value":70}
serial 1
"#;

const NOT_SERIAL: &str =
    r#"{"args":[5,70],"call":"put","epoch":1,"id":1,"ok":71,"snapshot":false,"time":1}
{"row":5,"table":"main","value":70}
{"computed":{"ok":70},"id":1,"kept":{"ok":71},"place":1}
"#;

fn is_told(
    alloc: Global,
    commits: &[u8],
    dumped: Ending,
    verified: Ending,
    said: &str,
) -> Result<bool, OutFault> {
    let mut host = host_with(alloc, &[(0, &LAYOUTS), (1, commits), (2, &PREPARED)])?;
    let is_dumped = dump(alloc, &mut host) == dumped;
    let is_verified = verify(alloc, &mut host) == verified;
    Ok(is_dumped && is_verified && host.said() == said.as_bytes())
}

// The store as it was made, the one with another reply, and one that is cut behind its first gate.
#[test]
fn a_store_is_dumped_and_verified(rt: HostRuntime) -> Result<(), Fail> {
    let mut unlike = COMMITS;
    unlike[73] = 71;
    let refused = Ending::NotAStore { file: 1, at: 8 };
    let differs = Ending::NotSerial { place: 1 };
    let cases = [
        (&COMMITS[..], Ending::Finished, Ending::Finished, SERIAL),
        (&unlike[..], Ending::Finished, differs, NOT_SERIAL),
        (&COMMITS[..20], refused, refused, ""),
    ];
    for (commits, dumped, verified, said) in &cases {
        let is_told = is_told(rt.alloc(), commits, *dumped, *verified, said)?;
        assert!(rt; is_told, "{said}");
    }
    Ok(())
}
