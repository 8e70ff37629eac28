//! What a seed makes of a few letters.

ghost use Rattle.std.specs.Prelude.{◌≡◌, ◌≤◌};

use coco_net::{FloodNet, Lose, Net, QuietNet, ScriptNet, SeededNet};
use coco_types::NoMemory;
use rand_core::SeedableRng;
use rand_core::utils::NextWord;
use rand_pcg::Lcg64Xsh32;
use std::alloc::Global;
use std::test::Fail;

// What a net counts that threads share.
fn faults_of<N: Net + Sync>(net: &N) -> u64
    ensures { result ≡ N.faults net.now }
{
    net.faults()
}

#[test]
fn nets_may_be_shared(rt: HostRuntime) {
    let alloc = rt.alloc();
    let script = ScriptNet::new(alloc, Lose::All, false, 1);
    assert!(rt; faults_of(&QuietNet::new(alloc)) == 0 && faults_of(&script) == 0);
    assert!(rt; faults_of(&FloodNet::new(alloc)) == 0 && faults_of(&SeededNet::new(alloc)) == 0);
}

// Sends a letter of one byte from node 1.
fn send<N: Net>(alloc: Global, net: &mut N, to: u8, byte: u8) -> Result<(), NoMemory>
    requires { to ≤ 8 }
{
    net.send(1, to, vec![in alloc; byte]?)
}

// Whether the letters that wait at a place have these bytes, one each. They are taken.
fn gives<N: Net>(net: &mut N, to: u8, bytes: &[u8]) -> bool
    requires { to ≤ 8 }
{
    if net.waiting(to) as usize != bytes.len() {
        return false;
    }
    for byte in bytes {
        match net.next(to) {
            Some(letter) if letter.bytes.as_slice() == [*byte].as_slice() => {}
            _ => return false,
        }
    }
    net.next(to).is_none()
}

// Whether a round gives these letters to node 0 and to node 2, and so many faults are counted then.
fn round_gives<N: Net>(
    net: &mut N,
    first: &[u8],
    second: &[u8],
    faults: u64,
) -> Result<bool, NoMemory> {
    net.round()?;
    Ok(gives(net, 0, first) && gives(net, 2, second) && net.faults() == faults)
}

// Sends 10, 11 and 12 to node 0 and 20 to node 2, and takes what a round gives these two.
fn four_come(
    alloc: Global,
    net: &mut SeededNet,
    first: &[u8],
    second: &[u8],
    faults: u64,
) -> Result<bool, NoMemory> {
    for byte in [10, 11, 12] {
        send(alloc, net, 0, byte)?;
    }
    send(alloc, net, 2, 20)?;
    round_gives(net, first, second, faults)
}

// The words of seed 1 are, modulo 8: 6 6 1 0, and for the places 3 0 0 0 4 0 3 4 7; then 2 5 4 6, and for the
// places 3 5 5 0 7 7 7 7 3 (worked out from the generator's definition).
#[test]
fn a_seed_loses_repeats_and_turns_by_its_words(rt: HostRuntime) -> Result<(), Fail> {
    let alloc = rt.alloc();
    let mut net = SeededNet::new(alloc);
    assert!(rt; four_come(alloc, &mut net, &[10, 11, 12], &[20], 0)?);
    net.disturb(1);
    assert!(rt; four_come(alloc, &mut net, &[12, 12, 11, 10], &[], 1)?);
    assert!(rt; four_come(alloc, &mut net, &[12, 11, 10], &[20], 1)?);
    Ok(())
}

fn first_words(seed: u64) -> [u32; 3] {
    let mut generator = Lcg64Xsh32::seed_from_u64(seed);
    let first = generator.next_word();
    let second = generator.next_word();
    [first, second, generator.next_word()]
}

#[test]
fn the_first_words_of_a_seed_are_those_of_the_generator(rt: HostRuntime) {
    for (seed, words) in [
        (0, [0x11cd_d903, 0xfc84_3fd7, 0x1408_33d3]),
        (1, [0x33a7_0be6, 0x7dbc_f3ee, 0xcadf_4751]),
        (7, [0x9191_5ee9, 0x18ae_1cbe, 0xa388_049d]),
    ] {
        assert!(rt; first_words(seed) == words, "{seed}");
    }
}
