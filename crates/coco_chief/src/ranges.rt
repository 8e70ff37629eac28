//! Committed epochs as ranges, so that a long history takes little room and a query is a binary search.

ghost use Rattle.std.specs.Prelude.{◌++◌, ◌≡◌, ℕ, ◌<◌, ◌≤◌, ◌==◌, ◌||◌, ◌↔◌, length, slice_index_or, IsTrue, IfOk, OnOk, OnErr, IsSorted, IsPermutation};
ghost use Rattle.std.specs.List.Sorted.{IsStrictlyIncreasing};
ghost use Rattle.std.specs.Ordering.{nat_cmp};
ghost use Rattle.coco_chief.specs.Chief.{has, last_of};
ghost use Rattle.coco_chief.specs.Ranges.{covers, end_of, span_of, AreRanges};

use coco_types::NoMemory;
use std::alloc::Global;

/// Epochs that follow one another.
#[derive(Clone, Copy)]
pub struct Range {
    pub first: u64,
    pub last: u64,
}

/// Whether one of the ranges has an epoch.
pub fn is_covered(ranges: &[Range], epoch: u64) -> bool
    requires { AreRanges 0 ranges.now }
    ensures { result ≡ covers ranges.now epoch }
{
    let at = ranges.partition_point(|range| range.last < epoch);
    match ranges.get(at) {
        Some(range) => range.first <= epoch,
        None => false,
    }
}

/// Adds an epoch behind the ranges, or the last one of them once more. Out of memory they are as before.
pub fn add_epoch(ranges: &mut Vec<Range>, epoch: u64) -> Result<(), NoMemory>
    requires ranges { AreRanges 0 ranges.old.items }
    requires behind { end_of ranges.old.items ≤ epoch }
    ensures covers { OnOk result ((x : ℕ) → covers ranges.new.items x ≡ (epoch == x || covers ranges.old.items x)) }
    ensures end { OnOk result (end_of ranges.new.items ≡ epoch) }
    ensures ranges { AreRanges 0 ranges.new.items }
    ensures err { OnErr result (ranges.new.items ≡ ranges.old.items) }
{
    let alone = Range {
        first: epoch,
        last: epoch,
    };
    match ranges.pop() {
        None => ranges.push(alone)?,
        Some(range) if epoch - range.last <= 1 => ranges.push_reserved(Range {
            first: range.first,
            last: epoch,
        }),
        Some(range) => {
            ranges.push_reserved(range);
            ranges.push(alone)?;
        }
    }
    Ok(())
}

// The ranges of epochs that rise.
fn ranges_of_rising(alloc: Global, epochs: &[u64]) -> Result<Vec<Range>, NoMemory>
    requires { IsSorted nat_cmp epochs.now }
    ensures covers { IfOk result (λ ranges. (x : ℕ) → covers ranges.items x ≡ has epochs.now x) }
    ensures end { IfOk result (λ ranges. end_of ranges.items ≡ last_of epochs.now) }
    ensures ranges { IfOk result (λ ranges. AreRanges 0 ranges.items) }
{
    let mut ranges = Vec::new(alloc);
    for epoch in epochs {
        add_epoch(&mut ranges, *epoch)?;
    }
    Ok(ranges)
}

// Sorts the epochs of a list that isn't a file's.
fn sort_once(epochs: &mut [u64])
    ensures sorted { IsSorted nat_cmp epochs.new }
    ensures same { IsPermutation epochs.old epochs.new }
{
    if !epochs.is_sorted() {
        epochs.sort_unstable();
    }
}

/// The ranges of some epochs. A file's rise, and are gone through once.
pub fn ranges_of(alloc: Global, mut epochs: Vec<u64>) -> Result<Vec<Range>, NoMemory>
    ensures covers { IfOk result (λ ranges. (x : ℕ) → covers ranges.items x ≡ has epochs.items x) }
    ensures end { IfOk result (λ ranges. end_of ranges.items ≡ last_of epochs.items) }
    ensures ranges { IfOk result (λ ranges. AreRanges 0 ranges.items) }
{
    sort_once(&mut epochs);
    ranges_of_rising(alloc, &epochs)
}

// Adds the epochs of a range at the end.
fn write_out(epochs: &mut Vec<u64>, range: &Range) -> Result<(), NoMemory>
    requires { range.now.first ≤ range.now.last }
    ensures { OnOk result (epochs.new.items ≡ epochs.old.items ++ span_of range.now) }
{
    for behind in 0..range.last - range.first {
        epochs.push(range.first + behind)?;
    }
    epochs.push(range.last)?;
    Ok(())
}

/// The epochs of ranges, one by one.
pub fn epochs_of(alloc: Global, ranges: &[Range]) -> Result<Vec<u64>, NoMemory>
    requires { AreRanges 0 ranges.now }
    ensures rising { IfOk result (λ epochs. IsStrictlyIncreasing epochs.items) }
    ensures covered { IfOk result (λ epochs. (x : ℕ) → has epochs.items x ≡ covers ranges.now x) }
{
    let mut epochs = Vec::new(alloc);
    for range in ranges {
        write_out(&mut epochs, range)?;
    }
    Ok(epochs)
}
