//! What each step tells. These types are for the proofs alone.
ghost use Rattle.std.specs.Prelude.{Option};
ghost use Rattle.coco_seen.specs.Steps.{filled, taken, appended, gave, without_first, only_first, joined, spent};

use crate::stores::Stores;
use crate::view::View;
use atomic_table::{Join, Play, Split};
use std::marker::{Brand, PhantomData};

/// The entry that a call appends.
pub trait Said<E> {
    ghost use Rattle.std.specs.Prelude.{Option};

    ghost entry: { Option E };
}

impl<E> Said<E> for Brand {
    ghost use Rattle.std.specs.Prelude.{None};

    ghost entry = { None };
}

pub(crate) struct Fill;

impl<S: Stores> Play<Option<S>, View<S::Entry, S::Root>> for Fill {
    ghost then = { filled S.comes_from };
}

pub(crate) struct Take;

impl<S: Stores> Play<Option<S>, View<S::Entry, S::Root>> for Take {
    ghost then = { taken S.entries S.comes_from };
}

pub(crate) struct Append<W> {
    entry: PhantomData<W>,
}

impl<S: Stores, W: Said<S::Entry>> Play<Option<S>, View<S::Entry, S::Root>> for Append<W> {
    ghost then = { appended W.entry };
}

pub(crate) struct Give;

impl<S: Stores> Play<Option<S>, View<S::Entry, S::Root>> for Give {
    ghost then = { gave };
}

pub(crate) struct OneMark;

impl<E, R> Split<View<E, R>> for OneMark {
    ghost left = { without_first };

    ghost right = { only_first };
}

impl<E, R> Join<View<E, R>> for OneMark {
    ghost both = { joined };

    ghost spent = { spent };
}
