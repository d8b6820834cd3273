//! What each step tells the seat that makes it.
ghost use Rattle.std.specs.Prelude.{List, []};
ghost use Rattle.sd_turn.specs.Plays.{took, counted, gave, looked, settled};

use crate::chronicle::Chronicle;
use crate::view::View;
use atomic_table::{Join, Play, Split};
use std::marker::{Brand, PhantomData};

/// The entries that a count step gives their numbers. The call picks them.
pub(crate) trait Appended<E> {
    ghost entries: { List E };
}

impl<E> Appended<E> for Brand {
    ghost entries = { [] };
}

pub(crate) struct Take<V> {
    marker: PhantomData<V>,
}

impl<V: Chronicle> Play<Option<V>, View<V::Entry, V::Setting>> for Take<V> {
    ghost then = { took ⟦<V as Chronicle>⟧ };
}

pub(crate) struct Count<V, J> {
    marker: PhantomData<(V, J)>,
}

impl<V: Chronicle, J: Appended<V::Entry>> Play<Option<V>, View<V::Entry, V::Setting>>
    for Count<V, J> {
    ghost then = { counted ⟦<V as Chronicle>⟧ J.entries };
}

pub(crate) struct Give<V> {
    marker: PhantomData<V>,
}

impl<V: Chronicle> Play<Option<V>, View<V::Entry, V::Setting>> for Give<V> {
    ghost then = { gave ⟦<V as Chronicle>⟧ };
}

pub(crate) struct Look<V> {
    marker: PhantomData<V>,
}

impl<V: Chronicle> Play<Option<V>, View<V::Entry, V::Setting>> for Look<V> {
    ghost then = { looked ⟦<V as Chronicle>⟧ };
}

pub(crate) struct Settle<V> {
    marker: PhantomData<V>,
}

impl<V: Chronicle> Play<Option<V>, View<V::Entry, V::Setting>> for Settle<V> {
    ghost then = { settled ⟦<V as Chronicle>⟧ };
}

pub(crate) struct SplitSeat;

impl<E, C> Split<View<E, C>> for SplitSeat {
    ghost use Rattle.sd_turn.specs.Views.{left_by_split, made_by_split};

    ghost left = { left_by_split };

    ghost right = { made_by_split };
}

pub(crate) struct JoinSeats;

impl<E, C> Join<View<E, C>> for JoinSeats {
    ghost use Rattle.sd_turn.specs.Views.{joined, spent};

    ghost both = { joined };

    ghost spent = { spent };
}
