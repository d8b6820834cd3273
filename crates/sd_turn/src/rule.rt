//! The rule that every step of every seat keeps.
use crate::chronicle::Chronicle;
use crate::view::View;
use atomic_table::TableRule;
use std::marker::PhantomData;
use std::snapshot::Snapshot;

pub(crate) struct TurnRule<V> {
    marker: PhantomData<V>,
}

impl<V: Chronicle> TableRule<Option<V>, View<V::Entry, V::Setting>, Snapshot<V>> for TurnRule<V> {
    ghost use Rattle.sd_turn.specs.Rule.{Kept};
    ghost use Rattle.sd_turn.specs.Views.{newcomer};

    ghost holds = { λ key. Kept ⟦<V as Chronicle>⟧ key.value };

    ghost first = { λ key. newcomer ⟦<V as Chronicle>⟧ key.value };
}
