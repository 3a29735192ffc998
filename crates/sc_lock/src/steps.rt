//! The lock's invariant, and what each of its steps shows. These types are for the proofs alone.
ghost use Rattle.std.specs.Prelude.{◌-◌};
ghost use Rattle.sc_lock.specs.Views.{first_view, split_off, with_weight, joined, spent};
ghost use Rattle.sc_lock.specs.Invariant.{LockInvariant};
ghost use Rattle.sc_lock.specs.Steps.{AfterDraw, AfterLook, AfterNote, AfterPassOn, AfterJoin, AfterVisit};

use crate::kept::Kept;
use crate::view::View;
use atomic_table::{Join, Play, Split, TableRule};
use std::snapshot::Snapshot;

/// The invariant, which holds between any two steps. Its key is the value that the lock was made with.
pub struct LockRule;

impl<K: Kept> TableRule<Option<K>, View<K, K::Entry, K::Part>, Snapshot<K>> for LockRule {
    ghost holds = { λ key. LockInvariant K.Kept key.value };

    ghost first = { λ key. first_view K.Kept key.value };
}

/// A ticket is drawn.
pub struct Draw;

impl<K: Kept> Play<Option<K>, View<K, K::Entry, K::Part>> for Draw {
    ghost then = { AfterDraw };
}

/// The number served is looked at, and where it is the seat's own ticket the value is taken.
pub struct Look;

impl<K: Kept> Play<Option<K>, View<K, K::Entry, K::Part>> for Look {
    ghost then = { AfterLook K.Kept };
}

/// The journal's length is noted.
pub struct Note;

impl<K: Kept> Play<Option<K>, View<K, K::Entry, K::Part>> for Note {
    ghost then = { AfterNote K.Kept };
}

/// The value is put back, and the turn passed on.
pub struct PassOn;

impl<K: Kept> Play<Option<K>, View<K, K::Entry, K::Part>> for PassOn {
    ghost then = { AfterPassOn };
}

/// A look after a join, which shows what the join brought together.
pub struct Settle;

impl<K: Kept> Play<Option<K>, View<K, K::Entry, K::Part>> for Settle {
    ghost then = { AfterJoin };
}

/// A seat comes that has seen nothing.
pub struct Visit;

impl<K: Kept> Play<Option<K>, View<K, K::Entry, K::Part>> for Visit {
    ghost then = { AfterVisit };
}

/// The new seat has seen the same, and can draw no ticket.
pub struct SplitSeen;

impl<K, E, P> Split<View<K, E, P>> for SplitSeen {
    ghost left = { λ v. v };

    ghost right = { split_off 0 };
}

/// The new seat can draw tickets and has no split left.
pub struct SplitPass;

impl<K, E, P> Split<View<K, E, P>> for SplitPass {
    ghost left = { λ v. with_weight (v.weight - 1) v };

    ghost right = { split_off 1 };
}

/// The new seat has all splits, and the old one can draw tickets.
pub struct SplitFirst;

impl<K, E, P> Split<View<K, E, P>> for SplitFirst {
    ghost left = { with_weight 1 };

    ghost right = { λ v. split_off (v.weight - 1) v };
}

/// Two seats become one.
pub struct JoinSeats;

impl<K, E, P> Join<View<K, E, P>> for JoinSeats {
    ghost both = { joined };

    ghost spent = { spent };
}
