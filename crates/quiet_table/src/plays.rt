//! What each kind of step tells the seat that makes it.

use crate::load::{LegalLoad, Load};
use crate::picks::{OriginPick, TurnPick};
use crate::rule::Slot;
use crate::view::View;
use atomic_table::{Join, Play, Split};
use std::marker::PhantomData;

/// A claim of a turn: compare and exchange on a turn word, 0 to the number plus 1.
pub(crate) struct Claim<C, B, L> {
    marker: PhantomData<(C, B, L)>,
}

impl<C: LegalLoad, B: Load<Rest = C::Rest, Parcel = C::Parcel>, L: OriginPick<C::Origin>> Play<
    Slot<C, B>,
    View<C::Rest, C::Parcel>,
> for Claim<C, B, L> {
    ghost use Rattle.quiet_table.specs.Contents.{contents_of};
    ghost use Rattle.quiet_table.specs.Told.{claimed};

    ghost then = { claimed (contents_of C.rest C.parcels B.rest B.parcels) C.legal C.origin L.origin };
}

/// A release of a turn: store of 0 to the turn word.
pub(crate) struct Release<C, B> {
    marker: PhantomData<(C, B)>,
}

impl<C: LegalLoad, B: Load<Rest = C::Rest, Parcel = C::Parcel>> Play<
    Slot<C, B>,
    View<C::Rest, C::Parcel>,
> for Release<C, B> {
    ghost use Rattle.quiet_table.specs.Contents.{contents_of};
    ghost use Rattle.quiet_table.specs.Told.{released};

    ghost then = { released (contents_of C.rest C.parcels B.rest B.parcels) };
}

/// A split of seat 0, and a join into it.
pub(crate) struct Cut;

impl<R, E> Split<View<R, E>> for Cut {
    ghost use Rattle.quiet_table.specs.Views.{split_left, split_right};

    ghost left = { split_left };

    ghost right = { split_right };
}

impl<R, E> Join<View<R, E>> for Cut {
    ghost use Rattle.quiet_table.specs.Views.{joined_view, spent_view};

    ghost both = { joined_view };

    ghost spent = { spent_view };
}

/// Count sent: an addition to a sent word.
pub(crate) struct Sends<L> {
    marker: PhantomData<L>,
}

impl<S, R, E, L: TurnPick<R, E>> Play<S, View<R, E>> for Sends<L> {
    ghost use Rattle.quiet_table.specs.Told.{sent_told};

    ghost then = { sent_told L.rest L.parcels L.handled };
}

/// Count handled: an addition to a handled word.
pub(crate) struct Handles;

impl<S, R, E> Play<S, View<R, E>> for Handles {
    ghost use Rattle.quiet_table.specs.Told.{handled_told};

    ghost then = { handled_told };
}

/// A read of the first wave: a load of a handled word.
pub(crate) struct ReadsFirst;

impl<S, R, E> Play<S, View<R, E>> for ReadsFirst {
    ghost use Rattle.quiet_table.specs.Told.{first_told};

    ghost then = { first_told };
}

/// A read of the second wave: a load of a sent word.
pub(crate) struct ReadsSecond;

impl<S, R, E> Play<S, View<R, E>> for ReadsSecond {
    ghost use Rattle.quiet_table.specs.Told.{second_told};

    ghost then = { second_told };
}

/// A try to declare: compare and exchange on the verdict, Running to Quiet.
pub(crate) struct Declares;

impl<S, R, E> Play<S, View<R, E>> for Declares {
    ghost use Rattle.quiet_table.specs.Told.{declare_told};

    ghost then = { declare_told };
}

/// A try to stop: compare and exchange on the verdict, Running to Stopped.
pub(crate) struct Stops;

impl<S, R, E> Play<S, View<R, E>> for Stops {
    ghost use Rattle.quiet_table.specs.Told.{stop_told};

    ghost then = { stop_told };
}

/// A look at the verdict: a load of its word.
pub(crate) struct Looks;

impl<S, R, E> Play<S, View<R, E>> for Looks {
    ghost use Rattle.quiet_table.specs.Told.{verdict_told};

    ghost then = { verdict_told };
}
