//! The rule of a board, as the table under it keeps it.

use crate::item::Item;
use crate::load::{LegalLoad, Load};
use crate::view::View;
use atomic_table::{Seat, Table, TableRule};
use std::alloc::Global;
use std::marker::PhantomData;
use std::snapshot::Snapshot;

/// What a slot holds; nothing while a seat has its value.
pub type Slot<C, B> = Option<Item<C, B>>;

/// What the slots were at first.
pub type Opening<C, B> = Snapshot<Vec<Slot<C, B>>>;

/// The books of a board: its words, its settled contents, and what each seat knows keep the rule.
pub struct Books<C, B> {
    marker: PhantomData<(C, B)>,
}

impl<C: LegalLoad, B: Load<Rest = C::Rest, Parcel = C::Parcel>> TableRule<
    Slot<C, B>,
    View<C::Rest, C::Parcel>,
    Opening<C, B>,
> for Books<C, B> {
    ghost use Rattle.std.specs.Prelude.{length, ◌/◌, map};
    ghost use Rattle.quiet_table.specs.Contents.{contents_of, opening_contents, rest_of};
    ghost use Rattle.quiet_table.specs.Views.{first_view};
    ghost use Rattle.quiet_table.specs.BoardRule.{BoardRule};

    ghost holds = { λ key. BoardRule (contents_of C.rest C.parcels B.rest B.parcels) C.legal C.origin (length key.value.items / 2) (C.origin (map rest_of (opening_contents (contents_of C.rest C.parcels B.rest B.parcels) key.value.items))) };

    ghost first = { λ key. first_view };
}

/// The table under a board.
pub type BoardTable<C, B> = Table<
    Slot<C, B>,
    View<<C as Load>::Rest, <C as Load>::Parcel>,
    Opening<C, B>,
    Books<C, B>,
    Global,
>;

/// A seat of the table.
pub type Place<C, B> = Seat<Slot<C, B>, View<<C as Load>::Rest, <C as Load>::Parcel>>;
