//! Rows in order.
ghost use Rattle.std.specs.Prelude.{◌≡◌, OnOk, OnErr};
ghost use Rattle.std.specs.List.Sorted.{IsPermutation, IsSorted, IsStable};
ghost use Rattle.org_order.specs.Order.{row_order};

use crate::rank::Rank;
use std::alloc::AllocError;

/// A row of a view, and where it stands by each key, the one that decides first in front. Comparisons see the ranks alone.
#[derive(Drop)]
#[derive_where(PartialEq, Eq, PartialOrd, Ord)]
pub struct RankedRow<T> {
    pub ranks: Vec<Rank>,
    #[derive_where(skip)]
    pub row: T,
}

/// Puts rows in the order of their ranks; those with equal ranks stand as they stood. Where memory is refused, so do all.
pub fn put_in_order<T: Drop>(rows: &mut Vec<RankedRow<T>>) -> Result<(), AllocError>
    ensures same { IsPermutation rows.old.items rows.new.items }
    ensures order { OnOk result (IsSorted row_order rows.new.items) }
    ensures stable { IsStable row_order rows.old.items rows.new.items }
    ensures unchanged { OnErr result (rows.new.items ≡ rows.old.items) }
{
    rows.sort()
}
