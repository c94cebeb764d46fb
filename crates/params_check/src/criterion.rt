//! What leaves wish for.
ghost use Rattle.std.specs.Prelude.{◌≡◌, ◌≤◌, length};

use std::marker::Model;

/// What a criterion looks at.
#[derive(Debug, Clone, Copy, PartialEq, Eq)]
pub enum Test {
    /// A box in root cells, from `low` on and below `high`, and the level that is wished for in it.
    Region {
        low: [u16; 3],
        high: [u16; 3],
        level: u8,
    },
    /// The amounts of a field's cells.
    Mass {
        field: u8,
        refine: u64,
        coarsen: u64,
    },
    /// Differences across cells, in hundredths of the cells' amounts.
    Slope {
        field: u8,
        refine: u64,
        coarsen: u64,
    },
    /// Greatest less least amount around cells.
    Contrast {
        field: u8,
        refine: u64,
        coarsen: u64,
    },
}

/// A test, and the last adapt phase in which it is active.
#[derive(Debug, Clone, Copy, PartialEq, Eq)]
pub struct Criterion {
    pub until: u32,
    pub test: Test,
}

/// Criteria in the order of the text, at most 16.
#[derive(Drop)]
pub struct Criteria {
    criteria: Vec<Criterion>,
}

impl Model for Criteria {
    ghost use Rattle.std.specs.Prelude.{List, ◌≤◌, length};
    ghost use Rattle.params_check.specs.declared.criterion.Criterion.{Criterion};

    ghost Value = { List Criterion };

    ghost view = { λ c. c.criteria.items };

    ghost invariant = { λ c. length c.criteria.items ≤ 16 };
}

impl Criteria {
    /// These criteria.
    pub fn of(criteria: Vec<Criterion>) -> Criteria
        requires few { length criteria.items ≤ 16 }
        ensures items { result ≡ criteria.items }
    {
        Criteria { criteria }
    }

    /// The criteria in order.
    pub fn items(&self) -> &[Criterion]
        ensures items { result.now ≡ self.now }
        ensures few { length self.now ≤ 16 }
    {
        &self.criteria
    }
}
