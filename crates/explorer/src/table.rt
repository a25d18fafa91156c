//! How many orders give each outcome.

ghost use Rattle.std.specs.Prelude.{◌≡◌, [], length, slice_get, IfOk, OnOk, OnErr};
ghost use Rattle.std.specs.Option.{option_map};
ghost use Rattle.std.specs.String.{string_bytes};
ghost use Rattle.explorer.specs.Tally.{with_order};
ghost use Rattle.explorer.specs.Tables.{row_for, IsFoundWith, shown_found};

use indexmap::IndexMap;
use std::alloc::{AllocError, Global};
use std::marker::Model;

/// How many orders give an outcome, and the path of the first of them: the actors that took its turns.
#[derive(Drop)]
pub struct Found {
    pub orders: u64,
    pub first: Vec<u32>,
}

/// The outcomes so far, by first appearance, each with its orders. A contract sees them as rows.
#[derive(Drop)]
pub struct Table {
    alloc: Global,
    rows: IndexMap<String, Found>,
}

impl Model for Table {
    ghost use Rattle.std.specs.Prelude.{List};
    ghost use Rattle.explorer.specs.Tally.{Counted};
    ghost use Rattle.explorer.specs.Tables.{shown_rows};

    ghost Value = { List Counted };

    ghost view = { λ t. shown_rows t.rows.entries };
}

impl Table {
    /// No outcome. Allocates no memory.
    pub fn new(alloc: Global) -> Table
        ensures { result ≡ [] }
    {
        Table {
            alloc,
            rows: IndexMap::new(alloc),
        }
    }

    /// What is found of this outcome once another order with this path gives it.
    fn found_with(&self, outcome: &String, path: &[u32]) -> Result<Found, AllocError>
        ensures { IfOk result (IsFoundWith (row_for (string_bytes outcome.now) self.now) path.now) }
    {
        match self.rows.get(outcome.as_str()) {
            None => Ok(Found {
                orders: 1,
                first: path.to_vec(self.alloc)?,
            }),
            Some(found) => {
                // No exploration has 2^64 orders.
                let Some(orders) = found.orders.checked_add(1) else {
                    return Err(AllocError);
                };
                Ok(Found {
                    orders,
                    first: found.first.as_slice().to_vec(self.alloc)?,
                })
            }
        }
    }

    /// Counts an order with this outcome and this path.
    pub fn add(&mut self, outcome: String, path: &[u32]) -> Result<(), AllocError>
        ensures counted { OnOk result (self.new ≡ with_order self.old (string_bytes outcome) path.now) }
        ensures err { OnErr result (self.new ≡ self.old) }
    {
        let found = self.found_with(&outcome, path)?;
        self.rows.insert(outcome, found)?;
        Ok(())
    }

    /// The number of outcomes.
    pub fn len(&self) -> usize
        ensures { result ≡ length self.now }
    {
        self.rows.len()
    }

    /// The outcome at this place, and what was found of it.
    pub fn get(&self, place: usize) -> Option<(&String, &Found)>
        ensures { option_map shown_found result ≡ slice_get self.now place }
    {
        self.rows.get_index(place)
    }
}
