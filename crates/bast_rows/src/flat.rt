ghost use Rattle.std.specs.Prelude.{◌≡◌};
ghost use Rattle.bast_rows.specs.RowsOf.{data_from, AreSiblings};

use crate::row::Row;
use crate::siblings::{Sibling, Siblings};
use std::marker::Model;

/// The values that are left of a node, or of a list, in a tree of rows.
#[derive(Drop)]
pub struct Flat<'a> {
    rows: &'a [Row],
}

impl<'a> Model for Flat<'a> {
    ghost use Rattle.bast_schema.specs.Tree.{Data};

    ghost Value = { Data };

    ghost use Rattle.bast_schema.specs.Code.{data_code};

    ghost coded = { data_code };

    ghost use Rattle.bast_rows.specs.RowsOf.{data_from, AreSiblings};

    ghost view = { λ a. data_from a.rows.now };

    ghost invariant = { λ a. AreSiblings a.rows.now };
}

impl<'a> Flat<'a> {
    /// The values whose rows these are.
    pub(crate) fn of(rows: &'a [Row]) -> Flat<'a>
        requires { AreSiblings rows.now }
        ensures { result ≡ data_from rows.now }
    {
        Flat { rows }
    }
}

impl Siblings for Flat<'_> {
    ghost seen = { λ s. s };

    fn step(&mut self) -> Option<Sibling<Self>> {
        let (first, rest) = self.rows.split_first()?;
        match *first {
            Row::Node { kind, rows } => {
                let (inside, behind) = rest.split_at(rows as usize - 1);
                self.rows = behind;
                Some(Sibling::Node(kind, Flat { rows: inside }))
            }
            Row::List { count, rows } => {
                let (inside, behind) = rest.split_at(rows as usize - 1);
                self.rows = behind;
                Some(Sibling::List(count as usize, Flat { rows: inside }))
            }
            Row::Absent => {
                self.rows = rest;
                Some(Sibling::Absent)
            }
            Row::Bool(truth) => {
                self.rows = rest;
                Some(Sibling::Bool(truth))
            }
            Row::Index(index) => {
                self.rows = rest;
                Some(Sibling::Index(index))
            }
            Row::Whole(whole) => {
                self.rows = rest;
                Some(Sibling::Whole(whole))
            }
            Row::Name(name) => {
                self.rows = rest;
                Some(Sibling::Name(name))
            }
            Row::NoName => {
                self.rows = rest;
                Some(Sibling::NoName)
            }
            Row::Choice(choice) => {
                self.rows = rest;
                Some(Sibling::Choice(choice))
            }
            Row::Window { from, to } => {
                self.rows = rest;
                Some(Sibling::Window { from, to })
            }
        }
    }

    fn again(&self) -> Self {
        Flat { rows: self.rows }
    }
}
