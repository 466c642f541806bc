ghost use Rattle.std.specs.Prelude.{◌≡◌, ◌+◌, ◌<◌, ◌≤◌, ◌^◌, ◌∷◌, ◌++◌, [], length, slice_get, Some, IfOk, IsTrue};
ghost use Rattle.bast_rows.specs.RowsOf.{rows_of, AreOf};
ghost use Rattle.bast_rows.specs.Room.{AreWhole};
ghost use Rattle.bast_schema.specs.Counts.{size};
ghost use Rattle.bast_schema.specs.Tree.{Tree, branch, depth, typed};

use crate::flat::Flat;
use crate::making::make_node;
use crate::putting::put_node;
use crate::room::Room;
use crate::row::Row;
use bast_base::Memory;
use bast_schema::{Kind, Node, values_left};
use std::alloc::Global;
use std::marker::Model;

/// A tree as rows, well typed and at most 512 deep, as every tree of nodes is.
#[derive(Drop)]
pub struct Rows {
    rows: Vec<Row>,
}

impl Model for Rows {
    ghost use Rattle.bast_schema.specs.Tree.{Tree};

    ghost Value = { Tree };

    ghost use Rattle.bast_schema.specs.Code.{tree_code};

    ghost coded = { tree_code };

    ghost use Rattle.bast_rows.specs.RowsOf.{tree_from, AreRows};

    ghost view = { λ a. tree_from a.rows.items };

    ghost invariant = { λ a. AreRows a.rows.items };
}

impl Rows {
    /// The rows of a tree of nodes. Their memory is taken at once; there is none for a tree of 2^32 values or more.
    pub fn of(alloc: Global, tree: &Node) -> Result<Rows, Memory>
        ensures { IfOk result (λ rows. rows ≡ tree.now) }
    {
        let _kind = tree.kind();
        let _depth = tree.depth();
        let Some(left) = values_left(tree, u32::MAX) else {
            return Err(Memory);
        };
        let mut room = Room::new(alloc, u32::MAX - left)?;
        put_node(tree, &mut room);
        Ok(room.finish())
    }

    /// The tree of rows that are those of one.
    pub(crate) fn whole(rows: Vec<Row>) -> Rows
        requires whole { AreWhole rows.items }
        requires few { length rows.items < 2 ^ 32 }
        ensures rows { rows_of result ≡ rows.items }
        ensures is { (t : Tree) → AreOf rows.items t → result ≡ t }
    {
        Rows { rows }
    }

    /// How many rows there are.
    pub fn len(&self) -> u32
        ensures { result ≡ length (rows_of self.now) }
    {
        self.rows.len() as u32
    }

    /// The row at a place.
    pub fn row(&self, at: u32) -> Row
        requires { at < length (rows_of self.now) }
        ensures { slice_get (rows_of self.now) at ≡ Some result }
    {
        self.rows[at as usize]
    }

    /// The kind of the root, and its values.
    pub fn root(&self) -> (Kind, Flat<'_>)
        ensures tree { branch result.0 result.1 ≡ self.now }
        ensures typed { IsTrue (typed self.now) }
        ensures depth { depth self.now ≤ 512 }
    {
        match self.rows.split_first() {
            Some((Row::Node { kind, .. }, rest)) => (*kind, Flat::of(rest)),
            _ => unreachable!(),
        }
    }

    /// The tree as nodes.
    pub fn to_node(&self, alloc: Global) -> Result<Node, Memory>
        ensures { IfOk result (λ node. node ≡ self.now) }
    {
        let (kind, values) = self.root();
        make_node(alloc, kind, values)
    }

    /// The same rows again.
    pub fn copy(&self) -> Result<Rows, Memory>
        ensures { IfOk result (λ rows. rows ≡ self.now) }
    {
        Ok(Rows {
            rows: self.rows.clone()?,
        })
    }
}
