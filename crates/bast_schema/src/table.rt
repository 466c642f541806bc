ghost use Rattle.std.specs.Prelude.{◌≡◌, ℕ, ◌≤◌, ◌<◌, [], length, slice_get, Option, Some, Ok, IfOk, IfSome, is_ok, if◌then◌else◌};
ghost use Rattle.std.specs.List.{IsDistinct, position_from};
ghost use Rattle.bast_schema.specs.Kinds.{same_kind};
ghost use Rattle.bast_schema.specs.KindTable.{place_of, added_of, with_kind};

use crate::kind::Kind;
use crate::names::{kind_at, number_of};
use bast_base::Memory;
use std::alloc::Global;
use std::marker::Model;

/// The kinds that a file names, each once. A kind's number is its place here, from 0.
#[derive(Debug, Drop)]
pub struct KindTable {
    kinds: Vec<Kind>,
}

impl Model for KindTable {
    ghost use Rattle.std.specs.Prelude.{List};
    ghost use Rattle.std.specs.Coded.{coded_list};
    ghost use Rattle.std.specs.List.{IsDistinct};
    ghost use Rattle.bast_schema.specs.Kinds.{same_kind};
    ghost use Rattle.bast_schema.specs.declared.kind.Kind.{Kind};
    ghost use Rattle.bast_schema.specs.contracts.kind.Kind as kind;

    ghost Value = { List Kind };

    ghost coded = { coded_list kind.the_row.coded };

    ghost view = { λ t. t.kinds.items };

    ghost invariant = { λ t. IsDistinct same_kind t.kinds.items };
}

/// Where a kind that was added stands.
#[derive(Clone, Copy, Debug, PartialEq, Eq)]
pub enum Added {
    /// At the end, with this number: it was not there.
    New(u32),
    /// At this number, as before.
    There(u32),
}

impl KindTable {
    /// A table without kinds. It takes no memory.
    pub fn new(alloc: Global) -> KindTable
        ensures { result ≡ [] }
    {
        KindTable {
            kinds: Vec::new(alloc),
        }
    }

    /// Adds a kind at the end, unless it is there. It takes memory only for a kind that was not there.
    pub fn add(&mut self, kind: Kind) -> Result<Added, Memory>
        ensures answer { IfOk result (λ a. a ≡ added_of self.old kind) }
        ensures kinds { self.new ≡ (if is_ok result then with_kind self.old kind else self.old) }
        ensures there { (n : ℕ) → place_of self.old kind ≡ Some n → result ≡ Ok (Added.There n) }
    {
        match self.number(kind) {
            Some(number) => Ok(Added::There(number)),
            None => {
                let number = self.len();
                self.kinds.push(kind)?;
                Ok(Added::New(number))
            }
        }
    }

    /// The kind with a number, where there is one.
    pub fn get(&self, number: u32) -> Option<Kind>
        ensures { result ≡ slice_get self.now number }
    {
        kind_at(self.kinds.as_slice(), number as usize)
    }

    /// The number of a kind, where it is there.
    pub fn number(&self, kind: Kind) -> Option<u32>
        ensures { result ≡ place_of self.now kind }
    {
        match place_in(self.kinds.as_slice(), kind) {
            Some(place) => Some(place as u32),
            None => None,
        }
    }

    /// The kinds, in order.
    pub fn as_slice(&self) -> &[Kind]
        ensures is { result.now ≡ self.now }
        ensures few { length result.now ≤ 82 }
    {
        self.kinds.as_slice()
    }

    /// How many kinds there are.
    pub fn len(&self) -> u32
        ensures is { result ≡ length self.now }
        ensures few { result ≤ 82 }
        ensures distinct { IsDistinct same_kind self.now }
    {
        self.kinds.len() as u32
    }
}

/// The place of a kind in a list.
fn place_in(kinds: &[Kind], kind: Kind) -> Option<usize>
    ensures is { result ≡ position_from (λ j. same_kind j kind) 0 kinds.now }
    ensures within { IfSome result (λ n. n < length kinds.now) }
{
    kinds
        .iter()
        .position(|other| number_of(*other) == number_of(kind))
}
