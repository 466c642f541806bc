ghost use Rattle.std.specs.Prelude.{◌≡◌, true};
ghost use Rattle.bast_schema.specs.Tree.{Data};
ghost use Rattle.bast_rows.specs.Siblings.{before, Counts, is_typed};

use bast_base::NameId;
use bast_schema::{Kind, Value};

/// A value of a tree, with the values inside it as `S`.
#[derive(Drop)]
pub enum Sibling<S> {
    /// A node of a kind, with the values of its fields.
    Node(Kind, S),
    Absent,
    /// A list of so many values.
    List(usize, S),
    Bool(bool),
    /// The place of a parameter.
    Index(u32),
    Whole(u64),
    /// A text, a name or a label, as its number in the table of strings.
    Name(NameId),
    /// No label.
    NoName,
    /// The number of a text of the field's set.
    Choice(u8),
    /// The bytes that spell a lazy field's node.
    Window { from: u32, to: u32 },
}

/// Values of a tree, one after the other, that are walked from the left.
///
/// A walk that is generic in this trait is proved once, and serves trees of nodes (`Boxed`) and trees of rows (`Flat`).
pub trait Siblings: Drop {
    ghost seen: { Self → Data };

    /// Takes the first value, where there is one.
    fn step(&mut self) -> Option<Sibling<Self>>
        ensures values { seen self.old ≡ before seen result (seen self.new) }
        ensures counts { Counts seen result }
        ensures typed { is_typed seen result ≡ true };

    /// The same values again, in two words.
    fn again(&self) -> Self
        ensures { seen result ≡ seen self.now };
}
