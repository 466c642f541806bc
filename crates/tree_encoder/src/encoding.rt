ghost use Rattle.std.specs.Prelude.{◌≡◌, ◌≤◌, ◌<◌, Err, IsTrue, length, IfOk};
ghost use Rattle.bast_schema.specs.Counts.{is_whole};
ghost use Rattle.bast_schema.specs.Eager.{is_eager};
ghost use Rattle.bast_schema.specs.Tree.{kind_of};
ghost use Rattle.bast_schema.specs.declared.kind.Kind.TheVariants.{Script};
ghost use Rattle.container.specs.InFile.{InFile};
ghost use Rattle.container.specs.Named.{named};
ghost use Rattle.tree_encoder.specs.File.{file, most_bytes, texts_held};

use crate::EncodeFault;
use crate::length::is_small;
use crate::nodes::put_node;
use crate::writer::Writer;
use bast_schema::Node;
use container::write_file;
use std::alloc::Global;
use string_table::StringTable;

/// The file of a tree whose names stand for the entries of a table of strings.
/// The kinds and texts that it uses are numbered in order of first use, in preorder.
/// It is `TooLarge` where the file would be larger than 8,388,608 bytes, which then is not made.
pub fn encode(alloc: Global, tree: &Node, strings: &StringTable) -> Result<Vec<u8>, EncodeFault>
    requires whole { IsTrue (is_whole tree.now) }
    requires eager { IsTrue (is_eager tree.now) }
    ensures file { IfOk result (λ bytes. bytes.items ≡ file (texts_held strings.now) tree.now) }
    ensures within { IfOk result (λ bytes. length bytes.items ≤ most_bytes) }
    ensures in_grammar { IfOk result (λ bytes. kind_of tree.now ≡ Script → IsTrue (named (texts_held strings.now) tree.now) → InFile bytes.items (texts_held strings.now) tree.now) }
    ensures too_large { result ≡ Err EncodeFault.TooLarge → most_bytes < length (file (texts_held strings.now) tree.now) }
{
    // So the proof knows that the tree is well typed and not too deep.
    let (_kind, _depth) = (tree.kind(), tree.depth());
    let mut writer = Writer::new(alloc, strings)?;
    put_node(tree, strings, &mut writer)?;
    if !is_small(&writer.kinds, &writer.texts, &writer.bytes) {
        return Err(EncodeFault::TooLarge);
    }
    Ok(write_file(alloc, &writer.kinds, &writer.texts, &writer.bytes)?)
}
