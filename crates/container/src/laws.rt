ghost use Rattle.container.specs.Laws.{HasByteForEachValue, IsReadBack, IsReadOneWay, IsSpelledByAtoms, IsToldWhereChanged, IsToldWhereEnded, IsToldWhereMore, LayoutsAreContainers};

/// A container is read as the tables and the tree's bytes that it was written of. It does nothing: its clause is the law.
pub fn container_is_read_back()
    ensures { IsReadBack }
{}

/// A container has one reading. It does nothing: its clause is the law.
pub fn container_has_one_reading()
    ensures { IsReadOneWay }
{}

/// Nothing but a container has a layout. It does nothing: its clause is the law.
pub fn layouts_are_containers()
    ensures { LayoutsAreContainers }
{}

/// A container that breaks off is `Ended` where it does, whatever is read before. It does nothing: its clause is the law.
pub fn container_is_ended_where_it_breaks_off()
    ensures { IsToldWhereEnded }
{}

/// Where a byte of `BINJS`, of a section's name or of `identity;` is another, that is a container's first fault. It does
/// nothing: its clause is the law.
pub fn changed_byte_is_first_fault()
    ensures { IsToldWhereChanged }
{}

/// Bytes after a container are `Trailing` where they begin. It does nothing: its clause is the law.
pub fn bytes_after_container_are_trailing()
    ensures { IsToldWhereMore }
{}

/// A well-typed tree whose lazy contents are windows is spelled as its atoms, one after another. It does nothing: its
/// clause is the law.
pub fn trees_are_spelled_by_atoms()
    ensures { IsSpelledByAtoms }
{}

/// A well-typed tree is spelled in at least as many bytes as it has values. It does nothing: its clause is the law.
pub fn trees_have_no_more_values_than_bytes()
    ensures { HasByteForEachValue }
{}
