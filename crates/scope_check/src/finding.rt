/// What a rule finds at a node.
#[derive(Clone, Copy)]
pub enum Finding {
    /// The rule holds.
    Fine,
    /// It does not, by this name where it is one name.
    Wrong(Option<u32>),
}
