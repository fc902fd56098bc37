//! Accessors of a resource or an interface.

/// Whether an accessor reads or writes.
#[derive(Debug, Clone, Copy, PartialEq, Eq)]
pub enum AccessorKind {
    /// A function written `get`.
    Getter,
    /// A function written `set`.
    Setter,
}
