//! The tables of settings, and the walks over them.

/// Which table of settings it is: the document, or one of its arrays of tables.
#[derive(Clone, Copy)]
pub enum TableKind {
    Top,
    Hosted,
    Proxy,
    Group,
}

/// What a walk over the tables looks for.
#[derive(Clone, Copy)]
pub enum Walk {
    /// A name that is no key of its table.
    Unknown,
    /// A required key that a table lacks.
    Missing,
    /// A key whose value does not fit.
    Unfit,
}
