//! Where a declarator stands.

/// Where a declarator stands, and with that whether it has a name.
#[derive(Clone, Copy)]
pub enum Place {
    /// In a declaration of objects, functions or members: it has a name (C90 6.5.4).
    Named,
    /// In a type name: it has none (6.5.5).
    Nameless,
    /// In a parameter: it may have one (6.5.4.3).
    Either,
}
