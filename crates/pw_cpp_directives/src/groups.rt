//! Groups of conditional inclusion.

ghost use Rattle.std.specs.Prelude.{◌≡◌, false};
ghost use Rattle.pw_cpp_directives.specs.Groups as spec;

/// A section of groups from its `#if`, `#ifdef` or `#ifndef` on, whose `#endif` was not read yet (C90 6.8.1).
#[derive(Clone, Copy)]
pub struct Section {
    /// A group of it was taken before, or is.
    pub taken: bool,
    /// The group at hand is taken.
    pub active: bool,
    /// Its `#else` was read.
    pub behind_else: bool,
}

/// A section behind its `#if`, `#ifdef` or `#ifndef` with what that says.
pub fn opened(holds: bool) -> Section
    ensures { result ≡ spec.section holds holds false }
{
    Section {
        taken: holds,
        active: holds,
        behind_else: false,
    }
}

/// A section behind an `#elif` that holds or does not.
pub fn with_elif(holds: bool, section: Section) -> Section
    ensures { result ≡ spec.with_elif holds section }
{
    Section {
        taken: section.taken || holds,
        active: !section.taken && holds,
        behind_else: false,
    }
}

/// A section behind its `#else`.
pub fn with_else(section: Section) -> Section
    ensures { result ≡ spec.with_else section }
{
    Section {
        taken: true,
        active: !section.taken,
        behind_else: true,
    }
}

/// Whether the name of a directive opens a section.
pub fn is_opening(name: &[u8]) -> bool
    ensures { result ≡ spec.is_opening name.now }
{
    name == b"if".as_slice() || name == b"ifdef".as_slice() || name == b"ifndef".as_slice()
}

/// A word that goes on with a section.
pub fn is_turn(name: &[u8]) -> bool
    ensures { result ≡ spec.is_turn name.now }
{
    name == b"elif".as_slice() || name == b"else".as_slice() || name == b"endif".as_slice()
}
