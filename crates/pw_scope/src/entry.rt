//! One entry of the log.

/// A name with what it stands for, and the place of the entry of the same name that it hides.
#[derive(Clone, Copy)]
pub(crate) struct Entry<'a, T> {
    pub(crate) name: &'a [u8],
    pub(crate) meaning: T,
    pub(crate) hidden: Option<usize>,
}
