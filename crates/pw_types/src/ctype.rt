//! C types (ISO C90 6.1.2.5).

use crate::kind::IntKind;

/// A type without qualifiers of its own. The length of an array may be unknown; a structure or union
/// is named by its number in the list of the module's records.
#[cycle(ctype)]
pub enum CType {
    /// `void`.
    Void,
    /// An integer type.
    Int(IntKind),
    /// A pointer to this type.
    Pointer(Box<QType>),
    /// An array of elements of this type, with its length where that is known.
    Array(Box<QType>, Option<u32>),
    /// A function of this signature.
    Function(Box<Signature>),
    /// The structure or union of this number.
    Record(u32),
}

impl Drop for CType {
    #[cycle(drop_ctype)]
    fn drop(self) {
        match self {
            CType::Void | CType::Int(_) | CType::Record(_) => {}
            CType::Pointer(_) | CType::Array(_, _) | CType::Function(_) => {}
        }
    }
}

/// A type with its qualifiers `const` and `volatile` (ISO C90 6.5.3).
#[cycle(ctype)]
#[derive(Drop)]
pub struct QType {
    pub ty: CType,
    pub constant: bool,
    pub volatile: bool,
}

/// The type of a function: what it returns, and its parameters in order.
#[cycle(ctype)]
#[derive(Drop)]
pub struct Signature {
    pub result: QType,
    pub params: Vec<QType>,
}
