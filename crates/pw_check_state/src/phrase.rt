//! What specifiers and declarators say (C90 6.5.1 to 6.5.4).

use pw_check_rules::Tag;
use pw_tree::{BasicType, Qualifier, StorageClass, Word};
use pw_types::QType;

/// Where the faults of a type stand: at the declared name, or without one at the first specifier; the first specifier;
/// the tag that the specifiers brought in.
#[derive(Clone, Copy)]
pub struct Spot {
    pub token: usize,
    pub specifier: usize,
    pub tag: Option<usize>,
}

/// What a list of specifiers has, in its order: storage classes, how many qualifiers of each kind, keywords of types,
/// and other types; a tag that it brings in.
#[derive(Drop)]
pub struct Gathered {
    pub storages: Vec<StorageClass>,
    pub constants: usize,
    pub volatiles: usize,
    pub words: Vec<BasicType>,
    /// Structures, unions, enumerations and typedef names.
    pub others: Vec<QType>,
    pub tag: Option<usize>,
}

/// What a list of specifiers says: the storage class, the type with its qualifiers, the tag that it brings in, its
/// first token.
#[derive(Drop)]
pub struct Specified {
    pub storage: Option<StorageClass>,
    pub ty: QType,
    pub tag: Option<usize>,
    pub first: usize,
}

/// One step of a declarator outward: a pointer by its `*` and its qualifiers, an array by its length, a function by its
/// parameters.
#[derive(Drop)]
pub enum Derivation<'a> {
    /// A pointer: the token of its `*`, and its qualifiers.
    ToPointer(usize, &'a [Qualifier]),
    /// An array of this length, or of none that is known.
    ToArray(Option<u32>),
    /// A function of parameters of these types.
    ToFunction(Vec<QType>),
}

/// A parameter: its name and its type.
#[derive(Drop)]
pub struct Parameter<'a> {
    pub name: Option<&'a Word>,
    pub ty: QType,
}

/// What a parameter list declares, for the function's body: its parameters, and the names in its scope with the places
/// of their entities, and the tags.
#[derive(Drop)]
pub struct Bindings<'a> {
    pub parameters: Vec<Parameter<'a>>,
    pub ordinary: Vec<(&'a [u8], u32)>,
    pub tags: Vec<(&'a [u8], Tag)>,
}

/// What a declarator says: its name, its steps from the type of the specifiers outward, and what the parameter list
/// nearest to the name declares.
#[derive(Drop)]
pub struct Declared<'a> {
    pub name: Option<&'a Word>,
    pub derivations: Vec<Derivation<'a>>,
    pub bindings: Option<Bindings<'a>>,
}
