//! What a declaration declares.

ghost use Rattle.std.specs.Prelude.{◌≡◌};
ghost use Rattle.pw_check_state.specs.PhraseViews.{view_specified};
ghost use Rattle.pw_check_decl_names.specs.Views.{view_sort};
ghost use Rattle.pw_check_linkage.specs.Views.{view_asking};
ghost use Rattle.pw_check_rules.specs.Declarations as spec;
ghost use Rattle.pw_check_rules.specs.SpecifierLists as lists;
ghost use Rattle.pw_types.specs.Views.{view_qtype};

use pw_check_linkage::Asking;
use pw_check_state::Specified;
use pw_check_types::is_function;
use pw_tree::StorageClass;
use pw_types::QType;

/// A typedef name; a function; at file scope an object; in a block an object that is declared `extern`, a static one,
/// and one of automatic storage duration.
#[derive(Clone, Copy)]
pub enum Sort {
    /// A typedef name (C90 6.5.6).
    ATypedef,
    /// A function.
    AFunction,
    /// An object at file scope.
    AGlobal,
    /// An object that a block declares `extern`.
    AnExtern,
    /// A static object of a block.
    AStatic,
    /// An object of a block of automatic storage duration.
    ALocal,
}

/// Whether a declaration says `typedef`.
fn is_typedef(storage: Option<StorageClass>) -> bool
    ensures { result ≡ lists.is_typedef storage }
{
    match storage {
        Some(StorageClass::Typedef) => true,
        _ => false,
    }
}

/// Whether a declaration says `extern`.
pub fn is_extern(storage: Option<StorageClass>) -> bool
    ensures { result ≡ lists.is_extern storage }
{
    match storage {
        Some(StorageClass::Extern) => true,
        _ => false,
    }
}

/// Whether a declaration says `static`.
pub fn is_static(storage: Option<StorageClass>) -> bool
    ensures { result ≡ lists.is_static storage }
{
    match storage {
        Some(StorageClass::Static) => true,
        _ => false,
    }
}

/// Whether a declaration says `auto`.
pub fn is_auto(storage: Option<StorageClass>) -> bool
    ensures { result ≡ lists.is_auto storage }
{
    match storage {
        Some(StorageClass::Auto) => true,
        _ => false,
    }
}

/// Whether a declaration says `register`.
pub fn is_register(storage: Option<StorageClass>) -> bool
    ensures { result ≡ lists.is_register storage }
{
    match storage {
        Some(StorageClass::Register) => true,
        _ => false,
    }
}

/// What is declared, at file scope or in a block.
pub fn sort_of(outside: bool, specified: &Specified, q: &QType) -> Sort
    ensures { view_sort result ≡ spec.sort_of outside (view_specified specified.now) (view_qtype q.now) }
{
    if is_typedef(specified.storage) {
        Sort::ATypedef
    } else if is_function(&q.ty) {
        Sort::AFunction
    } else if outside {
        Sort::AGlobal
    } else if is_extern(specified.storage) {
        Sort::AnExtern
    } else if is_static(specified.storage) {
        Sort::AStatic
    } else {
        Sort::ALocal
    }
}

/// How a declaration asks for linkage (C90 6.1.2.2).
pub fn asking_of(sort: Sort, specified: &Specified) -> Asking
    ensures { view_asking result ≡ spec.asking_of (view_sort sort) (view_specified specified.now) }
{
    if is_static(specified.storage) {
        return Asking::AsInternal;
    }
    match sort {
        Sort::AGlobal if !is_extern(specified.storage) => Asking::AsExternal,
        _ => Asking::AsBefore,
    }
}

/// Whether an object at file scope without an initialiser is defined tentatively (C90 6.7.2).
pub fn is_tentative(specified: &Specified) -> bool
    ensures { result ≡ spec.is_tentative (view_specified specified.now) }
{
    specified.storage.is_none() || is_static(specified.storage)
}
