//! Names: of functions, of objects with static lifetime and of modules.

ghost use Rattle.std.specs.Prelude.{◌≡◌, ◌↔◌, length, IfOk, Err, ◌==◌};
ghost use Rattle.std.proofs.Common.{rules};
ghost use Rattle.std.specs.Cmp.{partial_order_from_own_ties};
ghost use Rattle.std.specs.Cmp.Rules.{comparing};
ghost use Rattle.std.specs.Cmp.Lexicographic.{pointwise, slice_cmp};
ghost use Rattle.std.specs.Ordering.{nat_cmp, as_partial_cmp};
ghost use Rattle.pw_value.specs.Names.{IsNameLength};

use crate::limits::NAME_LIMIT;
use std::alloc::{AllocError, Global};
use std::cmp::Ordering;
use std::marker::Model;

/// A name: 1 to `NAME_LIMIT` bytes, of any values. Names are equal where their bytes are, and they are ordered
/// byte by byte, a proper prefix first. A contract sees a name as the list of its bytes.
#[derive(Debug, Drop)]
pub struct Name {
    bytes: Vec<u8>,
}

impl Model for Name {
    ghost use Rattle.std.specs.Prelude.{ℕ, List, length};
    ghost use Rattle.pw_value.specs.Names.{IsNameLength};

    ghost Value = { List ℕ };

    ghost view = { λ inside. inside.bytes.items };

    ghost invariant = { λ inside. IsNameLength (length inside.bytes.items) };
}

/// Why there is no name: the count of bytes is 0 or passes `NAME_LIMIT`, or there is no memory.
#[derive(Clone, Copy, Debug)]
pub enum NameError {
    Length,
    NoMemory,
}

impl From<AllocError> for NameError {
    ghost use Rattle.pw_value.specs.declared.name.NameError.TheVariants.{NoMemory};

    ghost from_gives = { λ _ error. error ≡ NoMemory };

    fn from(_none: AllocError) -> NameError {
        NameError::NoMemory
    }
}

impl Name {
    /// The name of these bytes.
    pub fn new(alloc: Global, bytes: &[u8]) -> Result<Name, NameError>
        ensures holds { IfOk result (λ name. name ≡ bytes.now) }
        ensures refuses { result ≡ Err NameError.Length ↔ ¬ IsNameLength (length bytes.now) }
    {
        if bytes.is_empty() || bytes.len() > NAME_LIMIT {
            return Err(NameError::Length);
        }
        Ok(Name {
            bytes: Vec::from_slice(alloc, bytes)?,
        })
    }

    /// The name of these bytes, which the rules that the caller keeps to let a name have.
    ///
    /// # Errors
    ///
    /// `AllocError` for want of memory, and where no name may have the bytes.
    pub fn lawful(alloc: Global, bytes: &[u8]) -> Result<Name, AllocError>
        ensures { IfOk result (λ name. name ≡ bytes.now) }
    {
        match Name::new(alloc, bytes) {
            Ok(name) => Ok(name),
            Err(_) => Err(AllocError),
        }
    }

    /// The name of bytes of which there are as many as a name may have.
    pub fn within(alloc: Global, bytes: &[u8]) -> Result<Name, AllocError>
        requires { IsNameLength (length bytes.now) }
        ensures { IfOk result (λ name. name ≡ bytes.now) }
    {
        Ok(Name {
            bytes: Vec::from_slice(alloc, bytes)?,
        })
    }

    /// The name's bytes.
    pub fn as_bytes(&self) -> &[u8]
        ensures bytes { result.now ≡ self.now }
        ensures length { IsNameLength (length self.now) }
    {
        self.bytes.as_slice()
    }

    /// Another name of the same bytes.
    pub fn copy(&self, alloc: Global) -> Result<Name, AllocError>
        ensures { IfOk result (λ name. name ≡ self.now) }
    {
        Name::within(alloc, self.as_bytes())
    }
}

impl PartialEq for Name {
    ghost eq = { pointwise ◌==◌ };

    ghost laws = { Prim.search (comparing, rules) };

    fn eq(&self, other: &Name) -> bool {
        self.bytes.as_slice() == other.bytes.as_slice()
    }
}

impl Eq for Name {
    ghost laws = { Prim.search (comparing, rules) };
}

impl Ord for Name {
    ghost cmp = { slice_cmp nat_cmp };

    ghost total = { Prim.search (comparing, rules) };

    ghost matches_partial_cmp = { Prim.search (comparing, rules) };

    ghost matches_eq = { Prim.search (comparing, rules) };

    fn cmp(&self, other: &Name) -> Ordering {
        self.bytes.as_slice().cmp(other.bytes.as_slice())
    }
}

impl PartialOrd for Name {
    ghost partial_cmp = { as_partial_cmp (slice_cmp nat_cmp) };

    ghost laws = { partial_order_from_own_ties (Prim.search (comparing, rules)) (Prim.search (comparing, rules)) };

    fn partial_cmp(&self, other: &Name) -> Option<Ordering> {
        Some(self.cmp(other))
    }
}
