//! The cases of a switch.

ghost use Rattle.std.specs.Prelude.{◌≡◌, ◌==◌, [], ◌∷◌, ◌++◌, OnOk, OnErr};
ghost use Rattle.std.specs.List.{list_any};
ghost use Rattle.pw_typed.specs.Views.{view_case, view_cases};

use indexmap::IndexMap;
use pw_typed::Case;
use std::alloc::{AllocError, Global};
use std::marker::Model;

/// The cases of a switch in the order of the text. A contract sees them as that list.
#[derive(Drop)]
pub struct CaseList {
    cases: Vec<Case>,
    // The labels by the values.
    labels: IndexMap<u32, u32>,
}

impl Model for CaseList {
    ghost use Rattle.std.specs.Prelude.{List};
    ghost use Rattle.pw_types.specs.TypedTrees.{CaseValue};

    ghost Value = { List CaseValue };

    ghost use Rattle.pw_check_names.specs.Cases.{TellsValues};
    ghost use Rattle.pw_typed.specs.Views.{view_cases};

    ghost view = { λ inside. view_cases inside.cases.items };

    ghost invariant = { λ inside. TellsValues (view_cases inside.cases.items) inside.labels.entries };
}

impl CaseList {
    /// A switch without cases.
    pub fn new(alloc: Global) -> CaseList
        ensures { result ≡ [] }
    {
        CaseList {
            cases: Vec::new(alloc),
            labels: IndexMap::new(alloc),
        }
    }

    /// Puts a case behind the others.
    pub fn push(&mut self, case: Case) -> Result<(), AllocError>
        ensures ok { OnOk result (self.new ≡ self.old ++ view_case case ∷ []) }
        ensures err { OnErr result (self.new ≡ self.old) }
    {
        self.cases.reserve(1)?;
        self.labels.insert(case.value, case.label)?;
        self.cases.push(case)?;
        Ok(())
    }

    /// Whether a case has this value.
    pub fn contains(&self, value: u32) -> bool
        ensures { result ≡ list_any (λ c. c.value == value) self.now }
    {
        self.labels.get(&value).is_some()
    }

    /// The cases in the order of the text, as a `Vec`.
    pub fn into_cases(self) -> Vec<Case>
        ensures { view_cases result.items ≡ self }
    {
        let CaseList { cases, labels: _ } = self;
        cases
    }
}
