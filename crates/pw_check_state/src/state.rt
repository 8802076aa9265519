//! What is known while a module is checked.

ghost use Rattle.std.specs.Prelude.{◌≡◌, length, IfOk};
ghost use Rattle.pw_check_rules.specs.States as spec;
ghost use Rattle.pw_check_state.specs.StateViews.{view_body_state, view_state};
ghost use Rattle.pw_typed.specs.Views.{view_locals};
ghost use Rattle.pw_types.specs.Views.{view_qtype};

use pw_check_names::{Entity, HiddenObject, LinkedNames, NameList, SwitchState, VisibleNames};
use pw_check_rules::Slot;
use pw_check_types::plain;
use pw_typed::{Local, TFunction};
use pw_types::{CType, IntKind, QType, Types};
use pw_value::words::word_of;
use std::alloc::{AllocError, Global};

/// The structures and unions, of each whether its members were begun, and the names with linkage in the order of their
/// first declarations.
#[derive(Drop)]
pub struct TypeState<'a> {
    pub records: Types,
    pub opened: Vec<bool>,
    pub linked: LinkedNames<'a>,
}

/// The names in scope, and what they stand for.
#[derive(Drop)]
pub struct ScopeState<'a> {
    pub names: VisibleNames<'a>,
    pub entities: Vec<Entity>,
}

/// What was made: the objects of static lifetime in the order of their first definitions, the hidden ones among them,
/// the functions. `counting` is false in an operand of `sizeof`, where a string is no object.
#[derive(Drop)]
pub struct MadeState {
    pub slots: Vec<Slot>,
    pub hidden: Vec<HiddenObject>,
    pub functions: Vec<TFunction>,
    pub counting: bool,
}

/// The function that is read: its result, its parameters and locals so far, the names of its labels in the order of the
/// text, those that were met, how many labels there are, the switches around, the innermost last, and how many loops.
#[derive(Drop)]
pub struct BodyState<'a> {
    pub result: QType,
    pub locals: Vec<Local>,
    pub names: NameList<'a>,
    pub met: NameList<'a>,
    pub labels: u32,
    pub switches: Vec<SwitchState>,
    pub loops: u32,
}

/// What is known while a module is checked.
#[derive(Drop)]
pub struct State<'a> {
    pub types: TypeState<'a>,
    pub scopes: ScopeState<'a>,
    pub made: MadeState,
    pub body: BodyState<'a>,
}

#[tactic(auto, unfolding(crate::specs::StateViews::view_state))]
impl<'a> State<'a> {
    /// What is known at the start of a module: nothing is declared.
    pub fn new(alloc: Global) -> State<'a>
        ensures { view_state result ≡ spec.start }
    {
        State {
            types: TypeState {
                records: Types::new(alloc),
                opened: Vec::new(alloc),
                linked: LinkedNames::new(alloc),
            },
            scopes: ScopeState {
                names: VisibleNames::new(alloc),
                entities: Vec::new(alloc),
            },
            made: MadeState {
                slots: Vec::new(alloc),
                hidden: Vec::new(alloc),
                functions: Vec::new(alloc),
                counting: true,
            },
            body: BodyState::new(alloc),
        }
    }
}

impl<'a> BodyState<'a> {
    /// No function is read.
    #[tactic(auto, unfolding(pw_types::specs::Views::view_type))]
    fn new(alloc: Global) -> BodyState<'a>
        ensures { view_body_state result ≡ spec.no_body }
    {
        BodyState {
            result: plain(CType::Int(IntKind::Int)),
            locals: Vec::new(alloc),
            names: NameList::new(alloc),
            met: NameList::new(alloc),
            labels: 0,
            switches: Vec::new(alloc),
            loops: 0,
        }
    }

    /// A function is read that has this result, these parameters and these names of labels.
    pub(crate) fn begun(
        alloc: Global,
        result_type: QType,
        locals: Vec<Local>,
        names: NameList<'a>,
    ) -> Result<BodyState<'a>, AllocError>
        ensures { IfOk result (λ b. view_body_state b ≡ record spec.no_body { result = view_qtype result_type; locals = view_locals locals.items; names = names.entry; labels = length names.entry }) }
    {
        let labels = word_of(names.len())?;
        Ok(BodyState {
            result: result_type,
            locals,
            names,
            met: NameList::new(alloc),
            labels,
            switches: Vec::new(alloc),
            loops: 0,
        })
    }
}
