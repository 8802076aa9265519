//! The function that is read, as the state knows it.

ghost use Rattle.std.specs.Prelude.{◌≡◌, ◌≤◌, ◌-◌, ◌^◌, not, ◌||◌, nat_lt, length, option_map, OnOk, OnErr, IfOk};
ghost use Rattle.std.specs.List.{list_any};
ghost use Rattle.std.specs.Option.{option_copied, option_map_or};
ghost use Rattle.pw_types.specs.declared.kind.IntKind.TheVariants as K;
ghost use Rattle.pw_check_rules.specs.States as spec;
ghost use Rattle.pw_check_rules.specs.Declarations.{put_local};
ghost use Rattle.pw_check_rules.specs.Functions.{declared_again};
ghost use Rattle.pw_check_rules.specs.Leaves.{is_nil};
ghost use Rattle.pw_check_rules.specs.Statements as statements;
ghost use Rattle.pw_check_state.specs.Changes as changes;
ghost use Rattle.pw_check_names.specs.EntityViews.{view_switch};
ghost use Rattle.pw_check_state.specs.PhraseViews.{view_bindings};
ghost use Rattle.pw_check_state.specs.StateViews.{view_body_state, view_state};
ghost use Rattle.pw_typed.specs.Views.{view_case, view_local, view_locals};
ghost use Rattle.pw_types.specs.Views.{view_qtype};

use crate::phrase::Bindings;
use crate::places::put;
use crate::state::{BodyState, State};
use pw_check_names::{CaseList, NameList, SwitchState};
use pw_typed::{Case, Local};
use pw_types::{IntKind, QType};
use pw_value::words::{next_word, word_of};
use std::alloc::{AllocError, Global};

#[tactic(auto, unfolding(crate::specs::StateViews::view_state), using(crate::proofs::PlaceLemmas::map_push, crate::proofs::PlaceLemmas::length_map, crate::proofs::PlaceLemmas::map_put_at, crate::proofs::PlaceLemmas::reverse_push))]
impl<'a> State<'a> {
    /// A body is read: it has this result, these parameters and these names of labels, and the names and tags of the
    /// parameter list stand in its scope.
    pub fn enter_body(
        &mut self,
        alloc: Global,
        result_type: QType,
        locals: Vec<Local>,
        bindings: &Bindings<'a>,
        names: NameList<'a>,
    ) -> Result<(), AllocError>
        ensures { OnOk result (view_state self.new ≡ changes.entered_body (view_qtype result_type) (view_locals locals.items) (view_bindings bindings.now) names.entry (view_state self.old)) }
    {
        let body = BodyState::begun(alloc, result_type, locals, names)?;
        self.put_body(body);
        self.enter_parameters(bindings)?;
        Ok(())
    }

    // Another body is read.
    fn put_body(&mut self, body: BodyState<'a>)
        ensures { view_state self.new ≡ spec.with_body (λ _. view_body_state body.entry) (view_state self.old) }
    {
        self.body = body;
    }

    // A scope is entered with the names and tags of the parameter list.
    fn enter_parameters(&mut self, bindings: &Bindings<'a>) -> Result<(), AllocError>
        ensures { OnOk result (view_state self.new ≡ spec.with_scopes (declared_again (view_bindings bindings.now)) (spec.one_deeper (view_state self.old))) }
    {
        self.one_deeper()?;
        self.declare_again(bindings)?;
        Ok(())
    }

    /// The type that the function returns.
    pub fn result_type(&self) -> &QType
        ensures { view_qtype result.now ≡ (view_state self.now).body.result }
    {
        &self.body.result
    }

    /// The parameters and locals so far.
    pub fn locals(&self) -> &[Local]
        ensures { view_locals result.now ≡ (view_state self.now).body.locals }
    {
        self.body.locals.as_slice()
    }

    /// The place of the next local. What 32 bits cannot count is want of memory.
    pub fn next_local(&self) -> Result<u32, AllocError>
        ensures place { IfOk result (λ n. n ≡ spec.next_local (view_state self.now)) }
        ensures wants { OnErr result (2 ^ 32 ≤ length (view_state self.now).body.locals) }
    {
        Ok(word_of(self.body.locals.len())?)
    }

    /// Puts a local behind the others of the function that is read.
    pub fn add_local(&mut self, local: Local) -> Result<(), AllocError>
        ensures { OnOk result (view_state self.new ≡ spec.add_local (view_local local) (view_state self.old)) }
    {
        self.body.locals.push(local)?;
        Ok(())
    }

    /// Replaces the local at a place. A place past the end changes nothing.
    pub fn put_local(&mut self, place: u32, local: Local)
        ensures { view_state self.new ≡ put_local place (view_local local) (view_state self.old) }
    {
        put(&mut self.body.locals, place, local);
    }

    /// How many labels the function has so far.
    pub fn labels(&self) -> u32
        ensures { result ≡ (view_state self.now).body.labels }
    {
        self.body.labels
    }

    /// How many names of labels the function has.
    pub fn named(&self) -> usize
        ensures { result ≡ length (view_state self.now).body.names }
    {
        self.body.names.len()
    }

    /// The number of a label more. What 32 bits cannot count is want of memory.
    pub fn next_label(&mut self) -> Result<u32, AllocError>
        ensures number { IfOk result (λ n. n ≡ (view_state self.old).body.labels) }
        ensures state { OnOk result (view_state self.new ≡ changes.with_label (view_state self.old)) }
        ensures wants { OnErr result ((view_state self.old).body.labels ≡ 2 ^ 32 - 1) }
    {
        let label = self.body.labels;
        self.body.labels = next_word(label)?;
        Ok(label)
    }

    /// The number of a label by its name.
    pub fn place_of_label(&self, name: &[u8]) -> Option<u32>
        ensures { result ≡ statements.place_of_label (view_state self.now) name.now }
    {
        self.body.names.position(name)
    }

    /// Whether a label of this name stood before.
    pub fn is_met(&self, name: &[u8]) -> bool
        ensures { result ≡ statements.has_name (view_state self.now).body.met name.now }
    {
        self.body.met.contains(name)
    }

    /// Notes that a label's statement is met (C90 6.6.1), so that a second one of its name is refused.
    pub fn note_label(&mut self, name: &'a [u8]) -> Result<(), AllocError>
        ensures { OnOk result (view_state self.new ≡ changes.with_met name.now (view_state self.old)) }
    {
        self.body.met.push(name)?;
        Ok(())
    }

    /// What is known of the innermost switch around (C90 6.6.4.2), its type and its cases so far, or None outside
    /// every switch.
    #[tactic(auto, unfolding(crate::specs::StateViews::view_state), using(crate::proofs::SwitchLemmas::first_last))]
    pub fn innermost_switch(&self) -> Option<&SwitchState>
        ensures { option_map view_switch (option_copied result) ≡ statements.innermost_switch (view_state self.now) }
    {
        self.body.switches.last()
    }

    /// Enters a switch over values of this type.
    pub fn enter_switch(&mut self, alloc: Global, kind: IntKind) -> Result<(), AllocError>
        ensures { OnOk result (view_state self.new ≡ statements.enter_switch kind (view_state self.old)) }
    {
        self.body.switches.push(SwitchState {
            kind,
            cases: CaseList::new(alloc),
            default: None,
        })?;
        Ok(())
    }

    /// Leaves a switch, and answers what is known of it; of none that it has no cases.
    #[tactic(auto, unfolding(crate::specs::StateViews::view_state), using(crate::proofs::PlaceLemmas::reverse_push))]
    pub fn leave_switch(&mut self, alloc: Global) -> SwitchState
        ensures switch { view_switch result ≡ option_map_or (λ w. w) (statements.innermost_switch (view_state self.old)) (statements.switch_of K.Int) }
        ensures state { view_state self.new ≡ statements.leave_switch (view_state self.old) }
    {
        match self.body.switches.pop() {
            Some(switch) => switch,
            None => SwitchState {
                kind: IntKind::Int,
                cases: CaseList::new(alloc),
                default: None,
            },
        }
    }

    /// The innermost switch has a case more.
    #[tactic(auto, unfolding(crate::specs::StateViews::view_state), using(crate::proofs::SwitchLemmas::none_changed))]
    pub fn add_case(&mut self, case: Case) -> Result<(), AllocError>
        ensures { OnOk result (view_state self.new ≡ changes.with_case (view_case case) (view_state self.old)) }
    {
        if let Some(switch) = self.body.switches.last_mut() {
            switch.cases.push(case)?;
        }
        Ok(())
    }

    /// The default of the innermost switch is this label.
    #[tactic(auto, unfolding(crate::specs::StateViews::view_state), using(crate::proofs::SwitchLemmas::none_changed))]
    pub fn set_default(&mut self, label: u32)
        ensures { view_state self.new ≡ changes.with_default label (view_state self.old) }
    {
        if let Some(switch) = self.body.switches.last_mut() {
            switch.default = Some(label);
        }
    }

    /// How many loops are around.
    pub fn loops(&self) -> u32
        ensures { result ≡ (view_state self.now).body.loops }
    {
        self.body.loops
    }

    /// Whether a loop or a switch is around.
    #[tactic(auto, unfolding(crate::specs::StateViews::view_state), using(crate::proofs::SwitchLemmas::some_shown, crate::proofs::SwitchLemmas::some_innermost))]
    pub fn is_breakable(&self) -> bool
        ensures { result ≡ (nat_lt 0 (view_state self.now).body.loops || not (is_nil (view_state self.now).body.switches)) }
    {
        self.body.loops > 0 || self.innermost_switch().is_some()
    }

    /// Enters a loop. What 32 bits cannot count is want of memory.
    pub fn enter_loop(&mut self) -> Result<(), AllocError>
        ensures state { OnOk result (view_state self.new ≡ changes.in_loop (view_state self.old)) }
        ensures wants { OnErr result ((view_state self.old).body.loops ≡ 2 ^ 32 - 1) }
    {
        self.body.loops = next_word(self.body.loops)?;
        Ok(())
    }

    /// Leaves the innermost loop; outside every loop nothing changes.
    pub fn leave_loop(&mut self)
        ensures { view_state self.new ≡ changes.behind_loop (view_state self.old) }
    {
        self.body.loops = self.body.loops.saturating_sub(1);
    }
}
