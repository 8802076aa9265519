//! Objects whose shape has no mark of a volatile type.

ghost use Rattle.std.specs.Prelude.{ℕ, ◌≡◌, ◌==◌, not, List, IfOk, OnOk};
ghost use Rattle.std.specs.List.{list_any};
ghost use Rattle.std.specs.Option.{option_or};
ghost use Rattle.pw_opt_rules.specs.Dead.{only_defines};
ghost use Rattle.pw_scope.specs.Visible.{visible};
ghost use Rattle.pw_opt_quiet.specs.Marks.{unmarked, declared_mark, defined_mark, TellsQuiet};

use pw_flow::{FlowGlobal, FlowModule, Op};
use pw_scope::Scopes;
use pw_value::{Name, Shape};
use std::alloc::{AllocError as NoMemory, Global};

/// Whether a shape has no `!`.
fn is_unmarked(shape: &[u8]) -> bool
    ensures { result ≡ unmarked shape.now }
{
    !shape.contains(&b'!')
}

/// Tells of objects that are declared, of those before others of their name.
fn tell_declared<'a>(
    marks: &mut Scopes<'a, bool>,
    declared: &'a [(Name, Shape)],
) -> Result<(), NoMemory>
    ensures { OnOk result ((name : List ℕ) → visible marks.new name ≡ option_or (declared_mark declared.now name) (visible marks.old name)) }
{
    for back in 0..declared.len() {
        let entry = &declared[declared.len() - 1 - back];
        marks.declare(entry.0.as_bytes(), is_unmarked(entry.1.as_bytes()))?;
    }
    Ok(())
}

/// Tells of objects that are defined, of those before others of their name.
fn tell_defined<'a>(marks: &mut Scopes<'a, bool>, globals: &'a [FlowGlobal]) -> Result<(), NoMemory>
    ensures { OnOk result ((name : List ℕ) → visible marks.new name ≡ option_or (defined_mark globals.now name) (visible marks.old name)) }
{
    for back in 0..globals.len() {
        let global = &globals[globals.len() - 1 - back];
        marks.declare(global.name.as_bytes(), is_unmarked(global.shape.as_bytes()))?;
    }
    Ok(())
}

/// Of each object of a module whether nobody sees that it is read.
#[derive(Drop)]
pub struct Quiet<'a> {
    pub flow: &'a FlowModule,
    /// By names: what a definition says, and else what a declaration says.
    marks: Scopes<'a, bool>,
    pub ghost told: { TellsQuiet flow.now marks },
}

impl<'a> Quiet<'a> {
    /// The objects of a module.
    ///
    /// # Errors
    ///
    /// `NoMemory` where there is no memory for a table of their names.
    pub fn new(alloc: Global, flow: &'a FlowModule) -> Result<Quiet<'a>, NoMemory>
        ensures { IfOk result (λ q. q.flow.now ≡ flow.now) }
    {
        let mut marks = Scopes::new(alloc);
        tell_declared(&mut marks, flow.declared.as_slice())?;
        tell_defined(&mut marks, flow.globals.as_slice())?;
        Ok(Quiet { flow, marks })
    }

    /// Whether an operation does no more than define a temporary.
    pub fn only_defines(&self, op: &Op) -> bool
        ensures { result ≡ only_defines self.now.flow.now op.now }
    {
        match op {
            Op::Const(_, _)
            | Op::Copy(_, _)
            | Op::Un(_, _, _)
            | Op::Bin(_, _, _, _)
            | Op::Ext(_, _, _)
            | Op::AddrGlobal(_, _, _)
            | Op::AddrSlot(_, _)
            | Op::AddrFn(_, _) => true,
            Op::LoadG(_, name, _) => self.marks.visible(name.as_bytes()).unwrap_or(false),
            Op::StoreG(_, _, _)
            | Op::Load(_, _, _)
            | Op::Store(_, _, _)
            | Op::Move(_, _, _, _)
            | Op::Call(_, _, _)
            | Op::CallInd(_, _, _, _) => false,
        }
    }
}
