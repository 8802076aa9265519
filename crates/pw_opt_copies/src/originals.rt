//! Which temporaries some operation copies.

ghost use Rattle.std.specs.Prelude.{ℕ, ◌≡◌, ◌<◌, true, length, All, IfOk};
ghost use Rattle.pw_opt_rules.specs.Copies.{without_copies};
ghost use Rattle.pw_opt_rows.specs.Joins.{HasWhatMay};
ghost use Rattle.pw_opt_rows.specs.Seeing.{IsRowOf, seen_by};
ghost use Rattle.pw_opt_rows.specs.Outflows.{AreAbout};
ghost use Rattle.pw_opt_copies.specs.Originals.{may_copy, is_noted, CopiesBelow};

use pw_flow::{FlowFn, Op};
use pw_opt_rows::{Row, View};
use std::alloc::{AllocError as NoMemory, Global};
use std::marker::Model;

/// The temporaries of a function that some operation copies. Of no other one can a temporary be known to be a copy.
#[derive(Drop)]
pub struct Originals {
    are: Vec<bool>,
}

impl Model for Originals {
    ghost use Rattle.std.specs.Prelude.{Bool, List};

    ghost Value = { List Bool };

    ghost view = { λ inside. inside.are.items };
}

impl Originals {
    /// None yet, of so many temporaries.
    fn none(alloc: Global, temps: u32) -> Result<Originals, NoMemory>
        ensures { IfOk result (λ os. length os ≡ temps) }
    {
        let are = vec![in alloc; false; temps as usize]?;
        Ok(Originals { are })
    }

    /// Notes that a temporary is copied.
    fn note(&mut self, a: u32)
        requires { a < length self.old }
        ensures length { length self.new ≡ length self.old }
        ensures kept { (u b : ℕ) → may_copy self.old u b ≡ true → may_copy self.new u b ≡ true }
        ensures noted { (t : ℕ) → may_copy self.new t a ≡ true }
    {
        self.are[a as usize] = true;
    }

    /// Notes what an operation copies, if it copies.
    fn note_op(&mut self, op: &Op)
        requires { CopiesBelow (length self.old) op.now }
        ensures length { length self.new ≡ length self.old }
        ensures kept { (u b : ℕ) → may_copy self.old u b ≡ true → may_copy self.new u b ≡ true }
        ensures noted { is_noted self.new op.now ≡ true }
    {
        match op {
            Op::Copy(_, a) => self.note(*a),
            Op::Const(_, _)
            | Op::Un(_, _, _)
            | Op::Bin(_, _, _, _)
            | Op::Ext(_, _, _)
            | Op::AddrGlobal(_, _, _)
            | Op::AddrSlot(_, _)
            | Op::AddrFn(_, _)
            | Op::LoadG(_, _, _)
            | Op::StoreG(_, _, _)
            | Op::Load(_, _, _)
            | Op::Store(_, _, _)
            | Op::Move(_, _, _, _)
            | Op::Call(_, _, _)
            | Op::CallInd(_, _, _, _) => {}
        }
    }

    /// Notes what operations copy.
    fn note_ops(&mut self, ops: &[Op])
        requires { All (CopiesBelow (length self.old)) ops.now }
        ensures length { length self.new ≡ length self.old }
        ensures kept { (u b : ℕ) → may_copy self.old u b ≡ true → may_copy self.new u b ≡ true }
        ensures noted { All (λ o. is_noted self.new o ≡ true) ops.now }
    {
        for op in ops {
            self.note_op(op);
        }
    }

    /// What is copied in a function.
    ///
    /// # Errors
    ///
    /// `NoMemory` where there is no memory for a mark for each temporary.
    pub fn new(alloc: Global, f: &FlowFn) -> Result<Originals, NoMemory>
        requires { All (λ b. All (CopiesBelow f.now.temps) b.ops) f.now.blocks }
        ensures temps { IfOk result (λ os. length os ≡ f.now.temps) }
        ensures about { IfOk result (λ os. All (AreAbout (is_noted os)) f.now.blocks) }
    {
        let mut originals = Originals::none(alloc, f.temps)?;
        for block in f.blocks.as_slice() {
            originals.note_ops(block.ops.as_slice());
        }
        Ok(originals)
    }

    /// Whether a temporary is copied.
    fn has(&self, a: u32) -> bool
        ensures { (t : ℕ) → result ≡ may_copy self.now t a }
    {
        let place = a as usize;
        place < self.are.len() && self.are[place]
    }

    /// Ends the copies of a temporary, as far as a block sees them.
    pub(crate) fn forget(&self, view: &View<'_>, row: &mut Row, of: u32)
        requires row { IsRowOf view.now.places.now row.old }
        requires may { HasWhatMay (may_copy self.now) (seen_by view.now row.old) }
        ensures seen { seen_by view.now row.new ≡ without_copies (seen_by view.now row.old) of }
        ensures row { IsRowOf view.now.places.now row.new }
    {
        if self.has(of) {
            view.forget(row, of);
        }
    }
}
