//! Which blocks have a temporary.

ghost use Rattle.std.specs.Prelude.{◌≡◌, IfOk, slice_set};
ghost use Rattle.pw_flow.specs.Uses.{op_uses, end_uses};
ghost use Rattle.pw_opt_places.specs.Homes.{home_of, home_read, home_defined, with_read, with_reads, with_defined, with_op, with_ops, with_block, with_blocks, homes_of};

use pw_flow::{Block, End, FlowFn, Op};
use pw_live_outline::op_defines;
use std::alloc::{AllocError as NoMemory, Global};
use std::marker::Model;

/// Which blocks have a temporary.
#[derive(Clone, Copy)]
pub enum Home {
    /// None.
    Nowhere,
    /// This one alone, which defines it before it reads it.
    At(usize),
    /// Several, or one that reads it first.
    Everywhere,
}

/// Where it is at home behind a read in a block.
fn home_read(home: Home, block: usize) -> Home
    ensures { result ≡ home_read block home }
{
    match home {
        Home::At(b) => { if b == block { home } else { Home::Everywhere } }
        Home::Nowhere | Home::Everywhere => Home::Everywhere,
    }
}

/// Where it is at home behind a definition in a block.
fn home_defined(home: Home, block: usize) -> Home
    ensures { result ≡ home_defined block home }
{
    match home {
        Home::Nowhere => Home::At(block),
        Home::At(b) => { if b == block { home } else { Home::Everywhere } }
        Home::Everywhere => Home::Everywhere,
    }
}

/// Where each temporary is at home.
#[derive(Drop)]
pub(crate) struct Homes {
    homes: Vec<Home>,
}

impl Model for Homes {
    ghost use Rattle.std.specs.Prelude.{List};
    ghost use Rattle.pw_opt_places.specs.declared.homes.Home.{Home as HomeValue};

    ghost Value = { List HomeValue };

    ghost view = { λ inside. inside.homes.items };
}

impl Homes {
    /// Where a temporary is at home.
    pub(crate) fn at(&self, t: u32) -> Home
        ensures { result ≡ home_of self.now t }
    {
        let place = t as usize;
        if place < self.homes.len() {
            self.homes[place]
        } else {
            Home::Nowhere
        }
    }

    /// Sets where a temporary is at home. Past the end it does nothing.
    fn set(&mut self, t: u32, home: Home)
        ensures { self.new ≡ slice_set self.old t home }
    {
        let place = t as usize;
        if place < self.homes.len() {
            self.homes[place] = home;
        }
    }

    /// A block reads a temporary.
    fn read(&mut self, block: usize, t: u32)
        ensures { self.new ≡ with_read block self.old t }
    {
        let home = home_read(self.at(t), block);
        self.set(t, home);
    }

    /// A block reads temporaries.
    fn read_all(&mut self, block: usize, ts: &[u32])
        ensures { self.new ≡ with_reads block self.old ts.now }
    {
        for &t in ts {
            self.read(block, t);
        }
    }

    /// A block defines a temporary, if there is one.
    fn define(&mut self, block: usize, defined: Option<u32>)
        ensures { self.new ≡ with_defined block self.old defined }
    {
        let Some(t) = defined else {
            return;
        };
        let home = home_defined(self.at(t), block);
        self.set(t, home);
    }

    /// A block reads what an operation reads.
    fn read_op(&mut self, block: usize, op: &Op)
        ensures { self.new ≡ with_reads block self.old (op_uses op.now) }
    {
        match op {
            Op::Const(_, _)
            | Op::AddrGlobal(_, _, _)
            | Op::AddrSlot(_, _)
            | Op::AddrFn(_, _)
            | Op::LoadG(_, _, _) => {}
            Op::Copy(_, a)
            | Op::Un(_, _, a)
            | Op::Ext(_, _, a)
            | Op::StoreG(_, a, _)
            | Op::Load(_, _, a) => self.read(block, *a),
            Op::Bin(_, _, a, b) | Op::Store(_, a, b) | Op::Move(a, b, _, _) => {
                self.read(block, *a);
                self.read(block, *b);
            }
            Op::Call(_, _, args) => self.read_all(block, args.as_slice()),
            Op::CallInd(_, a, _, args) => {
                self.read(block, *a);
                self.read_all(block, args.as_slice());
            }
        }
    }

    /// A block has an operation.
    fn follow(&mut self, block: usize, op: &Op)
        ensures { self.new ≡ with_op block self.old op.now }
    {
        self.read_op(block, op);
        self.define(block, op_defines(op));
    }

    /// A block has operations.
    fn follow_all(&mut self, block: usize, ops: &[Op])
        ensures { self.new ≡ with_ops block self.old ops.now }
    {
        for op in ops {
            self.follow(block, op);
        }
    }

    /// A block ends.
    fn read_end(&mut self, block: usize, end: End)
        ensures { self.new ≡ with_reads block self.old (end_uses end) }
    {
        match end {
            End::Jump(_) | End::Return(None) => {}
            End::Branch(a, _, _) | End::Return(Some(a)) => self.read(block, a),
        }
    }

    /// A block of a function.
    fn pass(&mut self, place: usize, block: &Block)
        ensures { self.new ≡ with_block place self.old block.now }
    {
        self.follow_all(place, block.ops.as_slice());
        self.read_end(place, block.end);
    }

    /// All blocks of a function.
    fn pass_all(&mut self, blocks: &[Block])
        ensures { self.new ≡ with_blocks 0 self.old blocks.now }
    {
        for place in 0..blocks.len() {
            self.pass(place, &blocks[place]);
        }
    }

    /// Where the temporaries of a function are at home.
    ///
    /// # Errors
    ///
    /// `NoMemory` where there is no memory for as many places as there are temporaries.
    pub(crate) fn of(alloc: Global, f: &FlowFn) -> Result<Homes, NoMemory>
        ensures { IfOk result (λ homes. homes ≡ homes_of f.now) }
    {
        let nowhere = vec![in alloc; Home::Nowhere; f.temps as usize]?;
        let mut homes = Homes { homes: nowhere };
        homes.pass_all(f.blocks.as_slice());
        Ok(homes)
    }
}
