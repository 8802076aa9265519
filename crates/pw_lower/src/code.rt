//! The code of a function while it is made: the blocks that are closed, and the one that is filled.

ghost use Rattle.std.specs.Prelude.{◌≡◌, ◌+◌, ◌<◌, ◌≤◌, ◌^◌, length, Some, IfOk, MatchResult, OnErr, OnOk};
ghost use Rattle.pw_lower.specs.Codes as spec;
ghost use Rattle.pw_lower.specs.Codes.{value_is};

use pw_flow::{BinKind, Block, End, ExtKind, Op, UnKind};
use pw_items::Items;
use pw_value::{Kind, Name, NoMemory};
use std::alloc::Global;

/// A closed block with its number.
#[derive(Drop)]
pub struct Numbered {
    pub number: u32,
    pub block: Block,
}

/// The closed blocks in the order in which they were closed; the number, the depth and the operations of
/// the block that is filled; how many blocks and temporaries are numbered so far; and by the number of each
/// label the block that it begins, 0 until it has one.
#[derive(Drop)]
pub struct Code {
    pub closed: Items<Numbered>,
    pub cur: u32,
    pub depth: u32,
    pub ops: Items<Op>,
    pub blocks: u32,
    pub temps: u32,
    pub labels: Items<u32>,
}

/// The sum of two numbers. There is no memory for as many things as 32 bits cannot count, and for no others.
pub fn further(number: u32, count: u32) -> Result<u32, NoMemory>
    ensures { MatchResult result (λ n. n ≡ number + count) (λ _. 2 ^ 32 ≤ number + count) }
{
    number.checked_add(count).ok_or(NoMemory)
}

impl Code {
    /// Puts an operation behind the others of the block that is filled.
    pub fn emit(&mut self, op: Op) -> Result<(), NoMemory>
        ensures { OnOk result (self.new ≡ spec.emit op self.old) }
    {
        self.ops.push(op)
    }

    /// Numbers so many temporaries, and answers the first number. There is no memory for more than 32 bits can
    /// count, and for no fewer.
    pub fn reserve_temps(&mut self, count: u32) -> Result<u32, NoMemory>
        ensures first { IfOk result (λ t. t ≡ self.old.temps) }
        ensures code { OnOk result (self.new ≡ spec.reserve_temps count self.old) }
        ensures wants { OnErr result (2 ^ 32 ≤ self.old.temps + count) }
    {
        let first = self.temps;
        self.temps = further(first, count)?;
        Ok(first)
    }

    /// Numbers so many blocks, and answers the first number. There is no memory for more than 32 bits can count, and
    /// for no fewer.
    pub fn reserve(&mut self, count: u32) -> Result<u32, NoMemory>
        ensures first { IfOk result (λ n. n ≡ self.old.blocks) }
        ensures code { OnOk result (self.new ≡ spec.reserve count self.old) }
        ensures fits { OnOk result (self.old.blocks + count < 2 ^ 32) }
        ensures wants { OnErr result (2 ^ 32 ≤ self.old.blocks + count) }
    {
        let first = self.blocks;
        self.blocks = further(first, count)?;
        Ok(first)
    }

    /// A number, in a new temporary.
    pub fn constant(&mut self, n: u32) -> Result<u32, NoMemory>
        ensures { IfOk result (λ t. value_is t self.new ≡ spec.constant n self.old) }
    {
        let t = self.reserve_temps(1)?;
        self.emit(Op::Const(t, n))?;
        Ok(t)
    }

    /// An operation on one temporary, in a new one.
    pub fn unary(&mut self, kind: UnKind, a: u32) -> Result<u32, NoMemory>
        ensures { IfOk result (λ t. value_is t self.new ≡ spec.fresh (λ t. Op.Un kind t a) self.old) }
    {
        let t = self.reserve_temps(1)?;
        self.emit(Op::Un(kind, t, a))?;
        Ok(t)
    }

    /// An operation on two temporaries, in a new one.
    pub fn binary(&mut self, kind: BinKind, a: u32, b: u32) -> Result<u32, NoMemory>
        ensures { IfOk result (λ t. value_is t self.new ≡ spec.fresh (λ t. Op.Bin kind t a b) self.old) }
    {
        let t = self.reserve_temps(1)?;
        self.emit(Op::Bin(kind, t, a, b))?;
        Ok(t)
    }

    /// The low bits of a temporary, extended, in a new one.
    pub fn extension(&mut self, kind: ExtKind, a: u32) -> Result<u32, NoMemory>
        ensures { IfOk result (λ t. value_is t self.new ≡ spec.fresh (λ t. Op.Ext kind t a) self.old) }
    {
        let t = self.reserve_temps(1)?;
        self.emit(Op::Ext(kind, t, a))?;
        Ok(t)
    }

    /// What a temporary holds, in a new one.
    pub fn copy(&mut self, a: u32) -> Result<u32, NoMemory>
        ensures { IfOk result (λ t. value_is t self.new ≡ spec.fresh (λ t. Op.Copy t a) self.old) }
    {
        let t = self.reserve_temps(1)?;
        self.emit(Op::Copy(t, a))?;
        Ok(t)
    }

    /// The scalar at an address, in a new temporary.
    pub fn load(&mut self, kind: Kind, address: u32) -> Result<u32, NoMemory>
        ensures { IfOk result (λ t. value_is t self.new ≡ spec.fresh (λ t. Op.Load kind t address) self.old) }
    {
        let t = self.reserve_temps(1)?;
        self.emit(Op::Load(kind, t, address))?;
        Ok(t)
    }

    /// A global scalar, in a new temporary.
    pub fn load_global(&mut self, name: Name, kind: Kind) -> Result<u32, NoMemory>
        ensures { IfOk result (λ t. value_is t self.new ≡ spec.fresh (λ t. Op.LoadG t name kind) self.old) }
    {
        let t = self.reserve_temps(1)?;
        self.emit(Op::LoadG(t, name, kind))?;
        Ok(t)
    }

    /// The address of a global object, in a new temporary.
    pub fn global_address(&mut self, name: Name) -> Result<u32, NoMemory>
        ensures { IfOk result (λ t. value_is t self.new ≡ spec.fresh (λ t. Op.AddrGlobal t name 0) self.old) }
    {
        let t = self.reserve_temps(1)?;
        self.emit(Op::AddrGlobal(t, name, 0))?;
        Ok(t)
    }

    /// The address of a function, in a new temporary.
    pub fn function_address(&mut self, name: Name) -> Result<u32, NoMemory>
        ensures { IfOk result (λ t. value_is t self.new ≡ spec.fresh (λ t. Op.AddrFn t name) self.old) }
    {
        let t = self.reserve_temps(1)?;
        self.emit(Op::AddrFn(t, name))?;
        Ok(t)
    }

    /// The address of a slot, in a new temporary.
    pub fn slot_address(&mut self, slot: u32) -> Result<u32, NoMemory>
        ensures { IfOk result (λ t. value_is t self.new ≡ spec.fresh (λ t. Op.AddrSlot t slot) self.old) }
    {
        let t = self.reserve_temps(1)?;
        self.emit(Op::AddrSlot(t, slot))?;
        Ok(t)
    }

    /// Ends the block that is filled; a block of this number and depth is filled from here on.
    pub fn cut(&mut self, alloc: Global, end: End, number: u32, depth: u32) -> Result<(), NoMemory>
        ensures { OnOk result (self.new ≡ spec.cut end number depth self.old) }
    {
        let block = Block {
            depth: self.depth,
            ops: std::mem::replace(&mut self.ops, Items::new(alloc)),
            end,
        };
        self.closed.push(Numbered {
            number: self.cur,
            block,
        })?;
        self.cur = number;
        self.depth = depth;
        Ok(())
    }

    /// Ends the block that is filled, and begins the next at the same depth.
    pub fn cut_here(&mut self, alloc: Global, end: End, number: u32) -> Result<(), NoMemory>
        ensures { OnOk result (self.new ≡ spec.cut_here end number self.old) }
    {
        self.cut(alloc, end, number, self.depth)
    }

    /// Ends the block that is filled; a new block, to which nothing goes yet, is filled from here on.
    pub fn leave(&mut self, alloc: Global, end: End) -> Result<(), NoMemory>
        ensures { OnOk result (self.new ≡ spec.leave end self.old) }
    {
        let next = self.reserve(1)?;
        self.cut_here(alloc, end, next)
    }

    /// Gives labels blocks, numbered in order from `first` on.
    pub fn name_blocks(&mut self, alloc: Global, labels: &[u32], first: u32)
        requires { first + length labels.now < 2 ^ 32 }
        ensures { self.new ≡ spec.named_from first labels.now self.old }
    {
        let mut blocks = std::mem::replace(&mut self.labels, Items::new(alloc)).into_vec();
        let mut block = first;
        for label in labels {
            if (*label as usize) < blocks.len() {
                blocks[*label as usize] = block;
            }
            block += 1;
        }
        self.labels = Items::from_vec(blocks);
    }

    /// The number of the block that a label begins; 0 for a number that no label has.
    pub fn block_of_label(&self, label: u32) -> u32
        ensures { result ≡ spec.block_of_label self.now label }
    {
        match self.labels.as_slice().get(label as usize) {
            Some(block) => *block,
            None => 0,
        }
    }
}
