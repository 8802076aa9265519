//! The parts of a flow graph.

ghost use Rattle.std.specs.Prelude.{◌≡◌};
ghost use Rattle.pw_flow.specs.ValidFlow.{kind_size as size_of_kind};

use pw_items::Items;
use pw_value::{Kind, Name, Shape};

/// What a global object holds at an offset when the program starts: bytes, or the address of a name
/// plus a number.
#[derive(Drop)]
pub enum Item {
    Bytes(Items<u8>),
    Address(Name, u32),
}

/// An object with static lifetime. Its items stand with their offsets in rising order, and what no item
/// fills is 0. It has a kind where it is a scalar.
#[derive(Drop)]
pub struct FlowGlobal {
    pub name: Name,
    /// In bytes.
    pub size: u32,
    pub shape: Shape,
    pub kind: Option<Kind>,
    pub volatile: bool,
    pub items: Items<(u32, Item)>,
}

/// An operation on one number: its negative, or its bits turned.
#[derive(Clone, Copy)]
pub enum UnKind {
    Neg,
    Not,
}

/// An operation on two numbers of 32 bits. A name that ends in S takes them as signed, one that ends in
/// U as unsigned; the last six give 1 or 0.
#[derive(Clone, Copy)]
pub enum BinKind {
    Add,
    Sub,
    And,
    Or,
    Xor,
    Mul,
    DivS,
    DivU,
    RemS,
    RemU,
    Shl,
    ShrS,
    ShrU,
    Eq,
    Ne,
    LtS,
    LeS,
    LtU,
    LeU,
}

/// The low bits of a number, extended by their sign or by zeros.
#[derive(Clone, Copy)]
pub enum ExtKind {
    S8,
    U8,
    S16,
    U16,
}

/// An operation. Temporaries and slots stand by their index in the function, and where an operation has
/// a result, its temporary is the first of them.
#[derive(Drop)]
pub enum Op {
    /// t becomes the number.
    Const(u32, u32),
    /// t becomes what a holds.
    Copy(u32, u32),
    Un(UnKind, u32, u32),
    Bin(BinKind, u32, u32, u32),
    Ext(ExtKind, u32, u32),
    /// The address of a global object plus a number of bytes.
    AddrGlobal(u32, Name, u32),
    AddrSlot(u32, u32),
    AddrFn(u32, Name),
    /// A scalar global object is read.
    LoadG(u32, Name, Kind),
    /// A scalar global object is written.
    StoreG(Name, u32, Kind),
    /// The scalar at the address that the last temporary holds is read.
    Load(Kind, u32, u32),
    /// At the address that the first temporary holds the second is written.
    Store(Kind, u32, u32),
    /// So many bytes are copied to the first address from the second, in units of 1, 2 or 4.
    Move(u32, u32, u32, u32),
    /// A function is called by its name, with arguments.
    Call(Option<u32>, Name, Items<u32>),
    /// The function that a temporary holds is called, as one of this shape.
    CallInd(Option<u32>, u32, Shape, Items<u32>),
}

/// Where a block goes on.
#[derive(Clone, Copy)]
pub enum End {
    Jump(u32),
    /// To the first block where the temporary is not 0, and else to the second.
    Branch(u32, u32, u32),
    Return(Option<u32>),
}

/// Operations and the way on. The depth is that of the loops around it.
#[derive(Drop)]
pub struct Block {
    pub depth: u32,
    pub ops: Items<Op>,
    pub end: End,
}

/// A function. Its parameters are the temporaries from 0 on, a slot is an object that lives as long as
/// its call, of so many bytes, and it starts at block 0.
#[derive(Drop)]
pub struct FlowFn {
    pub name: Name,
    pub shape: Shape,
    pub params: u32,
    pub temps: u32,
    pub slots: Items<u32>,
    pub blocks: Items<Block>,
}

/// A module: the objects and functions that it defines, and each external name that it declares or
/// defines, with its shape.
#[derive(Drop)]
pub struct FlowModule {
    pub name: Name,
    pub globals: Items<FlowGlobal>,
    pub functions: Items<FlowFn>,
    pub declared: Items<(Name, Shape)>,
}

/// The bytes of a scalar of this kind.
pub fn kind_size(kind: Kind) -> u32
    ensures { result ≡ size_of_kind kind }
{
    match kind {
        Kind::S8 | Kind::U8 => 1,
        Kind::S16 | Kind::U16 => 2,
        Kind::W32 => 4,
    }
}
