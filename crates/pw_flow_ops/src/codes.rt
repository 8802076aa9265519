//! The bytes that stand for an operation or an end, and for the operations on numbers.

use pw_flow::{BinKind, ExtKind, UnKind};

/// Which operation follows, in the order of their bytes.
#[derive(Clone, Copy)]
pub enum OpCode {
    Const,
    Copy,
    Un,
    Bin,
    Ext,
    AddrGlobal,
    AddrSlot,
    AddrFn,
    LoadG,
    StoreG,
    Load,
    Store,
    Move,
    Call,
    CallInd,
}

/// Which end follows.
#[derive(Clone, Copy)]
pub enum EndCode {
    Jump,
    Branch,
    Return,
}

/// Each operation at the number that it has in files, from 0.
pub const OP_CODES: [OpCode; 15] = [
    OpCode::Const,
    OpCode::Copy,
    OpCode::Un,
    OpCode::Bin,
    OpCode::Ext,
    OpCode::AddrGlobal,
    OpCode::AddrSlot,
    OpCode::AddrFn,
    OpCode::LoadG,
    OpCode::StoreG,
    OpCode::Load,
    OpCode::Store,
    OpCode::Move,
    OpCode::Call,
    OpCode::CallInd,
];

/// Each end of a block at the number that it has in files, from 0.
pub const END_CODES: [EndCode; 3] = [EndCode::Jump, EndCode::Branch, EndCode::Return];

/// Each operator of one operand at the number that it has in files, from 0.
pub const UN_KINDS: [UnKind; 2] = [UnKind::Neg, UnKind::Not];

/// Each operator of two operands at the number that it has in files, from 0.
pub const BIN_KINDS: [BinKind; 19] = [
    BinKind::Add,
    BinKind::Sub,
    BinKind::And,
    BinKind::Or,
    BinKind::Xor,
    BinKind::Mul,
    BinKind::DivS,
    BinKind::DivU,
    BinKind::RemS,
    BinKind::RemU,
    BinKind::Shl,
    BinKind::ShrS,
    BinKind::ShrU,
    BinKind::Eq,
    BinKind::Ne,
    BinKind::LtS,
    BinKind::LeS,
    BinKind::LtU,
    BinKind::LeU,
];

/// Each cut of a number to eight or sixteen bits at the number that it has in files, from 0.
pub const EXT_KINDS: [ExtKind; 4] = [ExtKind::S8, ExtKind::U8, ExtKind::S16, ExtKind::U16];
