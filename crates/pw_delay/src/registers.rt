//! The registers that instructions name.

ghost use Rattle.std.specs.Prelude.{ℕ, ◌≡◌, ◌==◌, []};
ghost use Rattle.std.specs.List.{list_any, cons_option};
ghost use Rattle.pw_inst.specs.Computing.{source_registers, target_registers};

use pw_inst::{ANSWER, ARGUMENT, Inst, ROUTINE_LINK};

/// Whether an instruction reads a register.
pub fn reads(inst: Inst, register: u8) -> bool
    ensures { result ≡ list_any (λ r. register == r) (source_registers inst) }
{
    match inst {
        Inst::Ldb { b, .. } => register == b,
        Inst::Ldh { b, .. } => register == b,
        Inst::Ldw { b, .. } => register == b,
        Inst::Ldo { b, .. } => register == b,
        Inst::Stb { r, b, .. } => register == r || register == b,
        Inst::Sth { r, b, .. } => register == r || register == b,
        Inst::Stw { r, b, .. } => register == r || register == b,
        Inst::Ldil { .. } => false,
        Inst::And { r1, r2, .. } => register == r1 || register == r2,
        Inst::Or { r1, r2, .. } => register == r1 || register == r2,
        Inst::Xor { r1, r2, .. } => register == r1 || register == r2,
        Inst::Sub { r1, r2, .. } => register == r1 || register == r2,
        Inst::Addl { r1, r2, .. } => register == r1 || register == r2,
        Inst::Vshd { r1, r2, .. } => register == r1 || register == r2,
        Inst::Mtctl { r } => register == r,
        Inst::Comclr { r1, r2, .. } => register == r1 || register == r2,
        Inst::Subi { r, .. } => register == r,
        Inst::Extru { r, .. } => register == r,
        Inst::Extrs { r, .. } => register == r,
        Inst::Zdep { r, .. } => register == r,
        Inst::Combt { r1, r2, .. } => register == r1 || register == r2,
        Inst::Combf { r1, r2, .. } => register == r1 || register == r2,
        Inst::Bl { .. } => false,
        Inst::Bv { b, .. } => register == b,
        Inst::Ble { b, .. } => register == b,
        Inst::Break { .. } => register == ARGUMENT,
    }
}

/// The register that an instruction writes; no instruction writes two.
pub fn target(inst: Inst) -> Option<u8>
    ensures { target_registers inst ≡ cons_option result [] }
{
    match inst {
        Inst::Ldb { t, .. } => Some(t),
        Inst::Ldh { t, .. } => Some(t),
        Inst::Ldw { t, .. } => Some(t),
        Inst::Ldo { t, .. } => Some(t),
        Inst::Stb { .. } => None,
        Inst::Sth { .. } => None,
        Inst::Stw { .. } => None,
        Inst::Ldil { t, .. } => Some(t),
        Inst::And { t, .. } => Some(t),
        Inst::Or { t, .. } => Some(t),
        Inst::Xor { t, .. } => Some(t),
        Inst::Sub { t, .. } => Some(t),
        Inst::Addl { t, .. } => Some(t),
        Inst::Vshd { t, .. } => Some(t),
        Inst::Mtctl { .. } => None,
        Inst::Comclr { t, .. } => Some(t),
        Inst::Subi { t, .. } => Some(t),
        Inst::Extru { t, .. } => Some(t),
        Inst::Extrs { t, .. } => Some(t),
        Inst::Zdep { t, .. } => Some(t),
        Inst::Combt { .. } => None,
        Inst::Combf { .. } => None,
        Inst::Bl { t, .. } => Some(t),
        Inst::Bv { .. } => None,
        Inst::Ble { .. } => Some(ROUTINE_LINK),
        Inst::Break { .. } => Some(ANSWER),
    }
}
