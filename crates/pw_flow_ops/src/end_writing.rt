//! Writing the ends of blocks.

ghost use Rattle.std.specs.Prelude.{◌≡◌, ◌++◌, OnOk};
ghost use Rattle.pw_flow_ops.specs.Operations.{ending as ending_text};

use crate::codes::EndCode;
use crate::op_writing::push_result;
use pw_fields::writing::{push_u8, push_u32};
use pw_flow::End;
use std::alloc::AllocError;

/// Where a block goes on.
pub fn push_end(out: &mut Vec<u8>, end: End) -> Result<(), AllocError>
    ensures { OnOk result (out.new.items ≡ out.old.items ++ ending_text end) }
{
    match end {
        End::Jump(b) => {
            push_u8(out, EndCode::Jump as u8)?;
            push_u32(out, b)
        }
        End::Branch(a, b, c) => {
            push_u8(out, EndCode::Branch as u8)?;
            push_u32(out, a)?;
            push_u32(out, b)?;
            push_u32(out, c)
        }
        End::Return(a) => {
            push_u8(out, EndCode::Return as u8)?;
            push_result(out, a)
        }
    }
}
