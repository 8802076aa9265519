//! Reading the ends of blocks.

ghost use Rattle.std.specs.Prelude.{◌≡◌, ◌≢◌, IfErr};
ghost use Rattle.pw_fields.specs.FieldFaults.{AnswersField};
ghost use Rattle.pw_flow_ops.specs.Reading.{targets_at, end_at};

use crate::choices::read_end_code;
use crate::codes::EndCode;
use crate::parts::{read_below, read_result};
use pw_fields::FieldFault;
use pw_flow::End;

/// What stands behind an end's byte.
#[tactic(auto, unfolding(crate::specs::Reading::targets_at))]
fn read_targets(
    temps: u32,
    blocks: u32,
    code: EndCode,
    bytes: &[u8],
) -> Result<(End, &[u8]), FieldFault>
    ensures found { AnswersField (λ x. (x.0, x.1.now)) result (targets_at temps blocks code bytes.now) }
    ensures no_memory { IfErr result (λ e. e ≢ FieldFault.NoMemory) }
{
    match code {
        EndCode::Jump => {
            let (b, rest) = read_below(blocks as usize, bytes)?;
            Ok((End::Jump(b), rest))
        }
        EndCode::Branch => {
            let (a, rest) = read_below(temps as usize, bytes)?;
            let (b, rest) = read_below(blocks as usize, rest)?;
            let (c, rest) = read_below(blocks as usize, rest)?;
            Ok((End::Branch(a, b, c), rest))
        }
        EndCode::Return => {
            let (a, rest) = read_result(temps, bytes)?;
            Ok((End::Return(a), rest))
        }
    }
}

/// Where a block goes on.
#[tactic(auto, unfolding(crate::specs::Reading::end_at))]
pub fn read_end(temps: u32, blocks: u32, bytes: &[u8]) -> Result<(End, &[u8]), FieldFault>
    ensures found { AnswersField (λ x. (x.0, x.1.now)) result (end_at temps blocks bytes.now) }
    ensures no_memory { IfErr result (λ e. e ≢ FieldFault.NoMemory) }
{
    let (code, rest) = read_end_code(bytes)?;
    read_targets(temps, blocks, code, rest)
}
