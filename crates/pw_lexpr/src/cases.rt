//! The labels of a `switch`, and the comparisons with its cases.

ghost use Rattle.std.specs.Prelude.{◌≡◌, IfOk, OnOk};
ghost use Rattle.pw_lower.specs.Statements as spec;
ghost use Rattle.pw_typed.specs.Views.{view_cases};

use pw_flow::{BinKind, End};
use pw_lower::Code;
use pw_typed::Case;
use pw_value::NoMemory;
use std::alloc::Global;

/// The labels of a `switch` in the order of the text: those of its cases, and its default's.
pub fn labels_of(alloc: Global, cases: &[Case], default: Option<u32>) -> Result<Vec<u32>, NoMemory>
    ensures { IfOk result (λ v. v.items ≡ spec.labels_of (view_cases cases.now) default) }
{
    let mut labels = Vec::new(alloc);
    let mut left = default;
    for case in cases {
        if let Some(label) = left
            && label < case.label
        {
            labels.push(label)?;
            left = None;
        }
        labels.push(case.label)?;
    }
    if let Some(label) = left {
        labels.push(label)?;
    }
    Ok(labels)
}

/// Compares a value with one case after another.
pub fn choose(alloc: Global, value: u32, cases: &[Case], code: &mut Code) -> Result<(), NoMemory>
    ensures { OnOk result (code.new ≡ spec.choose value (view_cases cases.now) code.old) }
{
    for case in cases {
        let number = code.constant(case.value)?;
        let is_equal = code.binary(BinKind::Eq, value, number)?;
        let so = code.block_of_label(case.label);
        let next = code.reserve(1)?;
        code.cut_here(alloc, End::Branch(is_equal, so, next), next)?;
    }
    Ok(())
}

/// Goes on where no case has the value: to the default, or out of the `switch`.
pub fn go_on(alloc: Global, default: Option<u32>, out: u32, code: &mut Code) -> Result<(), NoMemory>
    ensures { OnOk result (code.new ≡ spec.chosen default out code.old) }
{
    let other = match default {
        Some(label) => code.block_of_label(label),
        None => out,
    };
    code.leave(alloc, End::Jump(other))
}

/// Begins the block of each of these labels, to which the block before it goes on.
pub fn begin_labels(alloc: Global, labels: &[u32], code: &mut Code) -> Result<(), NoMemory>
    ensures { OnOk result (code.new ≡ spec.begun labels.now code.old) }
{
    for label in labels {
        let block = code.block_of_label(*label);
        code.cut_here(alloc, End::Jump(block), block)?;
    }
    Ok(())
}
