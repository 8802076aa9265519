//! The registers that roots save and members are free to use.

ghost use Rattle.std.specs.Prelude.{◌≡◌, ◌≤◌, ◌<◌, ◌==◌, ◌&&◌, not, max, if◌then◌else◌, ℕ, All, length, slice_index, replicate, IfOk};
ghost use Rattle.pw_summary.specs.Summary.{need_limit};
ghost use Rattle.pw_clusters.specs.Saving.{need_in, last_registers as last_ones, saves_by, free_by};

use pw_db::LAST_REGISTER;
use pw_items::Items;
use std::alloc::{AllocError as NoMemory, Global};

/// Raises the greatest need of a root's members to that of a function, which is none of them where it is the root itself.
fn raise(most: &mut [u8], place: usize, root: usize, need: u8)
    requires { root < length most.old }
    ensures count { length most.new ≡ length most.old }
    ensures most { (r : ℕ) → slice_index most.new r ≡ max (if (root == r) && not (place == r) then need else 0) (slice_index most.old r) }
{
    if root == place {
        return;
    }
    if most[root] < need {
        most[root] = need;
    }
}

/// So many zeros.
fn zeros(alloc: Global, count: usize) -> Result<Vec<u8>, NoMemory>
    ensures { IfOk result (λ v. v.items ≡ replicate count 0) }
{
    let zeros = vec![in alloc; 0; count]?;
    Ok(zeros)
}

/// Of each place the greatest need among the members of its cluster.
pub fn greatest_needs(alloc: Global, roots: &[u32], needs: &[u8]) -> Result<Vec<u8>, NoMemory>
    requires count { length needs.now ≡ length roots.now }
    requires within { All (λ r. r < length roots.now) roots.now }
    ensures count { IfOk result (λ v. length v.items ≡ length roots.now) }
    ensures needs { IfOk result (λ v. (r : ℕ) → slice_index v.items r ≡ need_in roots.now needs.now r) }
{
    let mut most = zeros(alloc, roots.len())?;
    for place in 0..roots.len() {
        raise(&mut most, place, roots[place] as usize, needs[place]);
    }
    Ok(most)
}

/// So many registers, the last ones that a callee keeps.
fn last_registers(alloc: Global, count: u8) -> Result<Items<u8>, NoMemory>
    requires { count ≤ need_limit }
    ensures { IfOk result (λ v. v ≡ last_ones count) }
{
    let mut registers = Items::new(alloc);
    for register in LAST_REGISTER + 1 - count..LAST_REGISTER + 1 {
        registers.push(register)?;
    }
    Ok(registers)
}

/// The registers that a function saves for others, by its place, its own root, and the greatest need of the members of its root's cluster.
pub fn saved(alloc: Global, place: usize, root: usize, need: u8) -> Result<Items<u8>, NoMemory>
    requires { need ≤ need_limit }
    ensures { IfOk result (λ v. v ≡ saves_by place root need) }
{
    if root == place {
        last_registers(alloc, need)
    } else {
        Ok(Items::new(alloc))
    }
}

/// The registers that it is free to use.
pub fn free(alloc: Global, place: usize, root: usize, need: u8) -> Result<Items<u8>, NoMemory>
    requires { need ≤ need_limit }
    ensures { IfOk result (λ v. v ≡ free_by place root need) }
{
    if root == place {
        Ok(Items::new(alloc))
    } else {
        last_registers(alloc, need)
    }
}
