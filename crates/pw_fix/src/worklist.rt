//! The nodes that wait to be visited, each at most once.

ghost use Rattle.std.specs.Prelude.{◌≡◌, ◌≢◌, ℕ, ◌+◌, ◌<◌, ◌≤◌, ◌⊎◌, ◌↔◌, length, Contains, IfOk, IfSome, OnOk, IfNone, Some, true, slice_get, vec_len};
ghost use Rattle.std.specs.VecDeque.{deque_len};

use std::alloc::{AllocError as NoMemory, Global};
use std::collections::VecDeque;

/// The nodes that wait, first in, first out.
#[derive(Drop)]
pub(crate) struct Worklist {
    queue: VecDeque<usize>,
    /// Of each node, whether it waits.
    waits: Vec<bool>,
    ghost within: { (n : ℕ) → Contains queue.items n → n < length waits.items },
    ghost marked: { (n : ℕ) → slice_get waits.items n ≡ Some true → ∥ Contains queue.items n ∥₁ },
}

impl Worklist {
    ghost use Rattle.pw_fix.specs.Waiting.{node_count, waiting_count, IsWaiting};

    /// All of the nodes below `nodes`.
    pub(crate) fn full(alloc: Global, nodes: usize) -> Result<Worklist, NoMemory>
        ensures nodes { IfOk result (λ w. node_count w ≡ nodes) }
        ensures all { IfOk result (λ w. (n : ℕ) → n < nodes → IsWaiting w n) }
    {
        let waits = vec![in alloc; true; nodes]?;
        let mut queue = VecDeque::with_capacity(alloc, nodes)?;
        for node in 0..nodes {
            queue.push_back(node)?;
        }
        Ok(Worklist { queue, waits })
    }

    /// Lets a node wait, if it doesn't yet.
    pub(crate) fn push(&mut self, node: usize) -> Result<(), NoMemory>
        requires { node < node_count self.old }
        ensures nodes { node_count self.new ≡ node_count self.old }
        ensures waits { OnOk result (IsWaiting self.new node) }
        ensures kept { (n : ℕ) → IsWaiting self.old n → IsWaiting self.new n }
        ensures count { waiting_count self.new ≤ waiting_count self.old + 1 }
    {
        if !self.waits[node] {
            self.queue.push_back(node)?;
            self.waits[node] = true;
        }
        Ok(())
    }

    /// Takes the node that has waited longest.
    pub(crate) fn pop(&mut self) -> Option<usize>
        ensures nodes { node_count self.new ≡ node_count self.old }
        ensures none { IfNone result ((n : ℕ) → ¬ (IsWaiting self.old n)) }
        ensures node { IfSome result (λ node. node < node_count self.old) }
        ensures kept { IfSome result (λ node. (n : ℕ) → IsWaiting self.old n → (n ≡ node) ⊎ IsWaiting self.new n) }
        ensures count { IfSome result (λ _. waiting_count self.new + 1 ≡ waiting_count self.old) }
    {
        let node = self.queue.pop_front()?;
        self.waits[node] = false;
        Some(node)
    }
}
