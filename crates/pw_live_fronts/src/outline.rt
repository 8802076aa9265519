//! The outline of a function, as code holds it.

ghost use Rattle.std.specs.Prelude.{◌≡◌};
ghost use Rattle.pw_flow.specs.Outline.{Act as ActValue, Stretch as StretchValue, Outline as OutlineValue};

use pw_items::Items;
use smallvec::SmallVec;
use std::marker::Model;

/// Numbers of temporaries or blocks, of which there are two at most in all but calls.
pub type Few = SmallVec<u32, 2>;

/// An operation: the temporary that it writes, those that it reads, each operand by itself, and whether it calls.
#[derive(Drop)]
pub struct Act {
    defines: Option<u32>,
    uses: Few,
    calls: bool,
}

impl Model for Act {
    ghost use Rattle.pw_flow.specs.Outline.{Act as ActValue};

    ghost Value = { ActValue };

    ghost view = { λ a. record { defines = a.defines; uses = a.uses.items; calls = a.calls } };
}

impl Act {
    /// An operation of these parts.
    pub fn new(defines: Option<u32>, uses: Few, calls: bool) -> Act
        ensures { result ≡ record { defines = defines; uses = uses.items; calls = calls } }
    {
        Act {
            defines,
            uses,
            calls,
        }
    }

    /// The temporary that it writes.
    pub fn defines(&self) -> Option<u32>
        ensures { result ≡ self.now.defines }
    {
        self.defines
    }

    /// The temporaries that it reads.
    pub fn uses(&self) -> &[u32]
        ensures { result.now ≡ self.now.uses }
    {
        self.uses.as_slice()
    }

    /// Whether the operation calls a function, by name or through a pointer, so that registers that a callee may
    /// change hold nothing across it.
    pub fn calls(&self) -> bool
        ensures { result ≡ self.now.calls }
    {
        self.calls
    }
}

/// A block: how many loops it lies in, its operations, the temporaries that its end reads, and the blocks at which it may go
/// on.
#[derive(Drop)]
pub struct Stretch {
    depth: u32,
    acts: Items<Act>,
    uses: Few,
    next: Few,
}

impl Model for Stretch {
    ghost use Rattle.pw_flow.specs.Outline.{Stretch as StretchValue};

    ghost Value = { StretchValue };

    ghost view = { λ s. record { depth = s.depth; acts = s.acts; uses = s.uses.items; next = s.next.items } };
}

impl Stretch {
    /// A block of these parts.
    pub fn new(depth: u32, acts: Items<Act>, uses: Few, next: Few) -> Stretch
        ensures { result ≡ record { depth = depth; acts = acts; uses = uses.items; next = next.items } }
    {
        Stretch {
            depth,
            acts,
            uses,
            next,
        }
    }

    /// How many loops it lies in.
    pub fn depth(&self) -> u32
        ensures { result ≡ self.now.depth }
    {
        self.depth
    }

    /// The operations of the block, in the order in which they run.
    pub fn acts(&self) -> &[Act]
        ensures { result.now ≡ self.now.acts }
    {
        self.acts.as_slice()
    }

    /// The temporaries that its end reads.
    pub fn uses(&self) -> &[u32]
        ensures { result.now ≡ self.now.uses }
    {
        self.uses.as_slice()
    }

    /// The blocks at which it may go on.
    pub fn next(&self) -> &[u32]
        ensures { result.now ≡ self.now.next }
    {
        self.next.as_slice()
    }
}

/// A function of so many parameters, which are the first of so many temporaries; it starts at block 0.
#[derive(Drop)]
pub struct Outline {
    params: u32,
    temps: u32,
    blocks: Items<Stretch>,
}

impl Model for Outline {
    ghost use Rattle.pw_flow.specs.Outline.{Outline as OutlineValue};

    ghost Value = { OutlineValue };

    ghost view = { λ f. record { params = f.params; temps = f.temps; blocks = f.blocks } };
}

impl Outline {
    /// A function of these parts.
    pub fn new(params: u32, temps: u32, blocks: Items<Stretch>) -> Outline
        ensures { result ≡ record { params = params; temps = temps; blocks = blocks } }
    {
        Outline {
            params,
            temps,
            blocks,
        }
    }

    /// How many parameters it has.
    pub fn params(&self) -> u32
        ensures { result ≡ self.now.params }
    {
        self.params
    }

    /// How many temporaries.
    pub fn temps(&self) -> u32
        ensures { result ≡ self.now.temps }
    {
        self.temps
    }

    /// The blocks of the function by their numbers; it starts at block 0.
    pub fn blocks(&self) -> &[Stretch]
        ensures { result.now ≡ self.now.blocks }
    {
        self.blocks.as_slice()
    }
}
