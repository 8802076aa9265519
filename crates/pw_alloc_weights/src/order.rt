//! The order in which temporaries get registers.

ghost use Rattle.std.specs.Prelude.{◌≡◌, length, map, IfOk};
ghost use Rattle.std.specs.List.Sorted.{IsPermutation};
ghost use Rattle.pw_db.specs.Database.{EachTwo};
ghost use Rattle.pw_live_fronts.specs.Blocks.{IsOutline};
ghost use Rattle.pw_alloc_temps.specs.Weights.{by_weight};
ghost use Rattle.pw_alloc_weights.specs.Ordering.{numbered, ComesFirst, Rises};

use crate::weights::weigh;
use pw_live_fronts::Outline;
use std::alloc::{AllocError as NoMemory, Global};

/// A temporary and its weight.
#[derive(Clone, Copy)]
struct Weighed {
    temp: u32,
    weight: u64,
}

/// So many temporaries by number, with their weights.
fn with_weights(alloc: Global, weights: &[u64], temps: u32) -> Result<Vec<Weighed>, NoMemory>
    requires { length weights.now ≡ temps }
    ensures { IfOk result (λ v. v.items ≡ numbered 0 weights.now) }
{
    let mut all = Vec::with_capacity(alloc, weights.len())?;
    for temp in 0..temps {
        let place = temp as usize;
        let weight = weights[place];
        all.push(Weighed { temp, weight })?;
    }
    Ok(all)
}

/// Those of more weight first, and of one weight as they stood.
fn sorted(all: Vec<Weighed>) -> Result<Vec<Weighed>, NoMemory>
    requires { EachTwo Rises all.items }
    ensures same { IfOk result (λ v. IsPermutation all.items v.items) }
    ensures order { IfOk result (λ v. EachTwo ComesFirst v.items) }
{
    let mut ranked = all;
    ranked.sort_by(|one, other| other.weight.cmp(&one.weight))?;
    Ok(ranked)
}

/// The temporaries alone.
fn temps_of(alloc: Global, all: &[Weighed]) -> Result<Vec<u32>, NoMemory>
    ensures { IfOk result (λ v. v.items ≡ map (λ (w : Weighed). w.temp) all.now) }
{
    let mut temps = Vec::with_capacity(alloc, all.len())?;
    for one in all {
        temps.push(one.temp)?;
    }
    Ok(temps)
}

/// The temporaries of a function by weight downward, then by number upward.
pub fn ordered(alloc: Global, f: &Outline) -> Result<Vec<u32>, NoMemory>
    requires { IsOutline f.now }
    ensures { IfOk result (λ v. v.items ≡ by_weight f.now 0 f.now.temps) }
{
    let weights = weigh(alloc, f)?;
    let temps = f.temps();
    let weighed = with_weights(alloc, &weights, temps)?;
    let all = sorted(weighed)?;
    let order = temps_of(alloc, &all)?;
    Ok(order)
}
