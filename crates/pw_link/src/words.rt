//! The words of a linked program.

ghost use Rattle.std.specs.Prelude.{◌≡◌, ◌++◌, ◌∷◌, [], ◌+◌, ◌*◌, ◌<◌, ◌≤◌, ◌^◌, ℕ, List, map, length, take, drop, IfOk, OnOk};
ghost use Rattle.std.specs.List.{flat_map};
ghost use Rattle.pw_link.specs.Linking.{settled, with_fix, with_fixes, piece_words, linked_words};
ghost use Rattle.pw_link.specs.Views.{placed_view, Tells, plain_sites};

use crate::sites::Sites;
use crate::text::Placed;
use pw_inst::{
    Fix, FixKind, NOP, encode, left_part, right_part, set_branch, set_displacement,
    set_long_immediate,
};
use std::alloc::{AllocError, Global};

/// A word at its own address, into which an address goes.
#[tactic(auto, unfolding(crate::specs::Linking::settled))]
fn settled(kind: FixKind, own: u32, address: u32, word: u32) -> u32
    ensures { result ≡ settled kind own address word }
{
    match kind {
        FixKind::Ldil => set_long_immediate(word, left_part(address)),
        FixKind::Im14 => set_displacement(word, right_part(address) as i32),
        FixKind::Bl => set_branch(word, address.wrapping_sub(own.wrapping_add(8)) / 4),
    }
}

/// Does one relocation of a function at an address.
fn relocate(words: &mut [u32], sites: &Sites, at: u32, fix: &Fix)
    ensures { (named : List (List ℕ × ℕ)) → Tells sites.now.names.entries named → words.new ≡ with_fix (plain_sites named sites.now) at fix.now words.old }
{
    let place = fix.word as usize;
    if place < words.len() {
        let own = at.wrapping_add(fix.word.wrapping_mul(4));
        let address = sites.symbol(at, &fix.symbol).wrapping_add(fix.addend);
        words[place] = settled(fix.kind, own, address, words[place]);
    }
}

/// Does the relocations of a function at an address.
#[tactic(auto, using(crate::proofs::Growing::with_fixes_push))]
fn relocate_all(words: &mut [u32], sites: &Sites, at: u32, fixes: &[Fix])
    ensures { (named : List (List ℕ × ℕ)) → Tells sites.now.names.entries named → words.new ≡ with_fixes (plain_sites named sites.now) at fixes.now words.old }
{
    for fix in fixes {
        relocate(words, sites, at, fix);
    }
}

/// Adds the words of a function or a routine.
fn add_words(out: &mut Vec<u32>, sites: &Sites, placed: &Placed) -> Result<(), AllocError>
    ensures { OnOk result ((named : List (List ℕ × ℕ)) → Tells sites.now.names.entries named → out.new.items ≡ out.old.items ++ piece_words (plain_sites named sites.now) (placed_view placed.now)) }
{
    let start = out.len();
    out.extend_from_slice(placed.piece.words)?;
    relocate_all(&mut out[start..], sites, placed.address, placed.piece.fixes);
    Ok(())
}

/// The words of the text.
#[tactic(auto, unfolding(pw_inst::specs::InstructionTable::IsInRange))]
pub(crate) fn linked_words(
    alloc: Global,
    sites: &Sites,
    text: &[Placed],
) -> Result<Vec<u32>, AllocError>
    ensures { IfOk result (λ words. (named : List (List ℕ × ℕ)) → Tells sites.now.names.entries named → words.items ≡ linked_words (plain_sites named sites.now) (map placed_view text.now)) }
{
    let mut words = Vec::new(alloc);
    for placed in text {
        add_words(&mut words, sites, placed)?;
    }
    words.push(encode(NOP))?;
    Ok(words)
}
