//! The tokens of modules (C90 6.7).

ghost use Rattle.std.specs.Prelude.{◌≡◌, IfOk, List, map};
ghost use Rattle.pw_tree.specs.Spelling as spell;
ghost use Rattle.pw_tree.specs.Views as view;
ghost use Rattle.pw_tree_spell.specs.Writing.{Writes, view_spelled};

use crate::spelled::{NoMemory, Spelled, Writer};
use pw_tree::{External, Module};
use std::alloc::{AllocError, Global};

impl Writer {
    fn external(&mut self, external: &External)
        ensures { Writes (spell.spell_external (view.view_external external.now)) self.old self.new }
    {
        match external {
            External::Function(function) => {
                self.specifiers(&function.specifiers);
                self.declarator(&function.declarator);
                self.decls(&function.declarations);
                self.block(&function.body);
            }
            External::Declaration(decl) => self.decl(decl),
        }
    }

    fn externals(&mut self, externals: &[External])
        ensures { Writes (spell.spell_externals (view.view_externals externals.now)) self.old self.new }
    {
        for external in externals {
            self.external(external);
        }
    }
}

/// The tokens of a module, in the text's order, or want of memory.
#[tactic(auto, unfolding(crate::specs::Writing::followed))]
pub fn spell(alloc: Global, tree: &Module) -> Result<Vec<Spelled>, NoMemory>
    ensures { IfOk result (λ tokens. map view_spelled tokens.items ≡ spell.spelling (view.view_module tree.now)) }
{
    let mut writer = Writer {
        alloc,
        tokens: Vec::new(alloc),
        full: false,
    };
    writer.externals(&tree.externals);
    let Writer {
        alloc: _,
        tokens,
        full,
    } = writer;
    if full {
        return Err(AllocError);
    }
    Ok(tokens)
}
