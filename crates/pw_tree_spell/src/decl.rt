//! The tokens of declarations (C90 6.5, 6.5.7).

ghost use Rattle.std.specs.Prelude.{◌≡◌, ◌∷◌, List, true};
ghost use Rattle.pw_tree.specs.Spelling as spell;
ghost use Rattle.pw_tree.specs.Views as view;
ghost use Rattle.pw_tree_spell.specs.Writing.{Writes};

use crate::spelled::Writer;
use pw_tree::{Decl, Init, InitDeclarator, Initializer, Mark, statements_show_their_lists};

impl Writer {
    fn end_list(&mut self, trailing_comma: bool)
        ensures { Writes (spell.trailed trailing_comma) self.old self.new }
    {
        if trailing_comma {
            self.mark(Mark::Comma);
        }
    }

    #[cycle(init)]
    #[tactic(auto, unfolding(pw_tree::specs::Views::view_init, pw_tree::specs::Spelling::spell_init))]
    fn init(&mut self, init: &Init)
        ensures { Writes (spell.spell_init (view.view_init init.now)) self.old self.new }
    {
        statements_show_their_lists();
        match init {
            Init::Value(value) => self.expr(value),
            Init::List {
                token: _,
                items,
                trailing_comma,
            } => {
                self.mark(Mark::OpenBrace);
                self.inits(items);
                self.end_list(*trailing_comma);
                self.mark(Mark::CloseBrace);
            }
        }
    }

    #[cycle(init)]
    #[tactic(auto, unfolding(pw_tree::specs::Views::view_init, pw_tree::specs::Spelling::spell_init))]
    fn inits(&mut self, inits: &[Init])
        ensures { Writes (spell.spell_inits true (view.view_inits inits.now)) self.old self.new }
    {
        let mut first = true;
        for init in inits {
            self.separate(first);
            self.init(init);
            first = false;
        }
    }

    fn initializer(&mut self, initializer: &Option<Initializer>)
        ensures { Writes (spell.spell_initializer (view.view_initializer initializer.now)) self.old self.new }
    {
        if let Some(initializer) = initializer {
            self.mark(Mark::Equal);
            self.init(&initializer.init);
        }
    }

    fn init_declarators(&mut self, declarators: &[InitDeclarator])
        ensures { Writes (spell.spell_init_declarators true (view.view_init_declarators declarators.now)) self.old self.new }
    {
        let mut first = true;
        for declarator in declarators {
            self.separate(first);
            self.declarator(&declarator.declarator);
            self.initializer(&declarator.initializer);
            first = false;
        }
    }

    /// The tokens of a declaration, its semicolon included.
    pub fn decl(&mut self, decl: &Decl)
        ensures { Writes (spell.spell_decl (view.view_decl decl.now)) self.old self.new }
    {
        self.specifiers(&decl.specifiers);
        self.init_declarators(&decl.declarators);
        self.mark(Mark::Semicolon);
    }

    /// The tokens of declarations, one behind another.
    pub fn decls(&mut self, decls: &[Decl])
        ensures { Writes (spell.spell_decls (view.view_decls decls.now)) self.old self.new }
    {
        for decl in decls {
            self.decl(decl);
        }
    }
}
