//! Laws of symbols, of first tokens, of words, and of what nodes with lists in them show.

ghost use Rattle.std.specs.Prelude.{◌≡◌, ℕ, Bool, true, List, Option, Some};
ghost use Rattle.pw_token.specs.Tokenization.{IsLexed};
ghost use Rattle.pw_token.specs.declared.token.Token.{Token};
ghost use Rattle.pw_tree.specs.FirstTokens.{first_of_declarator, first_of_expr, first_of_label, first_of_members, first_of_parameter, first_of_specifiers, first_of_stmt};
ghost use Rattle.pw_tree.specs.Grammar.{IsTreeOf, spelled_all};
ghost use Rattle.pw_tree.specs.Numbering.{Numbered, NumberedDeclarator, NumberedLabel, NumberedMemberDeclarators, NumberedSpecifiers, NumberedStmt};
ghost use Rattle.pw_tree.specs.Scopes.{Env};
ghost use Rattle.pw_tree.specs.Symbols.{Spelled, Symbol, spelled, symbol_of};
ghost use Rattle.pw_tree.specs.Trees as tree;
ghost use Rattle.pw_tree.specs.WellFormed.{HasMemberDeclarator, HasSpecifier, IsSomething, WellFormed, WellFormedMemberDeclarators, WellFormedStmt};
ghost use Rattle.pw_tree.specs.Words.{WordsSpellModule};

/// A token is spelled as at most one symbol, and each symbol is that of its spelling.
pub fn symbols_have_one_spelling()
    ensures of_symbol { (symbol : Symbol) → symbol_of (spelled symbol) ≡ Some symbol }
    ensures of_spelling { (token : Spelled) (symbol : Symbol) → symbol_of token ≡ Some symbol → spelled symbol ≡ token }
{}

/// In a tree whose nodes have their tokens' numbers, the first token's number is that of the token at which the tree
/// begins.
pub fn first_tokens_are_first()
    ensures expressions { (env : Env) (n : ℕ) (e : tree.Expr) → WellFormed env e → Numbered n e → first_of_expr e ≡ n }
    ensures specifiers { (n : ℕ) (ss : tree.Specifiers) → HasSpecifier ss → NumberedSpecifiers n ss → first_of_specifiers ss ≡ Some n }
    ensures declarators { (n : ℕ) (d : tree.Declarator) → IsSomething d → NumberedDeclarator n d → first_of_declarator d ≡ Some n }
    ensures parameters { (n : ℕ) (ss : tree.Specifiers) (d : tree.Declarator) → HasSpecifier ss → NumberedSpecifiers n ss → first_of_parameter ss d ≡ Some n }
    ensures members { (env : Env) (typed : Bool) (n : ℕ) (ds : tree.MemberDeclarators) → HasMemberDeclarator ds → WellFormedMemberDeclarators env typed ds → NumberedMemberDeclarators true n ds → first_of_members ds ≡ Some n }
    ensures labels { (n : ℕ) (l : tree.Label) → NumberedLabel n l → first_of_label l ≡ n }
    ensures statements { (env : Env) (n : ℕ) (s : tree.Stmt) → WellFormedStmt env s → NumberedStmt n s → first_of_stmt s ≡ n }
{}

/// In the tree of a text's tokens each word spells what its place says: an identifier, an integer constant, and so on.
pub fn words_spell_what_they_are()
    ensures { (text : List ℕ) (tokens : List Token) (tree : tree.Module) → IsLexed text tokens → IsTreeOf (spelled_all text tokens) tree → WordsSpellModule tree }
{}
