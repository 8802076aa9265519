//! Laws of nodes with lists in them: such a node shows what its lists show by themselves.

ghost use Rattle.std.specs.Prelude.{◌≡◌, ℕ, Bool, Option, Vec};
ghost use Rattle.std.specs.declared.alloc.Global.{Global};
ghost use Rattle.std.specs.declared.boxed.Box.{Box};
ghost use Rattle.pw_tree.specs.Trees as tree;
ghost use Rattle.pw_tree.specs.Views.{view_arguments, view_block, view_core, view_declarator, view_else_ifs, view_enumerators, view_expr, view_init, view_inits, view_member_declarator, view_members, view_operations, view_otherwise, view_parameters, view_postfix, view_postfixes, view_specifier, view_specifiers, view_stmt, view_suffix, view_tag};
ghost use Rattle.pw_tree.specs.declared.decl.Init as init;
ghost use Rattle.pw_tree.specs.declared.decl.Init.{Init};
ghost use Rattle.pw_tree.specs.declared.expr.Core as core;
ghost use Rattle.pw_tree.specs.declared.expr.Declarator.{Declarator};
ghost use Rattle.pw_tree.specs.declared.expr.Enumerator.{Enumerator};
ghost use Rattle.pw_tree.specs.declared.expr.Expr as expr;
ghost use Rattle.pw_tree.specs.declared.expr.Expr.{Expr};
ghost use Rattle.pw_tree.specs.declared.expr.Member.{Member};
ghost use Rattle.pw_tree.specs.declared.expr.MemberDeclarator as member;
ghost use Rattle.pw_tree.specs.declared.expr.Operation.{Operation};
ghost use Rattle.pw_tree.specs.declared.expr.Parameter.{Parameter};
ghost use Rattle.pw_tree.specs.declared.expr.PostfixOperation as postfix;
ghost use Rattle.pw_tree.specs.declared.expr.PostfixOperation.{PostfixOperation};
ghost use Rattle.pw_tree.specs.declared.expr.RecordKind.{RecordKind};
ghost use Rattle.pw_tree.specs.declared.expr.Specifier as specifier;
ghost use Rattle.pw_tree.specs.declared.expr.Suffix as suffix;
ghost use Rattle.pw_tree.specs.declared.expr.TypeName.{TypeName};
ghost use Rattle.pw_tree.specs.declared.expr.Word.{Word};
ghost use Rattle.pw_tree.specs.declared.stmt.Block.{Block};
ghost use Rattle.pw_tree.specs.declared.stmt.ElseIf.{ElseIf};
ghost use Rattle.pw_tree.specs.declared.stmt.Stmt as stmt;
ghost use Rattle.pw_tree.specs.declared.stmt.Stmt.{Stmt};

/// A contract sees an expression with a list or a type name in it as the plain tree of its operands and of what the
/// list shows.
pub fn expressions_show_their_lists()
    ensures postfix { (b : Box Expr Global) (ps : Vec PostfixOperation Global) → view_expr (expr.Postfix b ps) ≡ tree.Postfix (view_expr b.value) (view_postfixes ps.items) }
    ensures chain { (b : Box Expr Global) (os : Vec Operation Global) → view_expr (expr.Chain b os) ≡ tree.Chain (view_expr b.value) (view_operations os.items) }
    ensures size { (t : ℕ) (b : Box TypeName Global) → view_expr (expr.SizeofType t b) ≡ tree.SizeofType t (view_specifiers b.value.specifiers.items) (view_declarator b.value.declarator) }
    ensures cast { (t : ℕ) (b : Box TypeName Global) (e : Box Expr Global) → view_expr (expr.Cast t b e) ≡ tree.Cast t (view_specifiers b.value.specifiers.items) (view_declarator b.value.declarator) (view_expr e.value) }
    ensures call { (t : ℕ) (es : Vec Expr Global) (rest : tree.Postfixes) → view_postfix (postfix.Call t es) rest ≡ tree.Call t (view_arguments es.items) rest }
{}

/// What specifiers and declarators with lists in them show.
pub fn declarators_show_their_lists()
    ensures records { (t : ℕ) (r : RecordKind) (tag : Option Word) (ms : Vec Member Global) (rest : tree.Specifiers) → view_specifier (specifier.Record t r tag ms) rest ≡ tree.Record t r (view_tag tag) (view_members ms.items) rest }
    ensures enumerations { (t : ℕ) (tag : Option Word) (es : Vec Enumerator Global) (rest : tree.Specifiers) → view_specifier (specifier.Enum t tag es) rest ≡ tree.Enum t (view_tag tag) (view_enumerators es.items) rest }
    ensures plain_members { (d : Declarator) (rest : tree.MemberDeclarators) → view_member_declarator (member.Plain d) rest ≡ tree.PlainMember (view_declarator d) rest }
    ensures bit_fields { (d : Declarator) (t : ℕ) (e : Expr) (rest : tree.MemberDeclarators) → view_member_declarator (member.BitField d t e) rest ≡ tree.BitField (view_declarator d) t (view_expr e) rest }
    ensures enclosed { (t : ℕ) (b : Box Declarator Global) → view_core (core.Paren t b) ≡ tree.Enclosed t (view_declarator b.value) }
    ensures prototypes { (t : ℕ) (ps : Vec Parameter Global) (rest : tree.Suffixes) → view_suffix (suffix.Parameters t ps) rest ≡ tree.Prototype t (view_parameters ps.items) rest }
    ensures variadic { (t : ℕ) (ps : Vec Parameter Global) (rest : tree.Suffixes) → view_suffix (suffix.Variadic t ps) rest ≡ tree.Variadic t (view_parameters ps.items) rest }
{}

/// What initializers and statements with lists in them show.
pub fn statements_show_their_lists()
    ensures braces { (t : ℕ) (is : Vec Init Global) (trailing : Bool) → view_init (init.List t is trailing) ≡ tree.Braces t (view_inits is.items) trailing }
    ensures compound { (b : Block) → view_stmt (stmt.Block b) ≡ tree.Compound (view_block b) }
    ensures ifs { (t : ℕ) (c : Expr) (s : Box Stmt Global) (es : Vec ElseIf Global) (o : Option (Box Stmt Global)) → view_stmt (stmt.If t c s es o) ≡ tree.If t (view_expr c) (view_stmt s.value) (view_else_ifs es.items (view_otherwise o)) }
{}
