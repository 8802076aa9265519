//! A small program, `hello`: what it is by the definitions of the language, and what it does by the meaning of C.
//! An example of how a text is followed through the definitions on which the main theorem rests.
#![tactic(auto)]

ghost use Rattle.std.specs.Prelude.{◌≡◌, ◌≤◌, ◌+◌, ℕ, List, Ok, suc};
ghost use Rattle.pw_value.specs.ProgramNames.{main_name, putchar_name, start_name};
ghost use Rattle.pw_front_end.specs.Fronts.{HasTree};
ghost use Rattle.pw_check_rules.specs.Checks.{Checks};
ghost use Rattle.pw_cmean.specs.SourceRun.{source_run};
ghost use Rattle.pw_hello.specs.Hello.{hello, hello_run, hello_syntax, hello_text, hello_tree};

use pw_check_rules::checks_is_exact;
use pw_front_end::lexed_is_exact;

/// The text has this tree, and the tree is typed so.
pub fn hello_is_a_module()
    ensures tree { HasTree hello_text hello_syntax }
    ensures typed { Checks hello_syntax (Ok hello_tree) }
{
    lexed_is_exact();
    checks_is_exact();
}

/// Within any bound but 0 it writes "Hi" and ends with the status 0, whatever its input, where its two functions have room on
/// the stack and those of the library take none.
pub fn hello_says_hi()
    ensures { (frame_of : List ℕ → ℕ) (stack : ℕ) (input : List ℕ) (bound : ℕ) → frame_of main_name + frame_of start_name ≤ stack → frame_of putchar_name ≡ 0 → source_run hello frame_of stack input (suc bound) ≡ hello_run }
{}
