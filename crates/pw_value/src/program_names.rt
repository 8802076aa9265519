//! The names that have a meaning of their own, and the rule of the function `$start`, which the compiler
//! puts beside `main`.

ghost use Rattle.std.specs.Prelude.{ℕ, ◌≡◌, ◌↔◌, List, IsTrue, map};
ghost use Rattle.pw_value.specs.ProgramNames.{start_name, main_name, exit_name, getchar_name, putchar_name, library_name, library_functions, start_shape, main_shape, exit_shape, getchar_shape, putchar_shape};
ghost use Rattle.pw_value.specs.ProgramNames.{IsOrdinary, MayStand, may_stand, times, KeepsStart, keeps_start};
ghost use Rattle.pw_value.specs.declared.program_names.StartName.{StartName as AnyStartName};

use crate::name::Name;

/// The function at which the machine starts: it calls `main`, and `exit` with what `main` answers.
pub const START: &[u8] = b"$start";

/// The function at which a program starts.
pub const MAIN: &[u8] = b"main";

/// The library's function that ends a program.
pub const EXIT: &[u8] = b"exit";

/// The library's function that reads a byte.
pub const GETCHAR: &[u8] = b"getchar";

/// The library's function that writes a byte.
pub const PUTCHAR: &[u8] = b"putchar";

/// The name of the library as a module.
pub const LIBRARY: &[u8] = b"$lib";

/// The library's functions, in byte order.
pub const LIBRARY_FUNCTIONS: [&[u8]; 3] = [EXIT, GETCHAR, PUTCHAR];

/// The shape of `$start`.
pub const START_SHAPE: &[u8] = b"fv";

/// The shape of `main`.
pub const MAIN_SHAPE: &[u8] = b"fi";

/// The shape of `exit`.
pub const EXIT_SHAPE: &[u8] = b"fvi";

/// The shape of `getchar`.
pub const GETCHAR_SHAPE: &[u8] = b"fi";

/// The shape of `putchar`.
pub const PUTCHAR_SHAPE: &[u8] = b"fii";

/// Whether `$start` may stand in a name's place.
#[derive(Clone, Copy)]
pub enum StartName {
    Allowed,
    Refused,
}

/// Whether a name may stand where `$start` may, or may not.
pub fn is_allowed(start: StartName, name: &Name) -> bool
    ensures { result ≡ may_stand start name.now }
{
    match start {
        StartName::Allowed => true,
        StartName::Refused => name.as_bytes() != START,
    }
}

/// Whether a name is not `$start`.
pub fn is_ordinary(name: &Name) -> bool
    ensures { IsTrue result ↔ IsOrdinary name.now }
{
    is_allowed(StartName::Refused, name)
}

/// How often a name stands among these.
fn count_of(names: &[&Name], wanted: &[u8]) -> usize
    ensures { result ≡ times wanted.now (map (λ name. name.now) names.now) }
{
    let mut count = 0;
    for name in names {
        if name.as_bytes() == wanted {
            count += 1;
        }
    }
    count
}

/// The rule of a module's functions and objects: the functions include `$start` exactly where they
/// include `main`, and never twice, and no object has its name.
pub fn is_start_kept(functions: &[&Name], globals: &[&Name]) -> bool
    ensures { result ≡ keeps_start (map (λ name. name.now) functions.now) (map (λ name. name.now) globals.now) }
{
    let starts = count_of(functions, START);
    let has_main = count_of(functions, MAIN) > 0;
    (starts > 0) == has_main && starts <= 1 && count_of(globals, START) == 0
}

/// The names are those that the definitions speak of.
pub fn names_of_a_program()
    ensures start { START.now ≡ start_name }
    ensures main { MAIN.now ≡ main_name }
    ensures exit { EXIT.now ≡ exit_name }
    ensures getchar { GETCHAR.now ≡ getchar_name }
    ensures putchar { PUTCHAR.now ≡ putchar_name }
    ensures library { LIBRARY.now ≡ library_name }
    ensures library_functions { map (λ name. name.now) LIBRARY_FUNCTIONS ≡ library_functions }
    ensures start_shape { START_SHAPE.now ≡ start_shape }
    ensures main_shape { MAIN_SHAPE.now ≡ main_shape }
    ensures exit_shape { EXIT_SHAPE.now ≡ exit_shape }
    ensures getchar_shape { GETCHAR_SHAPE.now ≡ getchar_shape }
    ensures putchar_shape { PUTCHAR_SHAPE.now ≡ putchar_shape }
{}

/// The two decidable tests hold exactly where the rules do: whether a name may stand at a place (`MayStand`), and
/// whether a module has `$start` beside `main`, once, and as no object (`KeepsStart`).
pub fn start_tests_are_the_rules()
    ensures place { (start : AnyStartName) (name : List ℕ) → IsTrue (may_stand start name) ↔ MayStand start name }
    ensures module { (functions globals : List (List ℕ)) → IsTrue (keeps_start functions globals) ↔ KeepsStart functions globals }
{}
