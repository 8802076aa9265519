//! What lawful words say of their command.

ghost use Rattle.std.specs.Prelude.{◌≡◌, List, ℕ, Some};
ghost use Rattle.pw_top_words.specs.CommandLine.{command_of};
ghost use Rattle.pw_top_words.specs.Limits.{IsWithin};
ghost use Rattle.pw_top_words.specs.declared.commands.Command.{Command};

/// The numbers of a command lie within their limits, and a module's name is one.
pub fn commands_are_within()
    ensures { (words : List (List ℕ)) (command : Command) → command_of words ≡ Some command → IsWithin command }
{}
