//! The limits of what the compiler takes and makes, and the places of the machine's memory.

ghost use Rattle.std.specs.Prelude.{◌≡◌};
ghost use Rattle.pw_value.specs.Limits.{name_limit, size_limit, shape_limit, depth_limit, parameter_limit, node_limit, room_limit};
ghost use Rattle.pw_value.specs.Limits.{module_limit, texts_limit, function_limit, global_limit, stack_least, stack_limit, kept_limit};
ghost use Rattle.pw_value.specs.Limits.{text_start, word_limit, memory_size};

/// The greatest count of bytes of a name.
pub const NAME_LIMIT: usize = 400;

/// The greatest size of an object and of every other complete type, in bytes.
pub const SIZE_LIMIT: u32 = 1_048_576;

/// The greatest length of the shape of a record or of a declared name, in bytes.
pub const SHAPE_LIMIT: usize = 4096;

/// How many pointers, arrays, functions and records may stand one inside the other in a type.
pub const DEPTH_LIMIT: u64 = 200;

/// The greatest count of a function's parameters, and of a call's arguments.
pub const PARAMETER_LIMIT: u32 = 127;

/// The greatest count of nodes of a function's typed tree.
pub const NODE_LIMIT: u64 = 20_000;

/// The greatest room of a function, and the most that the temporaries and slots of its flow graph may
/// come to, in bytes.
pub const ROOM_LIMIT: u32 = 1_048_576;

/// The greatest count of modules.
pub const MODULE_LIMIT: u64 = 256;

/// The greatest count of bytes of all modules' texts together.
pub const TEXTS_LIMIT: u64 = 16_777_216;

/// The greatest count of functions, without the library's, but with `$start`.
pub const FUNCTION_LIMIT: u64 = 4096;

/// The greatest count of objects with static lifetime, those of strings and the hidden ones included.
pub const GLOBAL_LIMIT: u64 = 8192;

/// The least size of the stack, in bytes.
pub const STACK_LEAST: u32 = 4096;

/// The greatest size of the stack, in bytes.
pub const STACK_LIMIT: u32 = 16_777_216;

/// How many bytes of a kept file are read, and count as the file.
pub const KEPT_LIMIT: usize = 268_435_456;

/// The address at which the machine's text begins.
pub const TEXT_START: u32 = 4096;

/// The greatest count of words of the machine's text.
pub const WORD_LIMIT: u32 = 65_536;

/// The size of the machine's memory in bytes, at whose end the stack ends at the latest.
pub const MEMORY_SIZE: u32 = 67_108_864;

/// The limits of a module are those that its definitions speak of.
pub fn limits_of_a_module()
    ensures name { NAME_LIMIT ≡ name_limit }
    ensures size { SIZE_LIMIT ≡ size_limit }
    ensures shape { SHAPE_LIMIT ≡ shape_limit }
    ensures depth { DEPTH_LIMIT ≡ depth_limit }
    ensures parameters { PARAMETER_LIMIT ≡ parameter_limit }
    ensures nodes { NODE_LIMIT ≡ node_limit }
    ensures room { ROOM_LIMIT ≡ room_limit }
{}

/// The limits of a program are those that its definitions speak of.
pub fn limits_of_a_program()
    ensures modules { MODULE_LIMIT ≡ module_limit }
    ensures texts { TEXTS_LIMIT ≡ texts_limit }
    ensures functions { FUNCTION_LIMIT ≡ function_limit }
    ensures globals { GLOBAL_LIMIT ≡ global_limit }
    ensures least_stack { STACK_LEAST ≡ stack_least }
    ensures greatest_stack { STACK_LIMIT ≡ stack_limit }
    ensures kept { KEPT_LIMIT ≡ kept_limit }
{}

/// The places of the machine are those that its definitions speak of.
pub fn places_of_the_machine()
    ensures text { TEXT_START ≡ text_start }
    ensures words { WORD_LIMIT ≡ word_limit }
    ensures memory { MEMORY_SIZE ≡ memory_size }
{}
