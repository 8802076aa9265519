//! Laws of the definitions that the layers above build on: functions that do nothing, and whose
//! contracts state them.

ghost use Rattle.std.specs.Prelude.{◌≡◌, ◌≢◌, ◌+◌, ◌*◌, ◌%◌, ◌^◌, ◌<◌, ◌≤◌, ◌⊎◌, ℕ, Bool, true, false, List, length, take, drop, ◌++◌};
ghost use Rattle.pw_value.specs.Values.{IsWidth, encoding, padded, scalar_in, pointer_in, extended};
ghost use Rattle.pw_value.specs.Objects.{Object, object_at, no_object, byte_at, bytes_from, with_bytes, IsInside, with_object, written, ended};
ghost use Rattle.pw_value.specs.declared.value.Value.{Value};
ghost use Rattle.pw_value.specs.declared.value.Value.TheVariants.{Undefined, Num, Null, At, Piece};
ghost use Rattle.pw_value.specs.declared.value.Byte.{Byte};
ghost use Rattle.pw_value.specs.declared.value.Pointer.{Pointer};

/// What `decode` gives back of what `encode` took, at one width: of a number its low bytes, extended.
pub fn decoding_gives_back()
    ensures undefined { (width : ℕ) (signed : Bool) → IsWidth width →
        scalar_in (take width (padded (encoding Undefined width))) signed ≡ Undefined }
    ensures piece { (p : Pointer) (i : ℕ) (signed : Bool) →
        scalar_in (take 1 (padded (encoding (Piece p i) 1))) signed ≡ Piece p i }
    ensures number { (n width : ℕ) (signed : Bool) → IsWidth width →
        scalar_in (take width (padded (encoding (Num n) width))) signed
        ≡ Num (extended width signed (n % 256 ^ width)) }
{}

/// What `decode_pointer` gives back of what `encode` took.
pub fn pointers_give_back()
    ensures null { pointer_in (padded (encoding Null 4)) ≡ Null }
    ensures pointer { (p : Pointer) → pointer_in (padded (encoding (At p) 4)) ≡ At p }
{}

/// What a number of so many bytes is as a word.
pub fn extended_numbers()
    ensures unsigned { (width n : ℕ) → extended width false n ≡ n }
    ensures below { (width n : ℕ) → 2 * n < 256 ^ width → extended width true n ≡ n }
    ensures negative { (width n : ℕ) → 256 ^ width ≤ 2 * n → n ≤ 256 ^ width → 256 ^ width ≤ 2 ^ 32 →
        extended width true n + 256 ^ width ≡ n + 2 ^ 32 }
{}

/// Reading and writing a range of an object's bytes.
pub fn ranges_of_bytes()
    ensures read_length { (n at : ℕ) (bytes : List Byte) → length (bytes_from n at bytes) ≡ n }
    ensures read_byte { (n at i : ℕ) (bytes : List Byte) → i < n →
        byte_at (bytes_from n at bytes) i ≡ byte_at bytes (at + i) }
    ensures read_part { (n at : ℕ) (bytes : List Byte) → IsInside n at bytes →
        bytes_from n at bytes ≡ take n (drop at bytes) }
    ensures written_length { (new : List Byte) (at : ℕ) (bytes : List Byte) →
        length (with_bytes new at bytes) ≡ length bytes }
    ensures written_part { (new : List Byte) (at : ℕ) (bytes : List Byte) → IsInside (length new) at bytes →
        with_bytes new at bytes ≡ take at bytes ++ new ++ drop (at + length new) bytes }
    ensures written_byte { (new : List Byte) (at i : ℕ) (bytes : List Byte) →
        IsInside (length new) at bytes → i < length new →
        byte_at (with_bytes new at bytes) (at + i) ≡ byte_at new i }
    ensures other_byte { (new : List Byte) (at i : ℕ) (bytes : List Byte) →
        (i < at) ⊎ (at + length new ≤ i) →
        byte_at (with_bytes new at bytes) i ≡ byte_at bytes i }
    ensures read_written { (new : List Byte) (at : ℕ) (bytes : List Byte) → IsInside (length new) at bytes →
        bytes_from (length new) at (with_bytes new at bytes) ≡ new }
    ensures read_beside { (n from : ℕ) (new : List Byte) (at : ℕ) (bytes : List Byte) →
        (from + n ≤ at) ⊎ (at + length new ≤ from) →
        bytes_from n from (with_bytes new at bytes) ≡ bytes_from n from bytes }
    ensures written_as_read { (n at : ℕ) (bytes : List Byte) → with_bytes (bytes_from n at bytes) at bytes ≡ bytes }
{}

/// The list of objects: a new one gets the next number, and a write or an end changes one object.
pub fn objects_by_number()
    ensures none { (objects : List Object) (n : ℕ) → length objects ≤ n → object_at objects n ≡ no_object }
    ensures made { (new : Object) (objects : List Object) → object_at (with_object new objects) (length objects) ≡ new }
    ensures made_count { (new : Object) (objects : List Object) → length (with_object new objects) ≡ length objects + 1 }
    ensures made_others { (new : Object) (objects : List Object) (n : ℕ) → n < length objects →
        object_at (with_object new objects) n ≡ object_at objects n }
    ensures written_object { (n at : ℕ) (new : List Byte) (objects : List Object) → n < length objects →
        object_at (written n at new objects) n
        ≡ record (object_at objects n) { bytes = with_bytes new at (object_at objects n).bytes } }
    ensures written_others { (n at m : ℕ) (new : List Byte) (objects : List Object) → m ≢ n →
        object_at (written n at new objects) m ≡ object_at objects m }
    ensures written_count { (n at : ℕ) (new : List Byte) (objects : List Object) →
        length (written n at new objects) ≡ length objects }
    ensures ended_object { (n : ℕ) (objects : List Object) → n < length objects →
        object_at (ended n objects) n ≡ record (object_at objects n) { live = false } }
    ensures ended_others { (n m : ℕ) (objects : List Object) → m ≢ n → object_at (ended n objects) m ≡ object_at objects m }
    ensures ended_count { (n : ℕ) (objects : List Object) → length (ended n objects) ≡ length objects }
{}
