//! Laws of visibility (ISO/IEC 9899:1990 6.1.2.1).

ghost use Rattle.std.specs.Prelude.{◌≡◌, ◌≢◌, ℕ, List, [], ◌∷◌, ◌++◌, None, Some, length, take};
ghost use Rattle.std.specs.Option.{option_or};
ghost use Rattle.pw_scope.specs.Visible.{visible};

/// Before any declaration no name stands for anything.
pub fn nothing_at_first<T>()
    ensures { (name : List ℕ) → visible {T = T} [] name ≡ None }
{}

/// Behind a declaration its name stands for what it says.
pub fn declared_is_visible<T>()
    ensures { (scope : List (List ℕ × T)) (name : List ℕ) (meaning : T) → visible (scope ++ (name, meaning) ∷ []) name ≡ Some meaning }
{}

/// A declaration leaves each other name as it was.
pub fn others_stay<T>()
    ensures { (scope : List (List ℕ × T)) (declared name : List ℕ) (meaning : T) → name ≢ declared → visible (scope ++ (declared, meaning) ∷ []) name ≡ visible scope name }
{}

/// What an inner scope declares hides what the outer one has, and no more.
pub fn inner_hides_outer<T>()
    ensures { (outer inner : List (List ℕ × T)) (name : List ℕ) → visible (outer ++ inner) name ≡ option_or (visible inner name) (visible outer name) }
{}

/// Where an inner scope is left, each name stands again for what it stood for at its start.
pub fn leaving_restores<T>()
    ensures { (outer inner : List (List ℕ × T)) (name : List ℕ) → visible (take (length outer) (outer ++ inner)) name ≡ visible outer name }
{}
