//! The law of such rules.

ghost use Rattle.std.specs.Prelude.{◌≡◌, ℕ, ◌+◌, ◌<◌, Ok, List, length, get_or, drop};
ghost use Rattle.pw_check_walk.specs.Items.{ItemByItem};
ghost use Rattle.pw_check_walk.specs.Walks.{Walk, outcome};

/// What is left of a list from a place on comes to what is left behind the place, where the item there made something.
pub fn turns_follow<X, A, C, S>()
    ensures { (over : List X → A → S → Walk (C × S)) (one : X → List X → A → S → Walk (A × S)) → ItemByItem over one → (xs : List X) (n : ℕ) (x : X) (a c : A) (s mid : S) → n < length xs → x ≡ get_or xs n x → outcome (one x (drop (n + 1) xs) a s) ≡ Ok (c, mid) → outcome (over (drop n xs) a s) ≡ outcome (over (drop (n + 1) xs) c mid) }
{}
