//! Writes at places of lists.

ghost use Rattle.std.specs.Prelude.{◌≡◌};
ghost use Rattle.pw_check_rules.specs.States.{put_at};

/// The list with this at the place; past its end it stays as it is.
#[tactic(auto, using(crate::proofs::PlaceLemmas::put_within, crate::proofs::PlaceLemmas::put_past))]
pub(crate) fn put<T: Drop>(items: &mut Vec<T>, place: u32, item: T)
    ensures { items.new.items ≡ put_at place item items.old.items }
{
    if let Some(old) = items.get_mut(place as usize) {
        *old = item;
    }
}
