//! The law of listings.

ghost use Rattle.std.specs.Prelude.{◌≡◌, ℕ, List};
ghost use Rattle.pw_image.specs.declared.image.Image.{Image};
ghost use Rattle.pw_list.specs.Listing.{IsListing};

/// No two texts are the listing of one image: neither the order of the functions nor a line leaves a choice.
pub fn an_image_has_one_listing()
    ensures { (image : Image) (one other : List ℕ) → IsListing image one → IsListing image other → one ≡ other }
{}
