//! The law of listings.
ghost use Rattle.std.specs.Prelude.{◌≡◌, ◌≤◌, ℕ, List, length, Ok};
ghost use Rattle.c25_image.specs.ImageReading.{AreWords};
ghost use Rattle.c25_dis.specs.Listing.{listing_text};
ghost use Rattle.c25_asm.specs.AssemblerText.{assembled};

/// The listing of at most 65,536 words is assembled to these words. The call does nothing: its clause is what callers cite.
pub fn listings_are_assembled()
    ensures { (words : List ℕ) → AreWords words → length words ≤ 65536 → assembled (listing_text words) ≡ Ok words }
{}
