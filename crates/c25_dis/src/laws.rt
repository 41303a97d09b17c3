//! What listings say of their words.
ghost use Rattle.std.specs.Prelude.{◌≡◌, ℕ, List};
ghost use Rattle.std.specs.List.{flat_map, AllByRecursion};
ghost use Rattle.c25_image.specs.ImageReading.{AreWords};
ghost use Rattle.c25_dis.specs.Listing.{LineFits, line_words, lines_of};

/// The lines of a listing stand for its words, one behind another, so no word is lost and none stands twice; and each instruction
/// has its operands in their ranges. The call does nothing.
pub fn lines_stand_for_words()
    ensures words { (words : List ℕ) → AreWords words → flat_map line_words (lines_of words) ≡ words }
    ensures fits { (words : List ℕ) → AreWords words → AllByRecursion LineFits (lines_of words) }
{}
