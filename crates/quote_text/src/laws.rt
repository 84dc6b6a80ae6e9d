//! What is written is read again. Each law is the contract of a function that does nothing.
ghost use Rattle.std.specs.Prelude.{◌≡◌, ℕ, Option, Some, true};
ghost use Rattle.venue_words.specs.Conditions.{fits_quote};
ghost use Rattle.quote_intake.specs.Price.{price_of};
ghost use Rattle.quote_text.specs.Sides.{side_text};

/// A side of a quote that is written is read as the same.
pub fn written_sides()
    ensures { (side : Option ℕ) → fits_quote side ≡ true → price_of (side_text side) ≡ Some side }
{}
