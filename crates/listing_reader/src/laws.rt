//! What is written is read again. Each law is the contract of a function that does nothing.
ghost use Rattle.std.specs.Prelude.{◌≡◌, ℕ, ℤ, Some, true};
ghost use Rattle.venue_words.specs.declared.command.Event.{Event};
ghost use Rattle.venue_words.specs.declared.config.Config.{Config};
ghost use Rattle.venue_words.specs.Conditions.{IsConfig};
ghost use Rattle.fix_fields.specs.Forms.{amount_of};
ghost use Rattle.exec_reports.specs.Texts.{amount_text};
ghost use Rattle.listing.specs.Lines.{event_line};
ghost use Rattle.listing_reader.specs.Fitting.{has_word_names, fits_amount, fits_event};

/// An amount that is written is read as the same.
pub fn written_amounts()
    ensures { (amount : ℤ) → fits_amount amount ≡ true → amount_of (amount_text amount) ≡ Some amount }
{}

/// Two events that a listing tells by the same line are the same.
pub fn lines_differ_by_event()
    ensures { (config : Config) (symbol other : ℕ) (event second : Event) → IsConfig config → has_word_names config ≡ true →
        fits_event config event ≡ true → fits_event config second ≡ true →
        event_line config symbol event ≡ event_line config other second → event ≡ second }
{}
