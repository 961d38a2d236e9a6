//! Laws of messages over links that are cut.

ghost use Rattle.std.specs.Prelude.{◌≡◌, ℕ, None};
ghost use Rattle.streams.specs.Draw.{Words};
ghost use Rattle.schema.specs.declared.schema.Version.TheVariants.{One};
ghost use Rattle.scenario.specs.Setup.{Setup, IsSound};
ghost use Rattle.scenario.specs.declared.settings.Cut.{Cut};
ghost use Rattle.links.specs.Arrival.{uncut_arrival_of, arrival_of, IsCutBy};

/// What is sent while the link is cut is lost, and nothing is drawn.
pub fn cut_links_lose_all()
    ensures { (s : Setup) (from to now : ℕ) (words : Words) (c : Cut) → IsCutBy s from to now c
        → arrival_of s from to now words ≡ (None, words) }
{}

/// What is sent at another moment travels as where no link is ever cut.
pub fn other_messages_are_not_changed()
    ensures { (s : Setup) (from to now : ℕ) (words : Words) → ((c : Cut) → ¬ (IsCutBy s from to now c))
        → arrival_of s from to now words ≡ uncut_arrival_of s from to now words }
{}

/// In version 1 of the format no link is ever cut.
pub fn first_version_cuts_nothing()
    ensures { (s : Setup) (from to now : ℕ) (words : Words) → IsSound s → s.version ≡ One
        → arrival_of s from to now words ≡ uncut_arrival_of s from to now words }
{}
