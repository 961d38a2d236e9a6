//! Laws on plain entries: they stand for themselves, and nothing is drawn for them.
ghost use Rattle.std.specs.Prelude.{◌≡◌, ℕ, List, [], ◌∷◌, None};
ghost use Rattle.std.specs.List.{AllByRecursion};
ghost use Rattle.streams.specs.Draw.{Words};
ghost use Rattle.plain_entries.specs.declared.departures.DepartureTime.{DepartureTime};
ghost use Rattle.plain_entries.specs.declared.departures.DepartureTime.TheVariants as departure;
ghost use Rattle.plain_entries.specs.declared.entry.Entry.{Entry};
ghost use Rattle.plain_entries.specs.declared.restarts.RestartTime.{RestartTime};
ghost use Rattle.plain_entries.specs.declared.spells.SpellTime.{SpellTime};
ghost use Rattle.plain_entries.specs.Departures.{departure_timing, gone_at};
ghost use Rattle.plain_entries.specs.Entries.{list_of};
ghost use Rattle.plain_entries.specs.Restarts.{restart_timing};
ghost use Rattle.plain_entries.specs.Spells.{spell_timing};
ghost use Rattle.plain_entries.specs.declared.script.Script.{Script};
ghost use Rattle.plain_entries.specs.Script.{plain_of};
ghost use Rattle.expansion.specs.Plain.{as_they_are, lists_as_they_are, IsPlainEntry, IsPlainScript};

/// Plain crashes, or leaves, stand for themselves.
pub fn plain_departures_stay()
    ensures { (start : ℕ → ℕ) (entries : List (Entry DepartureTime)) (words : Words) (plain : AllByRecursion (IsPlainEntry departure_timing) entries)
        → list_of departure_timing start entries words ≡ (as_they_are departure_timing 0 entries plain, words) }
{}

/// Plain restarts stand for themselves.
pub fn plain_restarts_stay()
    ensures { (start : ℕ → ℕ) (entries : List (Entry RestartTime)) (words : Words) (plain : AllByRecursion (IsPlainEntry restart_timing) entries)
        → list_of restart_timing start entries words ≡ (as_they_are restart_timing 0 entries plain, words) }
{}

/// Plain slow times, pauses or blocks stand for themselves.
pub fn plain_spells_stay()
    ensures { (start : ℕ → ℕ) (entries : List (Entry SpellTime)) (words : Words) (plain : AllByRecursion (IsPlainEntry spell_timing) entries)
        → list_of spell_timing start entries words ≡ (as_they_are spell_timing 0 entries plain, words) }
{}

/// A crash, or leave, of one member at a moment is plain.
pub fn one_departure_is_plain()
    ensures { (member at : ℕ) (entry : Entry DepartureTime) → entry.who.members.items ≡ member ∷ [] → entry.who.count ≡ None → entry.when ≡ departure.Once at 0 None
        → (plain : IsPlainEntry departure_timing entry) × (plain.member ≡ member) × (plain.time ≡ gone_at None at) }
{}

/// The six lists of a plain text stand for themselves, whatever the seed is.
pub fn plain_scripts_stay()
    ensures { (start : ℕ → ℕ) (script : Script) (words : Words) (plain : IsPlainScript script) → plain_of start script words ≡ lists_as_they_are script plain }
{}
