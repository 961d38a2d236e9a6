//! What holds of the lines that a sweep writes, and of a shard of whole settings that was cut off.
ghost use Rattle.std.specs.Prelude.{◌≡◌, ℕ, List, ◌++◌, None, [], Option, Some, take};
ghost use Rattle.std.specs.Option.{ForSome};
ghost use Rattle.toml.specs.Data.{Members, table, Data};
ghost use Rattle.sweep_plan.specs.Sweep.{Sweep};
ghost use Rattle.sweep.specs.Runs.{IsMadeAs, IsRunAt, Made, Planned};
ghost use Rattle.sweep.specs.Sums.{IsLineOf};
ghost use Rattle.sweep.specs.Table.{noted_line};
ghost use Rattle.sweep.specs.declared.summing.LineKey.{LineKey};
ghost use Rattle.table_rows.specs.Made.{FitsLine};
ghost use Rattle.table_rows.specs.Open.{HasRowOf};
ghost use Rattle.figures.specs.Notes.{Note};
ghost use Rattle.shards.specs.declared.shard.Shard.{Shard};
ghost use Rattle.sweep_until.specs.Shards.{WritesRestUntil};
ghost use Rattle.sweep.specs.declared.begun.BegunFault.TheVariants as begun_fault;
ghost use Rattle.table_rows.specs.Begun.{IsBegunSettings, RefusesBegunSettings};
ghost use Rattle.table_rows.specs.Cut.{IsCutShardOfSettings};

/// The line that is written of a run is taken for the line of that run: its checksum is right, it has the values of its place, the
/// seed that is asked for there or, where none is and it is known, that of the run's text, and its metadata agrees with its figures.
pub fn a_written_line_is_its_runs()
    ensures genuine { (key : LineKey) (members : Members) (sweep : Sweep) (number : ℕ) (p : Planned) (m : Made) → IsRunAt sweep number p
        → IsMadeAs (table members) p m → FitsLine m → (p.seed ≡ None → ForSome key.own (λ s. m.scenario.seed ≡ s))
        → IsLineOf key sweep number (noted_line key.columns key.digest m) }
    ensures read { (key : LineKey) (members : Members) (sweep : Sweep) (number : ℕ) (p : Planned) (m : Made) (behind : List ℕ) → IsRunAt sweep number p
        → IsMadeAs (table members) p m → FitsLine m → (p.seed ≡ None → ForSome key.own (λ s. m.scenario.seed ≡ s))
        → HasRowOf key sweep number (noted_line key.columns key.digest m ++ behind) }
{}

/// Where a text is a beginning of a shard that was made, it is taken for one, and what goes on behind the bytes of it that
/// stay, its whole lines, is that shard with them.
pub fn a_cut_shard_of_settings_goes_on()
    ensures goes_on { (tree : Data) (mark : List ℕ) (sweep : Sweep) (width : ℕ) (p : Shard) (made : List (List Made)) (text : List ℕ) (kept settings : ℕ) (before : List Note) (new : Option (List ℕ))
        → IsCutShardOfSettings tree mark sweep width p made text → IsBegunSettings tree mark sweep width p text kept settings before
        → WritesRestUntil tree mark sweep p kept settings before (Some (take kept text)) new → WritesRestUntil tree mark sweep p 0 0 [] (Some []) new }
    ensures taken { (tree : Data) (mark : List ℕ) (sweep : Sweep) (width : ℕ) (p : Shard) (made : List (List Made)) (text : List ℕ)
        → IsCutShardOfSettings tree mark sweep width p made text → ¬ (RefusesBegunSettings tree mark sweep p text begun_fault.Other) }
{}
