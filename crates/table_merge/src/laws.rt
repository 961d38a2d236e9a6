//! What holds of tables that are put together.
ghost use Rattle.std.specs.Prelude.{◌≡◌, ◌≤◌, ℕ, List, [], Option, Some, None, All, Vec, length};
ghost use Rattle.std.specs.declared.alloc.Global.{Global};
ghost use Rattle.toml.specs.Data.{Data};
ghost use Rattle.sweep_plan.specs.Sweep.{Sweep, setting_count, run_count};
ghost use Rattle.sweep_plan.specs.declared.seeds.Seeds.{Seeds};
ghost use Rattle.sweep.specs.Runs.{Made, AreMadeBetween, IsAskedFor};
ghost use Rattle.figures.specs.declared.column_set.ColumnSet.{ColumnSet};
ghost use Rattle.figures.specs.declared.summary.SettingSummary.{SettingSummary};
ghost use Rattle.sweep_until.specs.Until.{AreMadeFrom};
ghost use Rattle.table_rows.specs.Made.{FitsLine};
ghost use Rattle.shard_merge.specs.Joined.{IsMark};
ghost use Rattle.shard_merge.specs.Genuine.{AreAll, AreShards, AreShardsOfSettings, IsAgain, IsWhole, IsWholeUntil};
ghost use Rattle.table_merge.specs.Seeds.{with_seeds};
ghost use Rattle.table_merge.specs.Merged.{Joins};
ghost use Rattle.table_merge.specs.Genuine.{AreTables, runs_with};

/// Where each of the texts is the table of a sweep with some of its seeds, and they are put together to the table of all of its
/// seeds, that is the table of the whole, and the summaries are those of its settings.
pub fn tables_of_all_seeds_are_the_whole()
    ensures { (texts : List (Vec ℕ Global)) (old new : Option (List ℕ)) (read : Sweep) (columns : ColumnSet) (settings : List SettingSummary) (mark : List ℕ) (tree : Data) (sweep : Sweep) (all : Seeds) (made : List Made)
        → Joins texts old new read columns settings → IsMark mark → IsAskedFor sweep → sweep ≡ with_seeds sweep all → read.seeds ≡ Some all → length made ≡ run_count sweep → All FitsLine made
        → AreTables tree texts mark sweep all made → IsWhole tree mark sweep made old new read columns settings }
{}

/// The runs of a sweep that have the seeds of a range are those that the sweep with these seeds asks for.
pub fn runs_with_seeds_are_those_of_their_sweep()
    ensures { (tree : Data) (sweep : Sweep) (all r : Seeds) (made : List Made) → sweep ≡ with_seeds sweep all → all.first ≤ r.first → r.first ≤ r.last → r.last ≤ all.last
        → AreMadeBetween tree sweep 0 (run_count sweep) made → AreMadeBetween tree (with_seeds sweep r) 0 (run_count (with_seeds sweep r)) (runs_with sweep all made r) }
{}

/// Where each of the texts is some shard of a sweep of which each setting runs with each seed, they are put together to the whole.
pub fn all_shards_are_the_whole()
    ensures { (texts : List (Vec ℕ Global)) (old new : Option (List ℕ)) (read : Sweep) (columns : ColumnSet) (settings : List SettingSummary) (mark : List ℕ) (tree : Data) (sweep : Sweep) (of : ℕ) (made : List Made)
        → Joins texts old new read columns settings → IsMark mark → IsAskedFor sweep → sweep.until ≡ None → length made ≡ run_count sweep → All FitsLine made
        → AreShards tree texts mark sweep of made → IsWhole tree mark sweep made old new read columns settings }
{}

/// The same where settings have as many runs as make their intervals narrow enough.
pub fn all_shards_of_settings_are_the_whole()
    ensures { (texts : List (Vec ℕ Global)) (old new : Option (List ℕ)) (read : Sweep) (columns : ColumnSet) (settings : List SettingSummary) (mark : List ℕ) (tree : Data) (sweep : Sweep) (width of : ℕ)
        (made : List (List Made)) → Joins texts old new read columns settings → IsMark mark → IsAskedFor sweep → sweep.until ≡ Some width
        → AreMadeFrom tree sweep width 0 (setting_count sweep.swept_keys) made → All (All FitsLine) made
        → AreShardsOfSettings tree texts mark sweep of made → IsWholeUntil tree mark sweep width old new read columns settings }
{}

/// Where the table to which texts were put together is put together alone, it is put again, of the same sweep.
pub fn the_table_alone_is_put_again()
    ensures { (texts again : List (Vec ℕ Global)) (table put : List ℕ) (sweep read : Sweep) (columns columns_too : ColumnSet) (settings others : List SettingSummary)
        → Joins texts (Some []) (Some table) sweep columns settings → AreAll again table → Joins again (Some []) (Some put) read columns_too others
        → IsAgain table sweep columns put read columns_too }
{}
