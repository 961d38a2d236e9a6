//! What holds of shards that are put together.
ghost use Rattle.std.specs.Prelude.{◌≡◌, ℕ, List, [], Option, Some, None, All, Vec, length, take};
ghost use Rattle.std.specs.declared.alloc.Global.{Global};
ghost use Rattle.toml.specs.Data.{Data};
ghost use Rattle.sweep_plan.specs.Sweep.{Sweep, setting_count, run_count};
ghost use Rattle.sweep.specs.Runs.{Made, IsAskedFor};
ghost use Rattle.figures.specs.declared.column_set.ColumnSet.{ColumnSet};
ghost use Rattle.figures.specs.declared.summary.SettingSummary.{SettingSummary};
ghost use Rattle.sweep_until.specs.Until.{AreMadeFrom};
ghost use Rattle.shard_merge.specs.Joined.{IsMark, Joins};
ghost use Rattle.shards.specs.declared.shard.Shard.{Shard};
ghost use Rattle.sweep.specs.Shards.{WritesRest};
ghost use Rattle.sweep.specs.Resumed.{IsBegun, RefusesBegun};
ghost use Rattle.sweep.specs.declared.begun.BegunFault.TheVariants as begun_fault;
ghost use Rattle.table_rows.specs.Made.{FitsLine};
ghost use Rattle.shard_merge.specs.Genuine.{AreAll, AreShards, AreShardsOfSettings, IsAgain, IsCutShard, IsWhole, IsWholeUntil};

/// Where each of the texts is some shard of a sweep of which each setting runs with each seed, in whatever order they come and
/// into however many shards it was cut, what they are put together to is that sweep, the table of the whole, and the summaries
/// of its settings.
pub fn all_shards_are_the_whole()
    ensures { (texts : List (Vec ℕ Global)) (old new : Option (List ℕ)) (read : Sweep) (columns : ColumnSet) (settings : List SettingSummary) (mark : List ℕ) (tree : Data) (sweep : Sweep) (of : ℕ) (made : List Made)
        → Joins texts old new read columns settings → IsMark mark → IsAskedFor sweep → sweep.until ≡ None → length made ≡ run_count sweep → All FitsLine made
        → AreShards tree texts mark sweep of made → IsWhole tree mark sweep made old new read columns settings }
{}

/// Where each of the texts is some shard of a sweep whose settings have as many runs as make their intervals narrow enough, they are
/// put together to the table and the summaries of all its settings made in one go.
pub fn all_shards_of_settings_are_the_whole()
    ensures { (texts : List (Vec ℕ Global)) (old new : Option (List ℕ)) (read : Sweep) (columns : ColumnSet) (settings : List SettingSummary) (mark : List ℕ) (tree : Data) (sweep : Sweep) (width of : ℕ)
        (made : List (List Made)) → Joins texts old new read columns settings → IsMark mark → IsAskedFor sweep → sweep.until ≡ Some width
        → AreMadeFrom tree sweep width 0 (setting_count sweep.swept_keys) made → All (All FitsLine) made
        → AreShardsOfSettings tree texts mark sweep of made → IsWholeUntil tree mark sweep width old new read columns settings }
{}

/// Where a text is a beginning of a shard that was made, it is taken for one, and what goes on behind the bytes of it that
/// stay, its whole lines, is that shard with them.
pub fn a_cut_shard_goes_on()
    ensures goes_on { (tree : Data) (mark : List ℕ) (sweep : Sweep) (p : Shard) (made : List Made) (text : List ℕ) (kept runs : ℕ) (new : Option (List ℕ))
        → IsCutShard tree mark sweep p made text → IsBegun tree mark sweep p text kept runs → WritesRest tree mark sweep p kept runs (Some (take kept text)) new
        → WritesRest tree mark sweep p 0 0 (Some []) new }
    ensures taken { (tree : Data) (mark : List ℕ) (sweep : Sweep) (p : Shard) (made : List Made) (text : List ℕ)
        → IsCutShard tree mark sweep p made text → ¬ (RefusesBegun tree mark sweep p text begun_fault.Other) }
{}

/// Where the table to which shards were put together is put together alone, it is put again, of the same sweep.
pub fn the_table_alone_is_put_again()
    ensures { (texts again : List (Vec ℕ Global)) (table put : List ℕ) (sweep read : Sweep) (columns columns_too : ColumnSet) (settings others : List SettingSummary)
        → Joins texts (Some []) (Some table) sweep columns settings → AreAll again table → Joins again (Some []) (Some put) read columns_too others
        → IsAgain table sweep columns put read columns_too }
{}
