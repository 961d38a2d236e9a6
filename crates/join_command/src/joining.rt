//! The shards of a sweep in files, put together into the table of the whole.
ghost use Rattle.std.specs.Prelude.{◌≡◌, ◌<◌, All, Some, [], IfOk, IfErr, OnOk, length, string_bytes};
ghost use Rattle.goals.specs.Wants.{HasFewRuns, IsBounded};
ghost use Rattle.sweep_plan.specs.Sweep.{setting_count};
ghost use Rattle.sweep_output.specs.Telling.{TellsSettings};
ghost use Rattle.join_command.specs.Outcomes.{FailsToGather, FailsToStoreAsked, FailsToStorePaged, GathersSettings, JoinFails, JoinsAll, StoresAsked, StoresPaged};

use crate::paging::page_of;
use crate::reading::{gather, name_at};
use crate::storing::{store, store_both};
use base::Memory;
use command_line::{Failure, JoinWords, Release};
use files::Files;
use shard_merge::Joined;
use std::alloc::Global;
use sweep_output::settings_printed;
use trace::Put;

/// Puts the shards in the files of the words together, and writes the table of the whole to a file, and a page of the settings to
/// another where one is asked for; they are made once the shards are put together. Returns the text of the settings.
/// `release` is what the page says of the program.
pub fn join_files<'a, F: Files>(
    alloc: Global,
    release: &Release<'_>,
    words: &JoinWords<'a>,
    files: &mut F,
) -> Result<String, Failure<'a>>
    requires wants { All IsBounded words.now.wants.items }
    ensures done { IfOk result
        (λ lines. JoinsAll release.now.version.now (F.known files.old) (F.known files.new) (F.making files.old) words.now (string_bytes lines)) }
    ensures failed { IfErr result (JoinFails (F.refused files.old < F.refused files.new) (F.known files.old) (F.known files.new) (F.making files.old) words.now) }
{
    let whole = gather_whole(alloc, words, files)?;
    let lines = text_of_settings(alloc, words, &whole.joined)?;
    store_asked(alloc, release, words, &whole, files)?;
    Ok(lines)
}

/// The table of a whole sweep, and what its settings came to.
#[derive(Drop)]
struct Whole {
    table: Vec<u8>,
    joined: Joined,
}

/// The shards in the files of the words, put together.
fn gather_whole<'a, F: Files>(
    alloc: Global,
    words: &JoinWords<'a>,
    files: &mut F,
) -> Result<Whole, Failure<'a>>
    ensures gathered { IfOk result
        (λ whole. GathersSettings (F.known files.old) words.now.files.items (Some []) (Some whole.table.items)
        whole.joined.plan whole.joined.columns whole.joined.settings.items) }
    ensures few { IfOk result (λ whole. All HasFewRuns whole.joined.settings.items) }
    ensures failed { IfErr result (FailsToGather (F.known files.old) words.now.files.items words.now.table) }
    ensures same { F.known files.new ≡ F.known files.old }
    ensures making { F.making files.new ≡ F.making files.old }
    ensures counted { F.refused files.new ≡ F.refused files.old }
{
    let mut table = Put::new(Vec::new(alloc));
    let joined = gather(
        alloc,
        words.files.as_slice(),
        words.table,
        files,
        &mut table,
    )?;
    Ok(Whole {
        table: table.into_inner(),
        joined,
    })
}

/// The text of the settings.
fn text_of_settings(
    alloc: Global,
    words: &JoinWords<'_>,
    joined: &Joined,
) -> Result<String, Failure<'static>>
    requires wants { All IsBounded words.now.wants.items }
    requires few { All HasFewRuns joined.now.settings.items }
    requires all { length joined.now.settings.items ≡ setting_count joined.now.plan.swept_keys }
    ensures text { IfOk result
        (λ lines. TellsSettings words.now.jsonl joined.now.columns joined.now.plan words.now.wants.items joined.now.settings.items (string_bytes lines)) }
    ensures refused { IfErr result (λ failure. failure ≡ Failure.Memory) }
{
    match settings_printed(
        alloc,
        &joined.plan,
        words.wants.as_slice(),
        words.jsonl,
        joined.columns,
        joined.settings.as_slice(),
    ) {
        Ok(lines) => Ok(lines),
        Err(Memory) => Err(Failure::Memory),
    }
}

/// Writes the table to the file that the words name, and a page of the settings to another where one is asked for.
fn store_asked<'a, F: Files>(
    alloc: Global,
    release: &Release<'_>,
    words: &JoinWords<'a>,
    whole: &Whole,
    files: &mut F,
) -> Result<(), Failure<'a>>
    requires wants { All IsBounded words.now.wants.items }
    requires few { All HasFewRuns whole.now.joined.settings.items }
    requires all { length whole.now.joined.settings.items ≡ setting_count whole.now.joined.plan.swept_keys }
    ensures done { OnOk result (StoresAsked words.now.page release.now.version.now (F.known files.old) (F.known files.new) (F.making files.old) words.now
        whole.now.joined.plan whole.now.joined.settings.items whole.now.table.items) }
    ensures failed { IfErr result (FailsToStoreAsked words.now.page (F.refused files.old < F.refused files.new) release.now.version.now
        (F.known files.old) (F.known files.new) (F.making files.old) words.now
        whole.now.joined.plan whole.now.joined.settings.items whole.now.table.items) }
{
    match words.page {
        Some(page) => store_paged(alloc, release, words, whole, page, files),
        None => {
            let source = name_at(words.files.as_slice(), words.table, 0);
            store(source, words.table, whole.table.as_slice(), files)
        }
    }
}

/// Writes the table and a page of the settings to files of these names. Either both are made or neither is.
fn store_paged<'a, F: Files>(
    alloc: Global,
    release: &Release<'_>,
    words: &JoinWords<'a>,
    whole: &Whole,
    page: &'a str,
    files: &mut F,
) -> Result<(), Failure<'a>>
    requires wants { All IsBounded words.now.wants.items }
    requires few { All HasFewRuns whole.now.joined.settings.items }
    requires all { length whole.now.joined.settings.items ≡ setting_count whole.now.joined.plan.swept_keys }
    ensures done { OnOk result (StoresPaged release.now.version.now page.entry.now (F.known files.old) (F.known files.new) (F.making files.old) words.now
        whole.now.joined.plan whole.now.joined.settings.items whole.now.table.items) }
    ensures failed { IfErr result (FailsToStorePaged (F.refused files.old < F.refused files.new) release.now.version.now page.entry.now
        (F.known files.old) (F.known files.new) (F.making files.old) words.now
        whole.now.joined.plan whole.now.joined.settings.items whole.now.table.items) }
{
    let source = name_at(words.files.as_slice(), words.table, 0);
    let text = page_of(
        alloc,
        release,
        words.tick,
        words.name,
        source,
        words.wants.as_slice(),
        &whole.joined,
    )?;
    store_both(
        source,
        words.table,
        whole.table.as_slice(),
        page,
        text.as_bytes(),
        files,
    )
}
