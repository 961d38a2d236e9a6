//! The text of a preset.
ghost use Rattle.std.specs.Prelude.{◌≡◌, ◌++◌, flat_map, option_map, IfOk, OnOk};
ghost use Rattle.std.specs.String.{string_bytes};
ghost use Rattle.presets.specs.Rows.{owners_value, row_text, setting_in, value_in, words_of};
ghost use Rattle.presets.specs.Texts.{comment_behind, gap_behind, line_text, settings_of, TellsSettings};

use crate::preset::Preset;
use crate::rows::{
    Owners, Row, Values, cluster_rows, cut_rows, gossip_rows, leave_rows, probing_rows,
    restart_rows, suspicion_rows,
};
use std::alloc::{AllocError, Global};

/// The column before which a comment has spaces.
const COLUMN: usize = 24;

impl Preset {
    /// The preset's scenario, a TOML document that is ready to run: each key of the format that its version
    /// has, with what it means in a comment; what it does without stands in comments too.
    pub fn text(self, alloc: Global) -> Result<String, AllocError>
        ensures { IfOk result (λ text. TellsSettings (settings_of self) (string_bytes text)) }
    {
        let mut text = String::new(alloc);
        push_rows(&mut text, self, &probing_rows())?;
        push_rows(&mut text, self, &suspicion_rows())?;
        push_rows(&mut text, self, &gossip_rows())?;
        push_rows(&mut text, self, &cluster_rows())?;
        push_rows(&mut text, self, &leave_rows())?;
        push_rows(&mut text, self, &restart_rows())?;
        push_rows(&mut text, self, &cut_rows())?;
        Ok(text)
    }
}

/// Adds the lines of rows, those that stand in the preset.
fn push_rows(text: &mut String, preset: Preset, rows: &[Row]) -> Result<(), AllocError>
    ensures { OnOk result (string_bytes text.new ≡ string_bytes text.old ++ flat_map (row_text preset) rows.now) }
{
    for row in rows {
        push_row(text, preset, row)?;
    }
    Ok(())
}

/// Adds the line of a row, where it stands in the preset.
fn push_row(text: &mut String, preset: Preset, row: &Row) -> Result<(), AllocError>
    ensures { OnOk result (string_bytes text.new ≡ string_bytes text.old ++ row_text preset row.now) }
{
    match setting_in(preset, row) {
        Some((head, value)) => push_line(text, head, value, words_of(row)),
        None => Ok(()),
    }
}

/// What a row sets in a preset, where it stands in it: what comes before a value, and the value.
fn setting_in(preset: Preset, row: &Row) -> Option<(&'static str, &'static str)>
    ensures { option_map (λ setting. setting.0.now ++ setting.1.now) result ≡ setting_in preset row.now }
{
    match row {
        Row::Same(text, _) => Some((*text, "")),
        Row::Newer(text, _) => match preset {
            Preset::Swim => None,
            _ => Some((*text, "")),
        },
        Row::Serf(text, _) => match preset {
            Preset::Serf | Preset::SerfWan | Preset::Consul | Preset::ConsulWan => {
                Some((*text, ""))
            }
            _ => None,
        },
        Row::Each(head, values, _) => Some((*head, value_of(preset, values)?)),
        Row::Owner(head, owners, _) => Some((*head, value_by_owner(preset, owners)?)),
    }
}

/// A key's value in a preset, by where its members are.
fn value_of(preset: Preset, values: &Values) -> Option<&'static str>
    ensures { option_map (λ value. value.now) result ≡ value_in preset values.now }
{
    match preset {
        Preset::Local => Some(values.local),
        Preset::Lan | Preset::Serf | Preset::Consul => Some(values.lan),
        Preset::Wan | Preset::SerfWan | Preset::ConsulWan => Some(values.wan),
        Preset::Swim => values.swim,
    }
}

/// A key's value in a preset, by whose program its members run.
fn value_by_owner(preset: Preset, owners: &Owners) -> Option<&'static str>
    ensures { option_map (λ value. value.now) result ≡ owners_value preset owners.now }
{
    match preset {
        Preset::Local | Preset::Lan | Preset::Wan => owners.memberlist,
        Preset::Serf | Preset::SerfWan => Some(owners.serf),
        Preset::Consul => Some(owners.consul),
        Preset::ConsulWan => Some(owners.consul_wan),
        Preset::Swim => None,
    }
}

/// The words on a row.
fn words_of(row: &Row) -> &'static str
    ensures { result.now ≡ words_of row.now }
{
    match row {
        Row::Same(_, words) => *words,
        Row::Newer(_, words) => *words,
        Row::Serf(_, words) => *words,
        Row::Each(_, _, words) => *words,
        Row::Owner(_, _, words) => *words,
    }
}

/// Adds a line: what it sets, and words on it.
fn push_line(text: &mut String, head: &str, value: &str, words: &str) -> Result<(), AllocError>
    ensures { OnOk result (string_bytes text.new ≡ string_bytes text.old ++ line_text (head.now ++ value.now) words.now) }
{
    text.push_str(head)?;
    text.push_str(value)?;
    push_comment(text, head.len() + value.len(), words)?;
    text.push_str("\n")
}

/// Adds a comment behind so many bytes of its line, where there are words.
fn push_comment(text: &mut String, behind: usize, words: &str) -> Result<(), AllocError>
    ensures { OnOk result (string_bytes text.new ≡ string_bytes text.old ++ comment_behind behind words.now) }
{
    if words.is_empty() {
        return Ok(());
    }
    for _space in 0..gap_behind(behind) {
        text.push_str(" ")?;
    }
    text.push_str("# ")?;
    text.push_str(words)
}

/// How many spaces stand before a comment behind so many bytes of its line.
fn gap_behind(behind: usize) -> usize
    ensures { result ≡ gap_behind behind }
{
    if behind == 0 {
        return 0;
    }
    COLUMN.saturating_sub(behind).max(1)
}
