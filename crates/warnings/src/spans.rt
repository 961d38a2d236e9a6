//! Finds the byte range of what a warning is about in the parsed TOML: a key, an item, a table or the text's end.
use crate::about::About;
use crate::origins::item_of;
use base::{MemberId, Memory};
use indexmap::IndexMap;
use plain_entries::{Departure, Plain, PlainScript};
use scenario::Scenario;
use std::alloc::Global;
use toml_places::{NodeContent, Places, Span};

/// A text in which what warnings are about is looked for.
#[derive(Clone, Copy)]
pub(crate) struct Document<'a> {
    pub(crate) places: &'a Places,
    /// The plain entries of its lists, where these aren't its items.
    pub(crate) plain: Option<&'a PlainScript>,
    /// The items of its crashes by their members' names.
    pub(crate) crashes: &'a IndexMap<String, usize>,
}

/// The items of the list of crashes, by their members' names. Of a text with these plain entries each
/// member's first one counts.
pub(crate) fn crash_items(
    alloc: Global,
    places: &Places,
    scenario: &Scenario,
    plain: Option<&PlainScript>,
) -> Result<IndexMap<String, usize>, Memory> {
    match plain {
        Some(plain) => plain_crash_items(alloc, places, scenario, plain.crashes.as_slice()),
        None => written_crash_items(alloc, places),
    }
}

/// The same of crashes that are the list's items.
fn written_crash_items(alloc: Global, places: &Places) -> Result<IndexMap<String, usize>, Memory> {
    let mut items = IndexMap::new(alloc);
    for item in items_of(places, "crash") {
        if let Some(name) = member_of(places, *item) {
            items.insert(String::from_str(alloc, name)?, *item)?;
        }
    }
    Ok(items)
}

/// The same of these crashes.
fn plain_crash_items(
    alloc: Global,
    places: &Places,
    scenario: &Scenario,
    crashes: &[Plain<Departure>],
) -> Result<IndexMap<String, usize>, Memory> {
    let listed = items_of(places, "crash");
    let mut items = IndexMap::new(alloc);
    for crash in crashes {
        if let Some(item) = listed.get(crash.entry) {
            add_crash(alloc, &mut items, scenario, crash.member, *item)?;
        }
    }
    Ok(items)
}

/// Keeps the item of a member's crash, where it is the member's first.
fn add_crash(
    alloc: Global,
    items: &mut IndexMap<String, usize>,
    scenario: &Scenario,
    member: MemberId,
    item: usize,
) -> Result<(), Memory> {
    if member.index() >= scenario.members() {
        return Ok(());
    }
    let name = scenario.name(member);
    if items.get(name).is_some() {
        return Ok(());
    }
    items.insert(String::from_str(alloc, name)?, item)?;
    Ok(())
}

/// The places of the items of a list of the whole text; none where no list is there.
fn items_of<'p>(places: &'p Places, list: &str) -> &'p [usize] {
    match places.child(Places::TOP, list) {
        Some(place) => match places.content(place) {
            Some(NodeContent::List(items)) => items.as_slice(),
            _ => &[],
        },
        None => &[],
    }
}

/// The member that an item names.
fn member_of(places: &Places, item: usize) -> Option<&str> {
    text_at(places, item, "member")
}

/// The text that a key of an item says.
fn text_at<'p>(places: &'p Places, item: usize, key: &str) -> Option<&'p str> {
    let place = places.child(item, key)?;
    match places.content(place) {
        Some(NodeContent::Text(name)) => Some(name.as_str()),
        _ => None,
    }
}

/// Where what a warning is about stands.
pub(crate) fn span_of(document: &Document<'_>, scenario: &Scenario, about: About) -> Span {
    let places = document.places;
    match about {
        About::Timeout => key_in(places, "swim", "timeout"),
        About::Period => key_in(places, "swim", "period"),
        About::End => key_of(places, Places::TOP, "end"),
        About::Confirmations => key_in(places, "lifeguard", "confirmations"),
        About::Helpers => key_in(places, "swim", "helpers"),
        About::LinkLoss => key_in(places, "link", "loss"),
        About::Lifeguard => table_of(places, "lifeguard"),
        About::Spread => key_in(places, "swim", "spread"),
        About::Gossip => table_of(places, "gossip"),
        About::Path(number) => span_of_item(document, ItemList::Path, number),
        About::PathLoss(number) => span_of_key(document, ItemList::Path, number, "loss"),
        About::Slow(number) => span_of_item(document, ItemList::Slow, number),
        About::SlowExtra(number) => span_of_key(document, ItemList::Slow, number, "extra"),
        About::Crash(member) => crash_of(places, document.crashes, scenario, member),
        About::Leave(number) => span_of_item(document, ItemList::Leave, number),
        About::Cut(number) => span_of_item(document, ItemList::Cut, number),
        About::Pause(number) => span_of_item(document, ItemList::Pause, number),
    }
}

/// A list of which warnings are.
#[derive(Clone, Copy)]
enum ItemList {
    Path,
    Slow,
    Leave,
    Cut,
    Pause,
}

/// Its name.
fn name_of(list: ItemList) -> &'static str {
    match list {
        ItemList::Path => "path",
        ItemList::Slow => "slow",
        ItemList::Leave => "leave",
        ItemList::Cut => "cut",
        ItemList::Pause => "pause",
    }
}

/// Where the item begins of which the entry of this number is.
fn span_of_item(document: &Document<'_>, list: ItemList, number: usize) -> Span {
    let item = written_item(document, list, number);
    item_of_list(document.places, name_of(list), item)
}

/// A key of that item, or where the item begins.
fn span_of_key(document: &Document<'_>, list: ItemList, number: usize, key: &str) -> Span {
    let item = written_item(document, list, number);
    key_of_item(document.places, name_of(list), item, key)
}

/// The item of which the entry of this number is.
fn written_item(document: &Document<'_>, list: ItemList, number: usize) -> usize {
    match document.plain {
        Some(plain) => plain_item(document.places, plain, list, number),
        None => number,
    }
}

/// The same of a text with these plain entries.
fn plain_item(places: &Places, plain: &PlainScript, list: ItemList, number: usize) -> usize {
    match list {
        ItemList::Path => way_item(places, "path", number),
        ItemList::Slow => item_of(plain.slows.as_slice(), number),
        ItemList::Leave => item_of(plain.leaves.as_slice(), number),
        ItemList::Cut => way_item(places, "cut", number),
        ItemList::Pause => item_of(plain.pauses.as_slice(), number),
    }
}

/// The item of paths or cuts of which the entry of this number is: one that goes both ways stands for
/// two.
fn way_item(places: &Places, list: &str, number: usize) -> usize {
    let mut left = number;
    for (item, place) in items_of(places, list).iter().enumerate() {
        let ways = ways_of(places, *place);
        if left < ways {
            return item;
        }
        left -= ways;
    }
    number
}

/// How many entries an item of paths or cuts stands for.
fn ways_of(places: &Places, item: usize) -> usize {
    if goes_both_ways(places, item) { 2 } else { 1 }
}

/// Whether an item stands for two entries, one each way.
fn goes_both_ways(places: &Places, item: usize) -> bool {
    is_switched_on(places, item, "both") && !is_of_one_group(places, item)
}

/// Whether a switch of an item is on.
fn is_switched_on(places: &Places, item: usize, key: &str) -> bool {
    match places.child(item, key) {
        Some(place) => match places.content(place) {
            Some(NodeContent::Switch(is_on)) => *is_on,
            _ => false,
        },
        None => false,
    }
}

/// Whether an item is from a group to itself.
fn is_of_one_group(places: &Places, item: usize) -> bool {
    match text_at(places, item, "from") {
        Some(from) => match text_at(places, item, "to") {
            Some(to) => from == to,
            None => false,
        },
        None => false,
    }
}

/// Where a table of the whole text begins; the end of the text where it isn't there.
fn table_of(places: &Places, table: &str) -> Span {
    match places.child(Places::TOP, table) {
        Some(place) => places.header(place),
        None => places.end(),
    }
}

/// A key of a table of the whole text, or what lacks it.
fn key_in(places: &Places, table: &str, key: &str) -> Span {
    match places.child(Places::TOP, table) {
        Some(place) => key_of(places, place, key),
        None => places.end(),
    }
}

/// A key of a table, or where the table begins.
fn key_of(places: &Places, table: usize, key: &str) -> Span {
    match places.child(table, key) {
        Some(place) => places.key(place),
        None => places.header(table),
    }
}

/// Where the item of a list begins.
fn item_of_list(places: &Places, list: &str, number: usize) -> Span {
    match items_of(places, list).get(number) {
        Some(item) => places.header(*item),
        None => places.end(),
    }
}

/// A key of the item of a list, or where the item begins.
fn key_of_item(places: &Places, list: &str, number: usize, key: &str) -> Span {
    match items_of(places, list).get(number) {
        Some(item) => key_of(places, *item, key),
        None => places.end(),
    }
}

/// Where the crash of a member begins.
fn crash_of(
    places: &Places,
    crashes: &IndexMap<String, usize>,
    scenario: &Scenario,
    member: usize,
) -> Span {
    if member >= scenario.members() {
        return places.end();
    }
    match crashes.get(scenario.name(MemberId(member as u16))) {
        Some(item) => places.header(*item),
        None => places.end(),
    }
}
