//! The places of a document.
ghost use Rattle.std.specs.Prelude.{◌≡◌, option_copied, option_and_then};
ghost use Rattle.toml_places.specs.Places.{IsWithin};
ghost use Rattle.toml_places.specs.Found.{text_length, content_at, value_of, item_of, step_of, path_end};

use crate::nodes::{Node, NodeContent};
use crate::span::Span;

/// A step of a path: to the value of a key, or to the item of a number, counted from 0.
#[derive(Clone, Copy, Debug, PartialEq, Eq)]
pub enum Step<'a> {
    Key(&'a str),
    Item(usize),
}

/// The places of a document. Each is known by a number; 0 is the whole text.
#[derive(Drop)]
pub struct Places {
    /// How many bytes the text has.
    pub(crate) length: usize,
    nodes: Vec<Node>,
}

impl Places {
    /// The number of the whole text.
    pub const TOP: usize = 0;

    /// The places of a text of this length.
    pub(crate) fn new(nodes: Vec<Node>, length: usize) -> Places
        ensures { result.length ≡ length }
    {
        Places { length, nodes }
    }

    /// What stands at a place.
    pub fn content(&self, place: usize) -> Option<&NodeContent>
        ensures { option_copied result ≡ content_at self.now place }
    {
        match self.nodes.get(place) {
            Some(node) => Some(&node.content),
            None => None,
        }
    }

    /// The place of the value of a key of a table.
    pub fn child(&self, table: usize, key: &str) -> Option<usize>
        ensures { result ≡ option_and_then (value_of key.now) (content_at self.now table) }
    {
        match self.content(table) {
            Some(NodeContent::Table(keys)) => keys.get(key).copied(),
            _ => None,
        }
    }

    /// The place of the item of a number in a list.
    pub fn item(&self, list: usize, number: usize) -> Option<usize>
        ensures { result ≡ option_and_then (item_of number) (content_at self.now list) }
    {
        match self.content(list) {
            Some(NodeContent::List(items)) => items.get(number).copied(),
            _ => None,
        }
    }

    /// The place at the end of a path from the whole text.
    pub fn find(&self, path: &[Step<'_>]) -> Option<usize>
        ensures { result ≡ path_end self.now 0 path.now }
    {
        let mut place = Places::TOP;
        for step in path {
            let Some(next) = self.next(place, step) else {
                return None;
            };
            place = next;
        }
        Some(place)
    }

    /// Where a step leads from a place.
    fn next(&self, place: usize, step: &Step<'_>) -> Option<usize>
        ensures { result ≡ option_and_then (step_of step.now) (content_at self.now place) }
    {
        match step {
            Step::Key(key) => self.child(place, *key),
            Step::Item(number) => self.item(place, *number),
        }
    }

    /// Where the key of a place stands; of an item, where its value does.
    pub fn key(&self, place: usize) -> Span
        ensures { IsWithin (text_length self.now) result }
    {
        match self.nodes.get(place) {
            Some(node) => node.key.unwrap_or(node.value).within(self.length),
            None => self.end(),
        }
    }

    /// Where the value of a place stands. Of a table with headers it is the last header.
    pub fn value(&self, place: usize) -> Span
        ensures { IsWithin (text_length self.now) result }
    {
        match self.nodes.get(place) {
            Some(node) => node.value.within(self.length),
            None => self.end(),
        }
    }

    /// Where a table begins: its header, else its key, else its value; of the whole text, its end.
    pub fn header(&self, place: usize) -> Span
        ensures { IsWithin (text_length self.now) result }
    {
        match self.nodes.get(place) {
            Some(node) if place > 0 => {
                let key = node.key.unwrap_or(node.value);
                let span = if node.has_header { node.value } else { key };
                span.within(self.length)
            }
            _ => self.end(),
        }
    }

    /// The end of the text.
    pub fn end(&self) -> Span
        ensures { IsWithin (text_length self.now) result }
    {
        Span {
            start: self.length,
            end: self.length,
        }
    }
}
