//! The places of a document while it is read.
use crate::span::Span;
use base::Memory;
use indexmap::IndexMap;
use std::alloc::Global;

/// What stands at a place.
#[derive(Drop)]
pub enum NodeContent {
    /// A whole number.
    Whole(i64),
    /// A boolean.
    Switch(bool),
    /// A string.
    Text(String),
    /// A number that isn't whole.
    Float,
    /// A date or a time.
    Datetime,
    /// A list, with the places of its items in their order.
    List(Vec<usize>),
    /// A table, with the places of its keys' values in the order of the text.
    Table(IndexMap<String, usize>),
}

/// A place: what stands there, and where.
#[derive(Drop)]
pub(crate) struct Node {
    /// The key, where it is the value of one.
    pub(crate) key: Option<Span>,
    /// The value; of a table or list that has headers, one of them; of a table that dotted keys make, its key.
    pub(crate) value: Span,
    /// Whether it is a table or a list that has a header.
    pub(crate) has_header: bool,
    pub(crate) content: NodeContent,
}

/// The places so far, each known by its number.
#[derive(Drop)]
pub(crate) struct Nodes {
    alloc: Global,
    pub(crate) list: Vec<Node>,
}

impl Nodes {
    /// The place of the whole text, which is a table.
    pub(crate) fn new(alloc: Global) -> Result<Nodes, Memory> {
        let mut list = Vec::new(alloc);
        list.push(Node {
            key: None,
            value: Span { start: 0, end: 0 },
            has_header: false,
            content: NodeContent::Table(IndexMap::new(alloc)),
        })?;
        Ok(Nodes { alloc, list })
    }

    /// The value of a key of a table, if it is there.
    pub(crate) fn child(&self, table: usize, key: &str) -> Option<usize> {
        match self.list.get(table) {
            Some(node) => match &node.content {
                NodeContent::Table(keys) => keys.get(key).copied(),
                _ => None,
            },
            None => None,
        }
    }

    /// Whether a place is a list.
    pub(crate) fn is_list(&self, place: usize) -> bool {
        match self.list.get(place) {
            Some(node) => matches!(node.content, NodeContent::List(_)),
            None => false,
        }
    }

    /// The place itself, or where it is a list that of its last item.
    pub(crate) fn latest(&self, place: usize) -> usize {
        match self.list.get(place) {
            Some(node) => match &node.content {
                NodeContent::List(items) => items.last().copied().unwrap_or(place),
                _ => place,
            },
            None => place,
        }
    }

    /// Adds a value: that of a key of a table, or where there is no key the next item of a list.
    pub(crate) fn add(
        &mut self,
        parent: usize,
        key: Option<String>,
        node: Node,
    ) -> Result<usize, Memory> {
        let place = self.list.len();
        self.list.push(node)?;
        match self.list.get_mut(parent) {
            Some(above) => attach(&mut above.content, key, place)?,
            None => {}
        }
        Ok(place)
    }

    /// Says where a value ends that begins at its place.
    pub(crate) fn close(&mut self, place: usize, end: usize) {
        if let Some(node) = self.list.get_mut(place) {
            node.value.end = end;
        }
    }

    /// Says that a table has a header.
    pub(crate) fn give_header(&mut self, place: usize, key: Span, header: Span) {
        if let Some(node) = self.list.get_mut(place) {
            node.key = Some(key);
            node.value = header;
            node.has_header = true;
        }
    }
}

/// Makes a place the value of a key of a table, or the next item of a list.
fn attach(content: &mut NodeContent, key: Option<String>, place: usize) -> Result<(), Memory> {
    match content {
        NodeContent::Table(keys) => match key {
            Some(name) => {
                keys.insert(name, place)?;
            }
            None => {}
        },
        NodeContent::List(items) => items.push(place)?,
        _ => {}
    }
    Ok(())
}
