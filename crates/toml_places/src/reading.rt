//! From a text to its places.
ghost use Rattle.std.specs.Prelude.{◌≡◌, length, IfOk};
ghost use Rattle.toml_places.specs.Found.{text_length};

use crate::keys::{after, read_part};
use crate::nodes::{Node, NodeContent, Nodes};
use crate::places::Places;
use crate::span::Span;
use base::Memory;
use indexmap::IndexMap;
use std::alloc::Global;
use toml_parser::text::{byte_at, first, skip_blank, skip_ws};
use toml_parser::{ParseError, RECURSION_LIMIT, Scalar, quoted, starts_string, unquoted};

/// Reads the places of a TOML document from its text. Of a text that is none, those up to some place
/// before its fault.
pub fn read(alloc: Global, text: &str) -> Result<Places, Memory>
    ensures { IfOk result (λ places. text_length places ≡ length text.now) }
{
    let nodes = read_nodes(alloc, text)?;
    Ok(Places::new(nodes.list, text.len()))
}

/// Reads the places one step after the other: each step takes a byte at least.
fn read_nodes(alloc: Global, text: &str) -> Result<Nodes, Memory> {
    let mut reader = Reader {
        alloc,
        length: text.len(),
        nodes: Nodes::new(alloc)?,
        open: Vec::new(alloc),
        table: Places::TOP,
    };
    let mut rest = skip_mark(text);
    for _step in 0..text.len() {
        match reader.step(rest)? {
            Some(next) => rest = next,
            None => break,
        }
    }
    Ok(reader.nodes)
}

/// After the mark by which some programs begin a text.
fn skip_mark(text: &str) -> &str {
    if text.starts_with('\u{feff}') {
        after(text, 3)
    } else {
        text
    }
}

/// A text that is being read.
#[derive(Drop)]
struct Reader {
    alloc: Global,
    /// How many bytes the text has.
    length: usize,
    nodes: Nodes,
    /// The lists and inline tables that are open, the inmost last.
    open: Vec<usize>,
    /// The table of the last header.
    table: usize,
}

/// A key whose value comes next: the table that it stands in, its last part, and what follows it.
#[derive(Drop)]
struct Leaf<'t> {
    table: usize,
    name: String,
    span: Span,
    rest: &'t str,
}

impl Reader {
    /// Reads the next header, key with its value, item, comma or end of a list or an inline table. What
    /// follows it; none where the text ends, or doesn't go on like a document.
    fn step<'t>(&mut self, rest: &'t str) -> Result<Option<&'t str>, Memory> {
        let rest = skip_blank(rest, true);
        match self.open.last().copied() {
            Some(place) => self.step_inside(place, rest),
            None => match first(rest) {
                0 => Ok(None),
                b'[' => self.header(rest),
                _ => self.entry(self.table, rest),
            },
        }
    }

    /// Reads on in a list or an inline table.
    fn step_inside<'t>(&mut self, place: usize, rest: &'t str) -> Result<Option<&'t str>, Memory> {
        match first(rest) {
            0 => Ok(None),
            b',' => Ok(Some(after(rest, 1))),
            b']' | b'}' => {
                let next = after(rest, 1);
                self.nodes
                    .close(place, self.length.saturating_sub(next.len()));
                let _ = self.open.pop();
                Ok(Some(next))
            }
            _ if self.nodes.is_list(place) => self.value(place, None, None, rest),
            _ => self.entry(place, rest),
        }
    }

    /// Reads a header.
    fn header<'t>(&mut self, rest: &'t str) -> Result<Option<&'t str>, Memory> {
        let brackets = if byte_at(rest, 1) == b'[' { 2 } else { 1 };
        match self.leaf(Places::TOP, skip_ws(after(rest, brackets)))? {
            Some(leaf) => {
                let next = after(leaf.rest, brackets);
                let header = Span::between(self.length, rest.len(), next.len());
                self.table = if brackets == 2 {
                    self.add_item(leaf, header)?
                } else {
                    self.open_table(leaf, header)?
                };
                Ok(Some(next))
            }
            None => Ok(None),
        }
    }

    /// The table of a header.
    fn open_table(&mut self, leaf: Leaf<'_>, header: Span) -> Result<usize, Memory> {
        let span = leaf.span;
        let place = self.table_below(leaf.table, leaf.name, span)?;
        self.nodes.give_header(place, span, header);
        Ok(place)
    }

    /// The table of a header of a list, its next item.
    fn add_item(&mut self, leaf: Leaf<'_>, header: Span) -> Result<usize, Memory> {
        let list = match self.nodes.child(leaf.table, leaf.name.as_str()) {
            Some(place) => place,
            None => {
                let content = NodeContent::List(Vec::new(self.alloc));
                let node = Node {
                    key: Some(leaf.span),
                    value: header,
                    has_header: true,
                    content,
                };
                self.nodes.add(leaf.table, Some(leaf.name), node)?
            }
        };
        let node = Node {
            key: None,
            value: header,
            has_header: true,
            content: NodeContent::Table(IndexMap::new(self.alloc)),
        };
        self.nodes.add(list, None, node)
    }

    /// Reads a key of one part or of several, from a table on, and opens the tables before its last part.
    fn leaf<'t>(&mut self, table: usize, s: &'t str) -> Result<Option<Leaf<'t>>, Memory> {
        let mut table = table;
        let mut rest = s;
        for _part in 0..=RECURSION_LIMIT {
            let Some(part) = read_part(self.alloc, self.length, rest)? else {
                return Ok(None);
            };
            rest = skip_ws(part.rest);
            if first(rest) != b'.' {
                return Ok(Some(Leaf {
                    table,
                    name: part.name,
                    span: part.span,
                    rest,
                }));
            }
            table = self.table_below(table, part.name, part.span)?;
            rest = skip_ws(after(rest, 1));
        }
        Ok(None)
    }

    /// The table of a key, which is made where it isn't there; of a list its last item.
    fn table_below(&mut self, table: usize, name: String, span: Span) -> Result<usize, Memory> {
        match self.nodes.child(table, name.as_str()) {
            Some(place) => Ok(self.nodes.latest(place)),
            None => {
                let node = Node {
                    key: Some(span),
                    value: span,
                    has_header: false,
                    content: NodeContent::Table(IndexMap::new(self.alloc)),
                };
                self.nodes.add(table, Some(name), node)
            }
        }
    }

    /// Reads a key with its value.
    fn entry<'t>(&mut self, table: usize, rest: &'t str) -> Result<Option<&'t str>, Memory> {
        match self.leaf(table, rest)? {
            Some(leaf) if first(leaf.rest) == b'=' => {
                let value = skip_ws(after(leaf.rest, 1));
                self.value(leaf.table, Some(leaf.name), Some(leaf.span), value)
            }
            _ => Ok(None),
        }
    }

    /// Reads a value, or opens a list or an inline table.
    fn value<'t>(
        &mut self,
        parent: usize,
        name: Option<String>,
        key: Option<Span>,
        s: &'t str,
    ) -> Result<Option<&'t str>, Memory> {
        let opened = match first(s) {
            b'[' => NodeContent::List(Vec::new(self.alloc)),
            b'{' => NodeContent::Table(IndexMap::new(self.alloc)),
            _ => return self.plain_value(parent, name, key, s),
        };
        let next = after(s, 1);
        let place = self.add_value(parent, name, key, s, next, opened)?;
        self.open.push(place)?;
        Ok(Some(next))
    }

    /// Reads a value that is neither a list nor a table.
    fn plain_value<'t>(
        &mut self,
        parent: usize,
        name: Option<String>,
        key: Option<Span>,
        s: &'t str,
    ) -> Result<Option<&'t str>, Memory> {
        let read = if starts_string(s) {
            read_string(self.alloc, s)?
        } else {
            read_scalar(self.alloc, s)?
        };
        match read {
            Some(Plain { content, rest }) => {
                let _place = self.add_value(parent, name, key, s, rest, content)?;
                Ok(Some(rest))
            }
            None => Ok(None),
        }
    }

    /// Adds the value that stands between two rests of the text.
    fn add_value(
        &mut self,
        parent: usize,
        name: Option<String>,
        key: Option<Span>,
        from: &str,
        to: &str,
        content: NodeContent,
    ) -> Result<usize, Memory> {
        let node = Node {
            key,
            value: Span::between(self.length, from.len(), to.len()),
            has_header: false,
            content,
        };
        self.nodes.add(parent, name, node)
    }
}

/// A value that is neither a list nor a table, and what follows it.
#[derive(Drop)]
struct Plain<'t> {
    content: NodeContent,
    rest: &'t str,
}

/// Reads a string.
fn read_string<'t>(alloc: Global, s: &'t str) -> Result<Option<Plain<'t>>, Memory> {
    if !starts_string(s) {
        return Ok(None);
    }
    match quoted(alloc, s) {
        Ok((text, rest)) => Ok(Some(Plain {
            content: NodeContent::Text(text),
            rest,
        })),
        Err(ParseError::OutOfMemory) => Err(Memory),
        Err(ParseError::At(..)) => Ok(None),
    }
}

/// Reads a number, a boolean, a date or a time.
fn read_scalar<'t>(alloc: Global, s: &'t str) -> Result<Option<Plain<'t>>, Memory> {
    match unquoted(alloc, s) {
        Ok((scalar, rest)) => Ok(Some(Plain {
            content: content_of(scalar),
            rest,
        })),
        Err(ParseError::OutOfMemory) => Err(Memory),
        Err(ParseError::At(..)) => Ok(None),
    }
}

/// What a value without quotes is.
fn content_of(scalar: Scalar) -> NodeContent {
    match scalar {
        Scalar::Boolean(switch) => NodeContent::Switch(switch),
        Scalar::Integer(number) => NodeContent::Whole(number),
        Scalar::Float(_) => NodeContent::Float,
        Scalar::Datetime(_) => NodeContent::Datetime,
    }
}
