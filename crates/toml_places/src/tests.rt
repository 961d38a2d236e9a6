//! Where the keys and values of documents stand.
use crate::{NodeContent, Places, Position, Span, Step, position_of, read};
use std::process::Abort;

/// Tables by headers, dotted and quoted keys, strings of several lines, lists and inline tables.
const TEXT: &str = "# a comment = 1
a = 1\r
\t\"b c\" = 'x'  # a comment
d.e.f = 1.5
g = [1, # one
 [2], {h = true},
]
i = { j.k = 1979-05-27, l = \"\"\"
é]\"\"\" }
[swim]
period = 1000
[[group]]
name = \"é\"
[[group]] # two
count = 2
[group.in]
m = -1
[ d . n ]
o = inf
";

/// Paths, with what stands at their key and at their value.
const PLACES: [(&[Step<'static>], &str, &str); 20] = [
    (&[Step::Key("a")], "a", "1"),
    (&[Step::Key("b c")], "\"b c\"", "'x'"),
    (&[Step::Key("d")], "d", "d"),
    (&[Step::Key("d"), Step::Key("e")], "e", "e"),
    (
        &[Step::Key("d"), Step::Key("e"), Step::Key("f")],
        "f",
        "1.5",
    ),
    (&[Step::Key("g")], "g", "[1, # one\n [2], {h = true},\n]"),
    (&[Step::Key("g"), Step::Item(0)], "1", "1"),
    (&[Step::Key("g"), Step::Item(1)], "[2]", "[2]"),
    (&[Step::Key("g"), Step::Item(1), Step::Item(0)], "2", "2"),
    (
        &[Step::Key("g"), Step::Item(2), Step::Key("h")],
        "h",
        "true",
    ),
    (
        &[Step::Key("i"), Step::Key("j"), Step::Key("k")],
        "k",
        "1979-05-27",
    ),
    (&[Step::Key("i"), Step::Key("l")], "l", "\"\"\"\né]\"\"\""),
    (&[Step::Key("swim")], "swim", "[swim]"),
    (&[Step::Key("swim"), Step::Key("period")], "period", "1000"),
    (&[Step::Key("group")], "group", "[[group]]"),
    (
        &[Step::Key("group"), Step::Item(0), Step::Key("name")],
        "name",
        "\"é\"",
    ),
    (
        &[Step::Key("group"), Step::Item(1)],
        "[[group]]",
        "[[group]]",
    ),
    (
        &[
            Step::Key("group"),
            Step::Item(1),
            Step::Key("in"),
            Step::Key("m"),
        ],
        "m",
        "-1",
    ),
    (&[Step::Key("d"), Step::Key("n")], "n", "[ d . n ]"),
    (
        &[Step::Key("d"), Step::Key("n"), Step::Key("o")],
        "o",
        "inf",
    ),
];

/// Texts with a byte and its line and column.
const POSITIONS: [(&str, usize, usize, usize); 8] = [
    ("", 0, 1, 1),
    ("", 7, 1, 1),
    ("ab", 1, 1, 2),
    ("a\nb", 2, 2, 1),
    ("a\r\nb", 3, 2, 1),
    ("é=1", 2, 1, 2),
    ("a\n\n\tb", 4, 3, 2),
    ("a\n", 9, 2, 1),
];

/// Texts that are no document: each is read without an end that isn't there.
const BROKEN: [&str; 10] = [
    "a = 1 ]",
    "[",
    "[[",
    "[a",
    "a",
    "a = ",
    "a = [1",
    "]]]]",
    "a.b = 1\na = [[[{",
    "[a]]\n[[a]]\n",
];

/// What stands in a range of a text.
fn at(text: &str, span: Span) -> &str {
    text.get(span.start..span.end).unwrap_or("no characters")
}

/// Asserts where the places of a text stand.
fn assert_places(rt: &impl Abort, places: &Places, text: &str) {
    for (path, key, value) in &PLACES {
        let place = match places.find(*path) {
            Some(place) => place,
            None => panic!(rt; "no place of {key}"),
        };
        assert!(rt;
            at(text, places.key(place)) == *key,
            "key {key}: {}",
            at(text, places.key(place))
        );
        assert!(rt; at(text, places.value(place)) == *value, "value {value}");
    }
}

#[test]
fn places_stand_where_they_are_written(rt: HostRuntime) {
    let places = read(rt.alloc(), TEXT).expect(&rt, "memory");
    assert_places(&rt, &places, TEXT);
    assert!(rt; places.find(&[Step::Key("z")]).is_none());
    assert!(rt; places.find(&[Step::Item(0)]).is_none());
    assert!(rt; places.header(Places::TOP) == places.end());
}

#[test]
fn values_are_read(rt: HostRuntime) {
    let places = read(rt.alloc(), "a = -5\nb = \"x\\u0041\"").expect(&rt, "memory");
    let number = places.find(&[Step::Key("a")]).expect(&rt, "a");
    assert!(rt; matches!(places.content(number), Some(NodeContent::Whole(-5))));
    let text = places.find(&[Step::Key("b")]).expect(&rt, "b");
    match places.content(text) {
        Some(NodeContent::Text(text)) => assert!(rt; text.as_str() == "xA"),
        _ => assert!(rt; false, "a text"),
    }
}

#[test]
fn bytes_have_lines_and_columns(rt: HostRuntime) {
    for (text, byte, line, column) in &POSITIONS {
        let at = position_of(text.as_bytes(), *byte);
        assert!(rt;
            at == Position {
                line: *line,
                column: *column
            },
            "{text} at {byte}"
        );
    }
}

#[test]
fn a_text_that_is_no_document_is_read_to_its_fault(rt: HostRuntime) {
    for text in &BROKEN {
        let places = read(rt.alloc(), *text).expect(&rt, "memory");
        assert!(rt; places.content(Places::TOP).is_some(), "{text}");
    }
}
