//! Where a text breaks a rule, which only the library returns.
use scenario_reader::read;
use schema::{Check, ShapeFault, TablePlace, Version, check_shape};
use std::alloc::Global;
use std::process::Abort;
use toml::Value;

/// Two members.
const TEXT: &str = "version = 1
seed = 7
end = 0
[swim]
period = 1000
timeout = 300
spread = 1
[link]
delay = 10
[[group]]
name = \"n\"
count = 2
";

/// Two groups in the place of the one.
const TWO_GROUPS: &str = "count = 2\n[[group]]\nname = \"m\"\ncount = 3";

/// Edits of the text with two groups, and the rule and the place of the fault.
const PLACES: [(&str, &str, u8, u32); 11] = [
    ("version = 1", "version = 5", 5, 0),
    ("seed = 7", "seed = ?", 1, 19),
    ("seed = 7", "seed = true", 4, 0),
    ("period = 1000", "period = 1", 5, 0),
    ("count = 2", "count = 0", 5, 1),
    ("count = 3", "count = 0", 5, 2),
    ("name = \"m\"\n", "", 2, 2),
    ("name = \"m\"", "name = \"n\"", 6, 2),
    ("name = \"n\"", "name = \"\"", 6, 1),
    ("timeout = 300", "timeout = 1000", 9, 0),
    ("count = 3", "count = 1024", 10, 0),
];

/// The last part of a text, the rule by which the text is refused and the place.
type Part<'a> = (&'a str, u8, u32);

/// Tables behind the text, with the rule that they break and the item of its list that does.
const ITEMS: [Part; 12] = [
    ("[[group]]\nname = \"j\"\ncount = 1\nstart = 5\n", 2, 2),
    (
        "[[group]]\nname = \"j\"\ncount = 1\ncontact = \"n-0\"\n",
        9,
        2,
    ),
    ("[[path]]\nfrom = \"n\"\nto = \"x\"\n", 7, 1),
    (
        "[[path]]\nfrom = \"n\"\nto = \"n\"\n[[path]]\nfrom = \"n\"\nto = \"n\"\ncount = 1\n",
        3,
        2,
    ),
    ("[slow]\nmember = \"n-0\"\n", 4, 0),
    (
        "[[slow]]\nmember = \"n-0\"\nfrom = 9\nuntil = 9\nextra = 1\n",
        9,
        1,
    ),
    (
        "[[slow]]\nmember = \"n-0\"\nfrom = 4\nuntil = 9\nextra = 1\n[[slow]]\nmember = \"n-0\"\nfrom = 1\nuntil = 5\nextra = 1\n",
        8,
        1,
    ),
    (
        "[[slow]]\nmember = \"n-0\"\nfrom = 1\nuntil = 5\nextra = 1\n[[slow]]\nmember = \"n-0\"\nfrom = 4\nuntil = 9\nextra = 1\n",
        8,
        2,
    ),
    ("[[crash]]\nmember = \"n-0\"\nat = 0\n", 9, 1),
    (
        "[[crash]]\nmember = \"n-0\"\nat = 5\n[[crash]]\nmember = \"n-0\"\nat = 6\n",
        8,
        2,
    ),
    ("[[crash]]\nmember = \"n-0\"\nat = 1\nextra = 1\n", 3, 1),
    ("[[group]]\nname = \"m\"\ncount = 1024\n", 10, 0),
];

/// The same of leaves and cuts.
const ADDED: [Part; 4] = [
    (
        "[[leave]]\nmember = \"n-0\"\nat = 1\n[[leave]]\nmember = \"n-0\"\nat = 2\n",
        8,
        2,
    ),
    (
        "[[crash]]\nmember = \"n-0\"\nat = 1\n[[leave]]\nmember = \"n-1\"\nat = 0\n",
        9,
        1,
    ),
    (
        "[[cut]]\nfrom = \"n\"\nto = \"m\"\nat = 5\nuntil = 6\n",
        7,
        1,
    ),
    (
        "[[cut]]\nfrom = \"n\"\nto = \"n\"\nat = 5\nuntil = 5\n",
        9,
        1,
    ),
];

/// The same of what version 3 adds; pauses that follow one another are no fault.
const THIRD: [Part; 9] = [
    ("[gossip]\nnodes = 1\n", 2, 0),
    ("[gossip]\ninterval = 1\nagain = 1\n", 3, 0),
    ("[gossip]\ninterval = 1\nnodes = 17\n", 5, 0),
    ("[stream]\nconnect = 0\n", 5, 0),
    ("[[pause]]\nmember = \"n-2\"\nfrom = 5\nuntil = 9\n", 7, 1),
    ("[[pause]]\nmember = \"n-0\"\nfrom = 5\nuntil = 5\n", 9, 1),
    (
        "[[pause]]\nmember = \"n-0\"\nfrom = 5\nuntil = 9\n[[pause]]\nmember = \"n-0\"\nfrom = 8\nuntil = 12\n",
        8,
        2,
    ),
    (
        "[[pause]]\nmember = \"n-0\"\nfrom = 5\nuntil = 9\n[[pause]]\nmember = \"n-0\"\nfrom = 9\nuntil = 12\n",
        0,
        0,
    ),
    ("[[leave]]\nmember = \"n-0\"\nat = 0\n", 9, 1),
];

/// What version 3 adds, in version 2.
const TOO_NEW: [Part; 3] = [
    ("[gossip]\ninterval = 1\n", 3, 0),
    ("[stream]\n", 3, 0),
    ("[[pause]]\n", 3, 0),
];

/// Edits with the check that fails and the place.
const FAULTS: [(&str, &str, Check, TablePlace); 3] = [
    (
        "seed = 7",
        "seed = true",
        Check::WrongKind,
        TablePlace::Table,
    ),
    (
        "period = 1000",
        "period = 1",
        Check::OutOfRange,
        TablePlace::Table,
    ),
    (
        "count = 2",
        "count = 2\n[[group]]\nname = \"m\"",
        Check::Missing,
        TablePlace::Item(1),
    ),
];

/// The texts one after the other.
fn concatenated(alloc: Global, rt: &impl Abort, parts: &[&str]) -> String {
    let mut text = String::new(alloc);
    for part in parts {
        text.push_str(*part).expect(rt, "memory");
    }
    text
}

/// The text with what takes the place of what.
fn edited(alloc: Global, rt: &impl Abort, text: &str, old: &str, new: &str) -> String {
    assert!(rt; text.contains(old), "no {old}");
    text.replacen(alloc, old, new, 1).expect(rt, "memory")
}

/// The rule and the place by which a text is refused, 0 and 0 where it is accepted.
fn answer_to(alloc: Global, text: &[u8]) -> (u8, u32) {
    match read(alloc, text) {
        Ok(_) => (0, 0),
        Err(refusal) => (refusal.rule, refusal.place),
    }
}

/// What `read` answers to the texts one after the other.
fn answer_to_parts(alloc: Global, rt: &impl Abort, parts: &[&str]) -> (u8, u32) {
    let text = concatenated(alloc, rt, parts);
    answer_to(alloc, text.as_bytes())
}

/// What `read` answers to an edited text.
fn answer_to_edit(alloc: Global, rt: &impl Abort, text: &str, old: &str, new: &str) -> (u8, u32) {
    let text = edited(alloc, rt, text, old, new);
    answer_to(alloc, text.as_bytes())
}

/// Asserts the rule and the place by which the text with two groups is refused after each edit.
fn assert_places(alloc: Global, rt: &impl Abort, text: &str) {
    for (old, new, rule, place) in &PLACES {
        let answer = answer_to_edit(alloc, rt, text, *old, *new);
        assert_eq!(rt; answer, (*rule, *place), "{new:?}");
    }
}

#[test]
fn a_refusal_says_where(rt: HostRuntime) {
    let text = edited(rt.alloc(), &rt, TEXT, "count = 2", TWO_GROUPS);
    assert_places(rt.alloc(), &rt, text.as_str());
}

/// Asserts the rule and the place by which a text is refused with each of these tables behind it.
fn assert_items(alloc: Global, rt: &impl Abort, text: &str, parts: &[Part]) {
    for (part, rule, place) in parts {
        let answer = answer_to_parts(alloc, rt, &[text, *part]);
        assert!(rt; answer == (*rule, *place), "{part}");
    }
}

#[test]
fn a_refusal_says_which_item(rt: HostRuntime) {
    assert_items(rt.alloc(), &rt, TEXT, &ITEMS);
    let second = edited(rt.alloc(), &rt, TEXT, "version = 1", "version = 2");
    assert_items(rt.alloc(), &rt, second.as_str(), &ADDED);
    assert_items(rt.alloc(), &rt, second.as_str(), &TOO_NEW);
    let third = edited(rt.alloc(), &rt, TEXT, "version = 1", "version = 3");
    assert_items(rt.alloc(), &rt, third.as_str(), &ADDED);
    assert_items(rt.alloc(), &rt, third.as_str(), &THIRD);
}

/// The document of a text.
fn document(alloc: Global, rt: &impl Abort, text: &str) -> Value {
    let table = toml::table_from_slice(alloc, text.as_bytes())
        .ok()
        .expect(rt, "a document");
    Value::Table(table)
}

/// What the document of the edited text breaks first.
fn fault_of(alloc: Global, rt: &impl Abort, old: &str, new: &str) -> Option<ShapeFault> {
    let text = edited(alloc, rt, TEXT, old, new);
    check_shape(Version::One, &document(alloc, rt, text.as_str())).err()
}

#[test]
fn a_fault_says_where_and_what(rt: HostRuntime) {
    for (old, new, check, place) in &FAULTS {
        let fault = fault_of(rt.alloc(), &rt, *old, *new);
        let wanted = ShapeFault {
            check: *check,
            place: *place,
        };
        assert!(rt; fault == Some(wanted), "{new:?}");
    }
}

#[test]
fn a_fault_is_told_by_its_check(rt: HostRuntime) {
    let fault = ShapeFault {
        check: Check::Unknown,
        place: TablePlace::Table,
    };
    let told = format!(in rt.alloc(); "{fault}").expect(&rt, "memory");
    assert!(rt; told.as_str() == "a key is unknown");
}
