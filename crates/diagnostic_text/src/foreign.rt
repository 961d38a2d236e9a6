//! Texts that are no TOML: which other kind they are of, where their beginning shows it.

/// What a text is in place of a TOML document, where its beginning shows it.
pub(crate) fn foreign_kind(text: &str) -> Option<&'static str> {
    if is_json(text.trim_start()) {
        return Some("JSON");
    }
    match first_line(text) {
        Some(line) if is_yaml(line) => Some("YAML"),
        _ => None,
    }
}

/// Whether a text begins as JSON does: with an object, or a list of objects.
fn is_json(text: &str) -> bool {
    match text.strip_prefix('[') {
        Some(list) => list.trim_start().starts_with('{'),
        None => text.starts_with('{'),
    }
}

/// The first line that isn't empty and no comment.
fn first_line(text: &str) -> Option<&str> {
    for line in text.lines() {
        if !line.trim().is_empty() && !line.starts_with('#') {
            return Some(line);
        }
    }
    None
}

/// Whether YAML begins with such a line: a mark of its own, the item of a list, or a key and a colon.
fn is_yaml(line: &str) -> bool {
    if line.starts_with("---") || line.starts_with("%YAML") || line.starts_with("- ") {
        return true;
    }
    match line.split_once(':') {
        Some((key, value)) => is_bare(key) && (value.is_empty() || value.starts_with(' ')),
        None => false,
    }
}

/// Whether a text is a key without quotes.
fn is_bare(key: &str) -> bool {
    !key.is_empty()
        && key.bytes().all(|byte| byte.is_ascii_alphanumeric() || byte == b'_' || byte == b'-')
}
