//! The text of some lines.
ghost use Rattle.std.specs.Prelude.{◌≡◌, ◌++◌, All, map, IfOk, OnOk, string_bytes};
ghost use Rattle.toml.specs.Parse.{parse_document};
ghost use Rattle.plain_text.specs.Lines.{text_of};
ghost use Rattle.plain_text.specs.Document.{document_of, expression_of, IsPlainLine};

use crate::line::{PlainLine, push_line};
use std::alloc::{AllocError, Global};

/// The text of these lines. Where they are plain it is the document, as TOML, that they define.
///
/// # Errors
///
/// Memory was refused.
pub fn plain_text(alloc: Global, lines: &[PlainLine]) -> Result<String, AllocError>
    ensures text { IfOk result (λ made. string_bytes made ≡ text_of lines.now) }
    ensures read { IfOk result (λ made. All IsPlainLine lines.now → parse_document (string_bytes made) ≡ document_of (map expression_of lines.now)) }
{
    let mut text = String::new(alloc);
    for line in lines {
        push_line(&mut text, line)?;
    }
    Ok(text)
}

#[cfg(test)]
mod tests {
    use super::plain_text;
    use crate::line::{PlainLine, PlainValue};

    /// Each kind of line, in the order in which they are given.
    #[test]
    fn lines_stand_in_their_order(rt: HostRuntime) {
        let lines = [
            PlainLine::Pair {
                key: "version",
                value: PlainValue::Whole(4),
            },
            PlainLine::Table("swim"),
            PlainLine::Pair {
                key: "fallback",
                value: PlainValue::Switch(true),
            },
            PlainLine::Item("group"),
            PlainLine::Pair {
                key: "name",
                value: PlainValue::Name("dc-1"),
            },
        ];
        let Ok(text) = plain_text(rt.alloc(), &lines) else {
            panic!(rt; "memory");
        };
        let wanted = "version = 4\n[swim]\nfallback = true\n[[group]]\nname = \"dc-1\"\n";
        assert!(rt; text.as_str() == wanted);
    }
}
