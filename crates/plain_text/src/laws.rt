//! A law on the texts of tables and lists.
ghost use Rattle.std.specs.Prelude.{◌≡◌, ◌++◌, List, Some};
ghost use Rattle.toml.specs.Data.{Members};
ghost use Rattle.plain_text.specs.Document.{document_of};
ghost use Rattle.plain_text.specs.Headings.{lines_under, pair_lines, AreApart, Heading, Holds, IsEachOnce, Pairs};

/// A text of the top's keys, and then of tables and lists, is read as a document that holds them, where no key and no name
/// stands twice.
pub fn a_text_holds_its_lines()
    ensures { (top : Pairs) (headings : List Heading) → IsEachOnce top → AreApart top headings
        → (ms : Members) × (document_of (pair_lines top ++ lines_under headings) ≡ Some ms) × Holds top headings ms }
{}
