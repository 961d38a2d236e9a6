//! Laws on the values and lines of a plain text.
ghost use Rattle.std.specs.Prelude.{◌≡◌, ◌≤◌, ℕ, List, Some};
ghost use Rattle.toml.specs.Data.{Data, Members};
ghost use Rattle.toml.specs.Tables.{Expression};
ghost use Rattle.toml_places.specs.declared.places.Places.{Places};
ghost use Rattle.plain_text.specs.Document.{document_of};
ghost use Rattle.plain_document.specs.declared.document.PlainParts.{PlainParts};
ghost use Rattle.plain_document.specs.declared.keys.KeyKind.{KeyKind};
ghost use Rattle.plain_document.specs.Document.{AreLinesOf};
ghost use Rattle.plain_document.specs.Order.{IsOrderedDocument, Section};
ghost use Rattle.plain_document.specs.Stays.{own_document, IsPlainDocument};
ghost use Rattle.plain_document.specs.Tree.{AreListed, IsPlainTree};
ghost use Rattle.plain_document.specs.Values.{IsPlainOf};

/// A value that is plain stands for itself, however long a tick is.
pub fn plain_values_stay()
    ensures { (tick other : ℕ) (kind : KeyKind) (d plain again : Data) → IsPlainOf tick kind d plain → IsPlainOf other kind plain again → again ≡ plain }
{}

/// A value is one in the plain text.
pub fn plain_values_are_one()
    ensures { (tick : ℕ) (kind : KeyKind) (d one other : Data) → 1 ≤ tick → IsPlainOf tick kind d one → IsPlainOf tick kind d other → one ≡ other }
{}

/// A document has one plain text.
pub fn a_document_has_one_plain_text()
    ensures { (tick : ℕ) (d : Data) (sections : List Section) (parts : PlainParts) (one other : List Expression) → 1 ≤ tick
        → AreLinesOf tick d sections parts one → AreLinesOf tick d sections parts other → one ≡ other }
{}

/// The plain text of a plain document has a line for each of its keys, with its own value, however long a tick is.
pub fn plain_documents_stay()
    ensures { (tick : ℕ) (d : Data) (sections : List Section) (parts : PlainParts) (lines : List Expression)
        → IsPlainDocument d parts sections → AreLinesOf tick d sections parts lines → lines ≡ own_document d parts sections }
{}

/// The plain text of a document, read again, holds the plain value of each key.
pub fn a_plain_text_holds_its_document()
    ensures { (tick : ℕ) (d : Data) (places : Places) (sections : List Section) (parts : PlainParts) (lines : List Expression)
        → IsOrderedDocument places d sections → AreListed d parts → AreLinesOf tick d sections parts lines
        → (ms : Members) × (document_of lines ≡ Some ms) × IsPlainTree tick d parts ms }
{}
