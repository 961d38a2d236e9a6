//! What holds of documents in which values are set.
ghost use Rattle.std.specs.Prelude.{◌≡◌, ◌≢◌, ◌<◌, ◌++◌, ℕ, List, Bool, Some, codes, true, false, get_or, length, map, take};
ghost use Rattle.std.specs.List.{count_by};
ghost use Rattle.toml.specs.Data.{Data, get, table, Members};
ghost use Rattle.schema.specs.Schema.{spelling_of};
ghost use Rattle.schema.specs.Tree.{items_at, value_at};
ghost use Rattle.schema.specs.declared.schema.FormatKey.{FormatKey as Key};
ghost use Rattle.sweep_plan.specs.Document.{with_item, with_marked, with_value_in};
ghost use Rattle.sweep_plan.specs.Items.{item_text, name_of_item};
ghost use Rattle.sweep_plan.specs.Meant.{is_meant, marks_of};
ghost use Rattle.sweep_plan.specs.SetKeys.{key_spelling};
ghost use Rattle.sweep_plan.specs.declared.items.ItemName.{ItemName as Name};
ghost use Rattle.sweep_plan.specs.declared.set_keys.SetKey.{SetKey as Set};

/// Where the value of an item's key is set in a document, each other key of the whole text has what it had, and the list
/// has its items, each in its place. One that the name doesn't mean is as it was; one that it means has the value at this
/// key, and at each other key what it had.
pub fn one_key_of_an_item_changes()
    ensures text { (tree d : Data) (t u : Key) (k : Set) (item : Name) → spelling_of u ≢ spelling_of t → value_at u (with_value_in (Some t) (Some item) k d tree) ≡ value_at u tree }
    ensures items { (tree d : Data) (t : Key) (k : Set) (item : Name) → items_at t (with_value_in (Some t) (Some item) k d tree)
        ≡ with_marked k d (marks_of (item_text item) (items_at t tree)) (items_at t tree) }
    ensures others { (one d : Data) (k : Set) → with_item k d false one ≡ one }
    ensures keys { (one d : Data) (meant : Bool) (k u : Set) → key_spelling u ≢ key_spelling k → get (key_spelling u) (with_item k d meant one) ≡ get (key_spelling u) one }
    ensures value { (members : Members) (d : Data) (k : Set) → get (key_spelling k) (with_item k d true (table members)) ≡ Some d }
{}

/// An item is meant by its name, and by its name, a dot and its number among those of its name. Two names that mean one item
/// of a list each mean two items, unless the names are one, or the one is the other with `.1` behind.
pub fn two_names_mean_two_items()
    ensures meant { (items : List Data) (text : List ℕ) (place : ℕ) (d : Data) → place < length items
        → get_or (marks_of text items) place false ≡ is_meant text (map name_of_item (take place items)) (name_of_item (get_or items place d)) }
    ensures apart { (items : List Data) (a b : List ℕ) (place : ℕ) → count_by (λ meant. meant) (marks_of a items) ≡ 1 → count_by (λ meant. meant) (marks_of b items) ≡ 1
        → a ≢ b → a ≢ b ++ codes ".1" → b ≢ a ++ codes ".1" → get_or (marks_of a items) place false ≡ true → get_or (marks_of b items) place false ≡ false }
{}
