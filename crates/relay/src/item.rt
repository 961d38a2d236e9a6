//! What goes over a relay.

/// What the items `T` of a relay are: what each stands for in the record of a seat, after which of them none comes,
/// and which belong to a relay that was made for a value of `G`. A type stands for it of which no value is made.
pub trait BatchRule<T, L, G> {
    ghost use Rattle.std.specs.Prelude.{Bool};

    /// What an item stands for in the record of a seat.
    ghost stands_for: { T → L };

    /// Whether no item comes after one that stands for that.
    ghost is_last: { L → Bool };

    /// Whether an item belongs to a relay for that value: asked of whoever sends one, and known to whoever receives one.
    ghost belongs: { G → T → Type 0 };
}
