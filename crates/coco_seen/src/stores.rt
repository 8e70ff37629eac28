//! What a guarded value has to tell: its entries, and where it comes from.

ghost use Rattle.std.specs.Prelude.{List};

/// A value that stores a list of entries, and that comes from a root.
pub trait Stores {
    type Entry: Copy;

    type Root;

    /// The entries that the value stores, in order.
    ghost entries: { Self → List Self.Entry };

    /// The value comes from this root by its entries.
    ghost comes_from: { Self.Root → Self → Type 0 };
}
