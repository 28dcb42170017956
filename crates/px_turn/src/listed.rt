// Values that stand for lists.
ghost use Rattle.std.specs.Prelude.{◌≡◌, ◌<◌, ◌^◌, List, length};

/// A value that stands for a list of entries, of which there are fewer than 2^63. `goes_on` says of which value another
/// is a continuation, and so what is kept of the opening.
pub trait Listed {
    /// An entry of the list.
    type Item;

    ghost list: { Self → List Self.Item };

    ghost goes_on: { Self → Self → Type 0 };

    /// How many entries the value stands for.
    fn entries(&self) -> u64
        ensures count { result ≡ length (list self.now) }
        ensures few { result < 2 ^ 63 };

    // A value is a continuation of itself.
    ghost stays: { (x : Self) → goes_on x x };
}
