//! What the lock's value has to tell.
ghost use Rattle.std.specs.Prelude.{◌≡◌, ◌<◌, ◌^◌, ℕ, List, length};

/// A list of lines, each of which names the number of a seat, and a root that no turn changes.
///
/// It may be dropped, since a lock that gets no memory lets its value go.
pub trait Tale: Drop {
    /// One line.
    type Line;

    /// What stays the same from the lock's making to its close.
    type Root;

    ghost lines: { Self → List Self.Line };

    ghost seat_of: { Self.Line → ℕ };

    ghost root: { Self → Self.Root };

    /// The number of lines, where it is below 2^63. By it the lock knows how many lines are new.
    fn line_count(&self) -> u64
        ensures { length (lines self.now) < 2 ^ 63 → result ≡ length (lines self.now) };
}
