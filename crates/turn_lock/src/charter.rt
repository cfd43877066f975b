// What a lock knows of the world that it hands on.
ghost use Rattle.std.specs.Prelude.{Bool, List, ℕ};

/// A world that a lock hands on.
pub trait Charter {
    /// What stays the same of a world, whoever has its turn.
    type Terms;

    ghost charter: { Self → Self.Terms };

    /// The turns so far, a number for each.
    ghost trace: { Self → List ℕ };

    ghost finished: { Self → Bool };
}
