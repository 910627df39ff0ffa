// What a cost measure is.
ghost use Rattle.std.specs.Prelude.{◌≡◌};
ghost use Rattle.model.specs.Measures.{Measure, Laws};

// A cost measure, with its own order, since the project asks for this interface: costs that are joined along a run and compared. Every `impl` proves the laws.
pub trait Cost: Copy {
    ghost measure: { Measure Self };

    ghost laws: { Laws measure };

    fn nothing() -> Self
        ensures { result ≡ measure.nothing };

    // The cost of an edge by its weight in cycles and its stack in bytes.
    fn of(weight: u32, stack: u16) -> Self
        ensures { result ≡ measure.of weight stack };

    fn join(self, other: Self) -> Self
        ensures { result ≡ measure.join self other };

    fn at_most(self, other: Self) -> bool
        ensures { result ≡ measure.leq self other };
}
