// What is claimed of the worked graphs.
ghost use Rattle.std.specs.Prelude.{◌≡◌, map};
ghost use Rattle.examples.specs.Graphs.{examples, EveryExample};

// What is claimed of a graph: the bound of scope 0 in cycles and that in bytes of stack, or that it has no run.
pub type Claim = Option<(u64, u16)>;

fn noted() -> [Claim; 13]
    ensures { result ≡ map (λ x. x.claim) examples }
{
    [
        // the branching loop: 1 to 4 passes, and one pass
        Some((53, 40)),
        Some((14, 40)),
        // the same, with one fact each
        Some((45, 40)),
        Some((37, 16)),
        Some((49, 40)),
        Some((14, 40)),
        None,
        // the early exit, and the detour
        Some((102, 0)),
        Some((22, 0)),
        // a call of the loop, and two calls of the early exit, whose passes are counted anew
        Some((58, 40)),
        Some((204, 0)),
        // a run for nothing, and no run for want of nodes
        Some((0, 0)),
        None,
    ]
}

// The claims, one for each worked graph, and each is right.
pub fn claims() -> [Claim; 13]
    ensures listed { result ≡ map (λ x. x.claim) examples }
    ensures right { EveryExample }
{
    noted()
}
