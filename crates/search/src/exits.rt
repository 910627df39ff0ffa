// The edges out of each node, as chains.
ghost use Rattle.std.specs.Prelude.{◌≡◌, ℕ, ◌+◌, ◌<◌, ◌≤◌, length, Some, None};
ghost use Rattle.std.specs.List.{slice_get};
ghost use Rattle.model.specs.declared.graph.Edge.{Edge};
ghost use Rattle.search.specs.Exits.{AreFirsts, AreNexts};

use model::graph::Edge;

// Chains by number in fixed arrays, since nothing is allocated: the first edge out of each node, and of each edge the next one with the same start.
#[derive(Clone, Copy)]
pub struct Exits {
    pub first: [Option<u8>; 32],
    pub next: [Option<u8>; 96],
}

pub fn exits_of(edges: &[Edge]) -> Exits
    requires few { length edges.now ≤ 96 }
    requires starts { (e : ℕ) (x : Edge) → slice_get edges.now e ≡ Some x → x.from < 32 }
    ensures firsts { AreFirsts edges.now 0 result.first }
    ensures nexts { AreNexts edges.now result.next }
{
    let mut first = [None; 32];
    let mut next = [None; 96];
    // by its number, which is what is kept: a loop over `edges.iter().enumerate().rev()` would know the list of what came
    // and not the number, and is no plainer
    for e in (0..edges.len()).rev() {
        // casts: the one is known to fit, and so the other is no plainer by `usize::from`
        let from = edges[e].from as usize;
        next[e] = first[from];
        first[from] = Some(e as u8);
    }
    Exits { first, next }
}
