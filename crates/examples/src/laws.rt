// What holds of costs and bounds under the laws of every cost measure.
ghost use Rattle.examples.specs.Order.{JoinedInOrder, BoundUnique};

use model::cost::Cost;

// The cost of a run is what its edges cost, joined one after the other in the order of the run.
pub fn cost_in_order<C: Cost>()
    ensures { JoinedInOrder C.measure }
{}

// A scope has one bound at most.
pub fn one_bound<C: Cost>()
    ensures { BoundUnique C.measure }
{}
