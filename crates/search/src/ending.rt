// How a pass ends: the scope goes again, or is left.
ghost use Rattle.std.specs.Prelude.{◌≡◌};
ghost use Rattle.search.specs.Endings.{stop};

use model::graph::Target;

#[derive(Clone, Copy, PartialEq, Eq, Debug)]
pub enum Ending {
    Again,
    Leave,
}

// Where the last edge of such a pass leads.
impl From<Ending> for Target {
    ghost from_gives = { λ ending target. target ≡ stop ending };

    fn from(ending: Ending) -> Target {
        match ending {
            Ending::Again => Target::Again,
            Ending::Leave => Target::Leave,
        }
    }
}
