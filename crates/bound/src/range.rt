// The numbers of passes whose last pass lies in one range.
ghost use Rattle.std.specs.Prelude.{◌≡◌, ◌≤◌};
ghost use Rattle.bound.specs.Progress.{choice_of, range_choice};

use crate::choice::Choice;
use crate::costs::{better_of, spread_of};
use model::cost::Cost;
use search::found::Costliest;

// Passes `first` to `last`, after so many whole ranges that cost `front`; each pass goes on by `on`, and the last one
// leaves by `off`.
#[derive(Drop)]
pub struct Range<C> {
    pub first: u16,
    pub last: u16,
    pub whole: usize,
    pub front: C,
    pub on: Costliest<C>,
    pub off: Costliest<C>,
    ghost some: { first ≤ last },
}

impl<C: Cost> Range<C> {
    // The choice of so many passes.
    fn choice_at(&self, passes: u16) -> Option<Choice<C>>
        requires { self.now.first ≤ passes }
        ensures { result ≡ choice_of C.measure self.now.front self.now.on self.now.off self.now.first self.now.whole passes }
    {
        let times = u32::from(passes - self.first);
        Some(Choice {
            cost: spread_of(self.front, self.on.cost, self.off.cost, times)?,
            passes,
            whole: self.whole,
            first: self.first,
            on: self.on.way,
            off: self.off.way,
        })
    }

    // The better of its two ends, if it reaches the least number of passes.
    pub fn choice(&self, least: u16) -> Option<Choice<C>>
        ensures { result ≡ range_choice C.measure least self.now.front self.now.on self.now.off self.now.first self.now.last self.now.whole }
    {
        if self.last < least {
            return None;
        }
        let low = least.max(self.first);
        better_of(self.choice_at(low), self.choice_at(self.last))
    }
}
