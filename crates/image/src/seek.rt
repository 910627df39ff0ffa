// Parts of the graph, found by going over the records.
ghost use Rattle.std.specs.Prelude.{◌≡◌, length};
ghost use Rattle.std.specs.List.{filter_map};
ghost use Rattle.image.specs.Meaning.{records, reading, meant};

use crate::image::Image;
use crate::part::{Part, Scopes};
use crate::records::Records;

impl Image<'_> {
    // Item number n of the list.
    pub(crate) fn seek<P: Part>(&self, list: &P, n: usize) -> Option<P::Item>
        ensures { result ≡ P.Part.asked list.now (meant self.now.bytes.now) n }
    {
        Records::of(self.bytes)
            .filter_map(|found| list.pick(found.ok()?))
            .nth(n)
    }

    // How many records add to the list.
    fn additions<P: Part>(&self, list: &P) -> usize
        ensures { result ≡ length (filter_map (P.Part.picks list.now) (records (reading self.now.bytes.now))) }
    {
        Records::of(self.bytes)
            .filter_map(|found| list.pick(found.ok()?))
            .count()
    }

    // The length of the list, where the scope that it belongs to is there.
    pub(crate) fn count<P: Part>(&self, list: &P) -> Option<usize>
        ensures { result ≡ P.Part.counted list.now (meant self.now.bytes.now) }
    {
        if let Some(scope) = list.scope() {
            self.seek(&Scopes, scope)?;
        }
        Some(self.additions(list))
    }
}
