// The records of an image, read one after the other.
ghost use Rattle.std.specs.Prelude.{◌≡◌, ◌+◌, ◌^◌, ◌<◌, [], ◌∷◌, length, MatchResult};
ghost use Rattle.image.specs.Meaning.{placed, more};

use crate::read::split_record;
use crate::record::Record;
use model::refusal::Refusal;

// Gives each record up to the end of the bytes or to the first fault, which is the last item.
#[derive(Drop)]
pub struct Records<'a> {
    // the bytes that are left
    rest: &'a [u8],
    // the scopes so far
    seen: usize,
    // each of them took a byte at least
    ghost countable: { seen + length rest.now < 2 ^ 64 },
}

// Does the record name one of the scopes before it?
fn names_scope(seen: usize, found: Record) -> bool
    ensures { result ≡ placed seen found }
{
    match found {
        Record::AddScope { .. } => true,
        Record::AddNode { scope, .. }
        | Record::AddEdge { scope, .. }
        | Record::AddFact { scope, .. } => usize::from(scope) < seen,
    }
}

// The number of scopes after the record.
fn seen_after(seen: usize, found: Record) -> usize
    requires { seen + 1 < 2 ^ 64 }
    ensures { result ≡ more seen found }
{
    match found {
        Record::AddScope { .. } => seen + 1,
        _ => seen,
    }
}

impl<'a> Records<'a> {
    ghost use Rattle.image.specs.Meaning.{reading};
    ghost use Rattle.image.specs.Given.{given, left};

    // The records stand behind the first five bytes.
    pub fn of(image: &'a [u8]) -> Records<'a>
        ensures { left result ≡ given (reading image.now) }
    {
        let (_, rest) = image.split_at(image.len().min(5));
        Records { rest, seen: 0 }
    }

    // The next record, and what is left behind it.
    #[inline(always)]
    fn split_first(&self) -> Result<(Record, Records<'a>), Refusal>
        requires { 0 < length self.now.rest.now }
        ensures { MatchResult result (λ p. (left self.now ≡ Ok p.0 ∷ left p.1) × (length p.1.rest.now < length self.now.rest.now)) (λ e. left self.now ≡ Err e ∷ []) }
    {
        let (record, rest) = split_record(self.rest)?;
        if !names_scope(self.seen, record) {
            return Err(Refusal::UnknownScope);
        }
        let seen = seen_after(self.seen, record);
        Ok((record, Records { rest, seen }))
    }
}

impl<'a> Iterator for Records<'a> {
    ghost use Rattle.std.specs.Iterator.{YieldsFirst, at_most};
    ghost use Rattle.image.specs.Given.{left};

    type Item = Result<Record, Refusal>;

    ghost next_gives = { YieldsFirst left };

    ghost remaining = { λ s. at_most (length s.rest.now) };

    // inlined, as all that it calls: each look-up goes over the records
    #[inline(always)]
    fn next(&mut self) -> Option<Result<Record, Refusal>> {
        if self.rest.is_empty() {
            return None;
        }
        match self.split_first() {
            Ok((record, behind)) => {
                *self = behind;
                Some(Ok(record))
            }
            Err(refusal) => {
                self.rest = &self.rest[..0];
                Some(Err(refusal))
            }
        }
    }
}
