ghost use Rattle.std.specs.Prelude.{◌≡◌, ◌-◌, ◌≤◌, true, [], ◌++◌, length, take, replicate};
ghost use Rattle.formulas.specs.Clause.{every, valid};
ghost use Rattle.spelling.specs.Store.{spelled};
ghost use Rattle.store.specs.Meaning.{free, held};

use crate::store::Store;
use crate::way::Spelling;
use places::{Place, PlaceFault, check_clause, last_lines};

impl<'a, S: Spelling> Store<'a, S> {
    // An empty place over the buffer, whatever that held.
    pub fn open(elements: &'a mut [S::Element]) -> Store<'a, S>
        ensures holds { held result ≡ [] }
        ensures room { free result ≡ length elements.old }
    {
        S::clear(elements);
        Store {
            elements,
            used: 0,
            count: 0,
        }
    }

    // The whole buffer: the clauses that are held, one after the other, and then blanks.
    pub fn buffer(&self) -> &[S::Element]
        ensures { result.now ≡ spelled S.spelling (held self.now) ++ replicate (free self.now) S.spelling.blank }
    {
        &*self.elements
    }

    // The part of the buffer that is used: the clauses that are held, each of which is valid.
    pub fn used(&self) -> &[S::Element]
        ensures value { result.now ≡ spelled S.spelling (held self.now) }
        ensures reads { S.spelling.read result.now ≡ held self.now }
        ensures sound { every valid (held self.now) ≡ true }
    {
        &self.elements[0..self.used]
    }
}

impl<S: Spelling> Place for Store<'_, S> {
    ghost held = { held };

    ghost free = { free };

    ghost charge = { S.spelling.charge };

    fn put(&mut self, clause: &[i32]) -> Result<(), PlaceFault> {
        check_clause(clause)?;
        let Some(charge) = S::write(&mut self.elements[self.used..], clause) else {
            return Err(PlaceFault::NoSpace { held: self.count });
        };
        self.used += charge;
        self.count += 1;
        Ok(())
    }

    fn cut_back(&mut self, m: usize) {
        if m >= self.count {
            return;
        }
        let end = self.used;
        let lines = self.count - m;
        let start = last_lines(self.used(), lines);
        S::clear(&mut self.elements[start..end]);
        self.used = start;
        self.count = m;
    }

    fn count(&self) -> usize {
        self.count
    }
}
