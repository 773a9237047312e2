// The records of the parts, in a plain struct that changes one record at a time.
ghost use Rattle.std.specs.Prelude.{◌≡◌, ◌+◌, ◌<◌, ◌≤◌, length, replicate, slice_index_or, slice_set};
ghost use Rattle.partition.specs.Names.{groups, stands};
ghost use Rattle.partition.specs.Records.{blank, merged, names_of, parted, rewritten};

use std::marker::Model;

// A part's group: its name, which is its lowest part, and how many parts it has.
#[derive(Clone, Copy, Debug, PartialEq, Eq)]
pub struct Record {
    pub name: u8,
    pub size: u8,
}

// Clauses see the records of the parts, which are the first `len`; the others are blank. The length is fixed, since a plan's calls ask for no memory.
#[derive(Clone, Copy)]
pub struct Table {
    records: [Record; 80],
    len: usize,
}

impl Model for Table {
    ghost use Rattle.std.specs.Prelude.{List, length, take};
    ghost use Rattle.partition.specs.declared.table.Record.{Record};
    ghost use Rattle.partition.specs.Padded.{IsPadded, padded, padded_back};

    ghost Value = { List Record };

    ghost view = { λ t. take t.len t.records };

    ghost invariant = { λ t. IsPadded t.len t.records };

    ghost inverse = { λ rs. record { records = padded rs; len = length rs } };

    ghost inverse_ok = { λ t h i. record { records = (padded_back t.len t.records h).0 i; len = (padded_back t.len t.records h).1 i } };
}

impl Table {
    // A table of blank records.
    pub(crate) fn blank(len: usize) -> Table
        requires few { len ≤ 80 }
        ensures answer { result ≡ replicate len blank }
    {
        Table {
            records: [Record { name: 0, size: 1 }; 80],
            len,
        }
    }

    pub(crate) fn len(&self) -> usize
        ensures answer { result ≡ length self.now }
        ensures few { length self.now ≤ 80 }
    {
        self.len
    }

    // The record of part i, a number that only the caller can know to be below the length.
    pub(crate) fn at(&self, i: usize) -> Record
        requires part { i < length self.now }
        ensures answer { result ≡ slice_index_or self.now i result }
    {
        // borrowed first: an index into the field itself is judged before the invariant is known
        let records = &self.records;
        records[i]
    }

    fn put(&mut self, i: usize, r: Record)
        requires part { i < length self.old }
        ensures after { self.new ≡ slice_set self.old i r }
    {
        // borrowed first, as in `at`
        let records = &mut self.records;
        records[i] = r;
    }

    // Does part i name its own group?
    #[tactic(auto, using(crate::proofs::Counted::own_name))]
    fn names_own(&self, i: usize) -> bool
        requires part { i < length self.now }
        ensures answer { result ≡ stands (names_of self.now) i }
    {
        usize::from(self.at(i).name) == i
    }

    // How many parts name their own group: so many groups stand. Counted by a sum, which has no branch.
    pub(crate) fn groups(&self) -> usize
        ensures answer { result ≡ groups (names_of self.now) }
    {
        (0..self.len())
            .map(|i| usize::from(self.names_own(i)))
            .sum()
    }

    // Gives each part of the groups of x and y the lower name and both sizes.
    pub(crate) fn join(&mut self, x: Record, y: Record)
        requires room { x.size + y.size ≤ 80 }
        ensures after { self.new ≡ rewritten (λ _. merged x y) 0 (length self.old) self.old }
    {
        let both = Record {
            name: x.name.min(y.name),
            size: x.size + y.size,
        };
        // one record at a time, by the table's own methods
        for i in 0..self.len() {
            let r = self.at(i);
            if r.name == x.name || r.name == y.name {
                self.put(i, both);
            }
        }
    }

    // Gives each part of the group g its own number as its name, and the size 1.
    pub(crate) fn part(&mut self, g: u8)
        ensures after { self.new ≡ rewritten (parted g) 0 (length self.old) self.old }
    {
        // one record at a time, as in `join`
        for i in 0..self.len() {
            if self.at(i).name == g {
                let alone = Record {
                    name: i as u8,
                    size: 1,
                };
                self.put(i, alone);
            }
        }
    }
}
