// A partition of a figure's parts into at least two groups.
ghost use Rattle.std.specs.Prelude.{◌≡◌, ◌<◌, ◌≤◌, ◌≢◌, length, slice_index};
ghost use Rattle.partition.specs.Joined.{joined};
ghost use Rattle.partition.specs.Names.{groups, singles};
ghost use Rattle.partition.specs.Records.{IsGroup};
ghost use Rattle.partition.specs.Single.{single};

use crate::table::{Record, Table};
use std::marker::Model;

// Clauses see the names: part by part, the name of its group.
#[derive(Clone, Copy)]
pub struct Partition {
    pub(crate) table: Table,
}

impl Model for Partition {
    ghost use Rattle.std.specs.Prelude.{ℕ, List};
    ghost use Rattle.std.proofs.Common.{sym};
    ghost use Rattle.partition.specs.Records.{IsPartition, names_of, records_of};

    ghost Value = { List ℕ };

    ghost view = { λ p. names_of p.table };

    ghost invariant = { λ p. IsPartition p.table };

    ghost inverse = { λ names. record { table = records_of names } };

    ghost inverse_ok = { λ p h i. record { table = sym h.kept i } };
}

impl Partition {
    // Each of len parts a group, made from one group of all.
    pub(crate) fn fresh(len: usize) -> Partition
        requires few { (2 ≤ len) × (len ≤ 80) }
        ensures answer { result ≡ singles len }
        ensures parts { length result ≡ len }
    {
        let mut table = Table::blank(len);
        table.part(0);
        Partition { table }
    }

    // The record of part i, which is that of its group.
    pub(crate) fn record(&self, i: usize) -> Record
        requires part { i < length self.now }
        ensures name { result.name ≡ slice_index self.now i }
        ensures group { IsGroup self.now result }
    {
        self.table.at(i)
    }

    // Joins the groups of two records.
    pub(crate) fn merge(&mut self, x: Record, y: Record)
        requires apart { x.name ≢ y.name }
        requires groups { IsGroup self.old x × IsGroup self.old y }
        requires three { 3 ≤ groups self.old }
        ensures after { self.new ≡ joined x.name y.name self.old }
        ensures parts { length self.new ≡ length self.old }
    {
        self.table.join(x, y);
    }

    // Makes every part of the group g single.
    pub(crate) fn part(&mut self, g: u8)
        ensures after { self.new ≡ single g self.old }
        ensures parts { length self.new ≡ length self.old }
    {
        self.table.part(g);
    }
}
