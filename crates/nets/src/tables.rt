// A figure's nets and their pins: what a making lets through, and what a row costs by them.
ghost use Rattle.std.specs.Prelude.{◌≡◌, ◌≤◌, true, length, Ok, Err, MatchResult};
ghost use Rattle.std.specs.List.{list_all};
ghost use Rattle.nets.specs.Cut.{charge, cut, divides, pins_of, weights};
ghost use Rattle.nets.specs.Making.{Sound, net_fits, pins_fit, verdict};

use crate::net::Net;
use measure::fault::{MakingFault, Refused};
use measure::limits::{LARGEST, count_fits};

const MOST_NETS: usize = 500;

const MOST_PINS: usize = 4_000;

// the most pins of one net
const LONGEST: usize = 80;

// Nothing that a making refuses is ever held.
#[derive(Drop)]
pub(crate) struct Tables {
    pub(crate) parts: usize,
    pub(crate) nets: Vec<Net>,
    pub(crate) pins: Vec<u8>,
    ghost sound: { Sound parts nets.items pins.items },
}

fn net_fits(net: Net, size: usize) -> bool
    ensures answer { result ≡ net_fits size net }
{
    net.weight <= LARGEST
        && 1 <= net.count
        && net.count <= LONGEST
        && net.first <= size
        && net.count <= size - net.first
}

fn nets_fit(nets: &[Net], size: usize) -> bool
    ensures answer { result ≡ list_all (net_fits size) nets.now }
{
    nets.iter().all(|net| net_fits(*net, size))
}

// One chain, as for the boxes of a fold: a function for both in a crate below would be no plainer.
fn pins_fit(pins: &[u8], n: usize) -> bool
    ensures answer { result ≡ pins_fit n pins.now }
{
    pins.iter().all(|pin| usize::from(*pin) < n)
}

fn check(n: usize, nets: &[Net], pins: &[u8]) -> Result<(), MakingFault>
    ensures answer { result ≡ verdict n nets.now pins.now }
{
    if !count_fits(n) {
        return Err(MakingFault::Count);
    }
    if nets.len() > MOST_NETS || pins.len() > MOST_PINS {
        return Err(MakingFault::TooMany);
    }
    if !nets_fit(nets, pins.len()) || !pins_fit(pins, n) {
        return Err(MakingFault::Entry);
    }
    Ok(())
}

// Does the row mark one of the pins and leave another unmarked?
fn divided(row: &[u8], pins: &[u8]) -> bool
    requires named { pins_fit (length row.now) pins.now ≡ true }
    ensures answer { result ≡ divides row.now pins.now }
{
    let mut some = false;
    let mut all = true;
    for pin in pins {
        let marked = row[usize::from(*pin)] == 1;
        some |= marked;
        all &= marked;
    }
    some & !all
}

// The row of a question is the caller's slice, so its length is asked by each method, and is no fact of a type.
impl Tables {
    pub(crate) fn make(
        parts: usize,
        nets: Vec<Net>,
        pins: Vec<u8>,
    ) -> Result<Tables, Refused<(Vec<Net>, Vec<u8>)>>
        ensures cases { MatchResult result (λ t. (verdict parts nets.items pins.items ≡ Ok tt) × (t.parts ≡ parts) × (t.nets ≡ nets) × (t.pins ≡ pins)) (λ e. (verdict parts nets.items pins.items ≡ Err e.fault) × (e.given.0 ≡ nets) × (e.given.1 ≡ pins)) }
    {
        if let Err(fault) = check(parts, nets.as_slice(), pins.as_slice()) {
            return Err(Refused {
                fault,
                given: (nets, pins),
            });
        }
        Ok(Tables { parts, nets, pins })
    }

    pub(crate) fn total_weight(&self) -> u64
        ensures answer { result ≡ weights self.now.nets.items }
    {
        let mut sum = 0;
        for net in self.nets.as_slice() {
            sum += u64::from(net.weight);
        }
        sum
    }

    // What a net of these is charged.
    fn charge(&self, net: Net, row: &[u8]) -> u64
        requires fits { net_fits (length self.now.pins.items) net ≡ true }
        requires long { length row.now ≡ self.now.parts }
        ensures answer { result ≡ charge row.now self.now.pins.items net }
        ensures small { result ≤ 999999 }
    {
        let weight = net.weight;
        let first = net.first;
        let end = first + net.count;
        if divided(row, &self.pins[first..end]) {
            u64::from(weight)
        } else {
            0
        }
    }

    // The cost of a side; its row has a mark for each part.
    pub(crate) fn cut(&self, row: &[u8]) -> u64
        requires long { length row.now ≡ self.now.parts }
        ensures answer { result ≡ cut self.now.nets.items self.now.pins.items row.now }
    {
        let mut sum = 0;
        for net in self.nets.as_slice() {
            sum += self.charge(*net, row);
        }
        sum
    }
}
