// Prices some divisions of one figure, what the connectors between the two sheets cost, and finds its cheapest.
#![tactic(auto)]

use cost::line::Line;
use cost::whole::Whole;
use measure::measure::Measure;
use nets::net::Net;
use nets::nets::Nets;
use partition::partition::Partition;
use search::find::find_split;
use std::{fmt, io};

// Room for a line. (Each program stands alone, and has its own.)
const NO_LINE: Line<Whole> = Line {
    t: 0,
    u: 0,
    cost: Whole { value: 0 },
};

// A mark row, printed as the parts that it puts on the second sheet; a slice has no printed form of its own.
#[derive(Drop)]
struct Parts<'a>(&'a [u8]);

impl fmt::Display for Parts<'_> {
    fn fmt<W: fmt::Write>(&self, f: &mut fmt::Formatter<W>) -> fmt::Result {
        for (part, mark) in self.0.iter().enumerate() {
            if *mark == 1 {
                write!(f, " {part}")?;
            }
        }
        Ok(())
    }
}

fn price(rt: &HostRuntime, figure: &Nets, row: &[u8]) -> io::Result<()> {
    match figure.cost(row) {
        Ok(cost) => {
            let parts = Parts(row);
            println!(rt; "second sheet:{parts}, connectors cost {cost}")
        }
        Err(fault) => println!(rt; "row {row:?} is refused, {fault}"),
    }
}

fn price_all(rt: &HostRuntime, figure: &Nets) -> io::Result<()> {
    let parts = figure.parts();
    let ceiling = figure.ceiling();
    println!(rt;
        "The figure has {parts} parts. If every net were divided, the connectors would cost {ceiling}."
    )?;
    println!(rt; "Each part alone on the second sheet:")?;
    for row in [[1, 0, 0, 0], [0, 1, 0, 0], [0, 0, 1, 0], [0, 0, 0, 1]] {
        price(rt, figure, &row)?;
    }
    println!(rt; "Two parts on each sheet:")?;
    for row in [[1, 1, 0, 0], [1, 0, 1, 0], [1, 0, 0, 1]] {
        price(rt, figure, &row)?;
    }
    println!(rt; "Rows that are no division of this figure:")?;
    price(rt, figure, &[1, 0, 0])?;
    price(rt, figure, &[1, 0, 2, 0])
}

// Finds and prints the cheapest division, with the lines that show that none costs less.
fn break_figure(rt: &HostRuntime, figure: &Nets) -> io::Result<()> {
    let Some(groups) = Partition::singles(figure.parts()) else {
        return println!(rt; "the figure has no parts to divide");
    };
    let mut row = [0u8; 4];
    let mut lines = [NO_LINE; 3];
    match find_split(figure, &groups, &mut row, &mut lines) {
        Ok(found) => {
            println!(rt;
                "A division costs at least what the first line says whose two parts it puts on different sheets:"
            )?;
            for (number, line) in (1..=3).zip(&lines) {
                print_line(rt, number, line)?;
            }
            let best = found.best;
            println!(rt; "The best is line {best}, so this division is the cheapest:")?;
            price(rt, figure, &row)
        }
        Err(fault) => println!(rt; "the search is refused, {fault}"),
    }
}

fn print_line(rt: &HostRuntime, number: usize, line: &Line<Whole>) -> io::Result<()> {
    let Line { t, u, cost } = line;
    println!(rt; "line {number}: parts {t} and {u}, {cost}")
}

fn run(rt: &HostRuntime) -> anyhow::Result<()> {
    let heap = rt.alloc();
    let nets = vec![in heap;
        Net::new(3, 0, 2),
        Net::new(1, 2, 2),
        Net::new(2, 4, 2),
        Net::new(1, 6, 3),
    ]?;
    let pins = vec![in heap; 0, 1, 1, 2, 2, 3, 0, 2, 3]?;
    match Nets::make(4, nets, pins) {
        Ok(figure) => {
            price_all(rt, &figure)?;
            break_figure(rt, &figure)?
        }
        Err(refused) => println!(rt; "the figure is refused, {refused}")?,
    }
    Ok(())
}

fn main(rt: HostRuntime) -> anyhow::Result<()> {
    run(&rt)
}
