// Carries out a list of calls on a plan of one figure, and prints each call, its answer, and what a split finds.
#![tactic(auto)]

use cost::line::Line;
use cost::whole::Whole;
use measure::measure::Measure;
use nets::net::Net;
use nets::nets::Nets;
use plan::call::{Answer, Call, Step};
use plan::run::run;
use search::split::Split;
use std::alloc::{AllocError, Global};
use std::io;

// Room for a line. (Each program stands alone, and has its own.)
const NO_LINE: Line<Whole> = Line {
    t: 0,
    u: 0,
    cost: Whole { value: 0 },
};

fn step(heap: Global, call: Call) -> Result<Step<Whole>, AllocError> {
    Ok(Step {
        call,
        row: vec![in heap; 0u8; 4]?,
        lines: vec![in heap; NO_LINE; 3]?,
        answer: Answer::Open,
    })
}

fn steps(heap: Global) -> Result<Vec<Step<Whole>>, AllocError> {
    let calls = [
        Call::Split,
        Call::Weld(0, 1),
        Call::Weld(2, 3),
        Call::Weld(3, 2),
        Call::Weld(0, 2),
        Call::Group(3),
        Call::Split,
        Call::Release(3),
        Call::Split,
    ];
    let mut steps = Vec::new(heap);
    for call in calls {
        steps.push(step(heap, call)?)?;
    }
    Ok(steps)
}

// The lines that a split wrote, and the parts that it marked.
fn print_split(rt: &HostRuntime, step: &Step<Whole>, lines: usize) -> io::Result<()> {
    for line in step.lines.iter().take(lines) {
        let Line { t, u, cost } = line;
        println!(rt; "  line ({t}, {u}, {cost})")?;
    }
    print!(rt; "  second sheet:")?;
    for (part, mark) in step.row.iter().enumerate() {
        if *mark == 1 {
            print!(rt; " {part}")?;
        }
    }
    println!(rt; "")
}

fn print_step(rt: &HostRuntime, step: &Step<Whole>) -> io::Result<()> {
    let call = step.call;
    match &step.answer {
        Answer::Open => println!(rt; "{call} was not carried out"),
        Answer::Weld(Ok(joined)) => {
            let answer = u8::from(*joined);
            println!(rt; "{call} answers {answer}")
        }
        Answer::Release(Ok(groups)) => println!(rt; "{call} answers {groups}"),
        Answer::Group(Ok(name)) => println!(rt; "{call} answers {name}"),
        Answer::Cost(Ok(cost)) => println!(rt; "{call} answers {cost}"),
        Answer::Split(Ok(Split { cost, groups, best })) => {
            println!(rt; "{call} answers cost {cost}, {groups} groups, best line {best}")?;
            print_split(rt, step, groups.saturating_sub(1))
        }
        Answer::Weld(Err(fault)) => println!(rt; "{call} is refused, {fault}"),
        Answer::Release(Err(fault)) => println!(rt; "{call} is refused, {fault}"),
        Answer::Group(Err(fault)) => println!(rt; "{call} is refused, {fault}"),
        Answer::Cost(Err(fault)) => println!(rt; "{call} is refused, {fault}"),
        Answer::Split(Err(fault)) => println!(rt; "{call} is refused, {fault}"),
    }
}

fn carry_out(rt: &HostRuntime) -> anyhow::Result<()> {
    let heap = rt.alloc();
    let nets = vec![in heap;
        Net::new(3, 0, 2),
        Net::new(1, 2, 2),
        Net::new(2, 4, 2),
        Net::new(1, 6, 3),
    ]?;
    let pins = vec![in heap; 0, 1, 1, 2, 2, 3, 0, 2, 3]?;
    let mut steps = steps(heap)?;
    match Nets::make(4, nets, pins) {
        Ok(figure) => {
            let _plan = run(figure, steps.as_mut_slice());
            for step in steps.iter() {
                print_step(rt, step)?;
            }
        }
        Err(refused) => println!(rt; "the figure is refused, {refused}")?,
    }
    Ok(())
}

fn main(rt: HostRuntime) -> anyhow::Result<()> {
    carry_out(&rt)
}
