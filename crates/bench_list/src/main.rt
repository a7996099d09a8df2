// Lists a BENCH netlist from standard input: `refused N`, or its circuit and the order of its cells.

#![tactic(auto)]

use bench::read::Bench;
use printing::listed::{Joined, list_input};
use std::io;

fn main(rt: HostRuntime) -> io::Result<()> {
    list_input::<Joined<Bench>, _, _>(&mut rt.reader(), &mut io::writer(&rt))
}
