// Lists a BLIF netlist from standard input: `refused N`, or its circuit and the order of its cells.

#![tactic(auto)]

use blif::read::Blif;
use printing::listed::{Joined, list_input};
use std::io;

fn main(rt: HostRuntime) -> io::Result<()> {
    list_input::<Joined<Blif>, _, _>(&mut rt.reader(), &mut io::writer(&rt))
}
