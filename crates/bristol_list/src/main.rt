// Lists a Bristol netlist from standard input: `refused N`, or its circuit and the order of its cells.

#![tactic(auto)]

use printing::listed::{Bristol, list_input};
use std::io;

fn main(rt: HostRuntime) -> io::Result<()> {
    list_input::<Bristol, _, _>(&mut rt.reader(), &mut io::writer(&rt))
}
