// Power-up: netlists whose inputs are not all known yet. Each is read, ordered and run in one call; printed are the order of its cells, what is known of
// each output, and the answer of `evaluate`, which refuses an unknown input.

#![tactic(auto)]

ghost use Rattle.std.specs.Prelude.{◌≤◌, length, IfOk};
ghost use Rattle.listing.specs.declared.TheConstants.{LISTED};

use assurance::circuits::{Asked, Both};
use assurance::texts::{Sound, assured_bristol, assured_text};
use bench::read::Bench;
use blif::read::Blif;
use circuit::refusals::Refusal;
use listing::LISTED;
use listing::keys::{KEY_LEN, fill_keys};
use printing::input::read_full;
use printing::rooms::{
    INPUT_AREA, JOINED_AREA, KEYS_AREA, NAMES_AREA, NODES_AREA, OUTPUTS_AREA, READY_AREA,
    SUCCESSORS_AREA, room,
};
use std::fs::File;
use std::io;
use std::rt::Files;

/// The next cell is chosen among so many ready ones: the one of the greatest number.
const WINDOW: usize = 2;

/// A netlist of data/, with how many nodes it has, a value 0, 1 or 2 (unknown) for each input, and the names of its outputs.
#[derive(Clone, Copy)]
struct PowerUp<'a> {
    file: &'a str,
    nodes: usize,
    assignment: &'a [u8],
    outputs: &'a [&'a str],
}

/// What a value says of an output.
fn meaning(value: u8) -> &'static str {
    match value {
        0 => "known 0",
        1 => "known 1",
        _ => "unknown",
    }
}

fn print_answer(
    rt: &impl Print,
    call: &str,
    answer: Result<usize, Refusal>,
    counted: &str,
) -> io::Result<()> {
    match answer {
        Ok(count) => println!(rt; "{call}: {count} {counted}"),
        Err(e) => println!(rt; "{call}: refused {}", usize::from(e)),
    }
}

/// The answers, the order of the cells that the run worked out, and the value of each output.
fn print_run(
    rt: &impl Print,
    netlist: PowerUp,
    both: Both,
    order: &[usize],
    answers: &[u8],
) -> io::Result<()> {
    println!(rt; "{}", netlist.file)?;
    print_answer(rt, "run", both.ran, "cells")?;
    print!(rt; "order:")?;
    for x in order.iter().take(both.ran.unwrap_or(0)) {
        print!(rt; " {x}")?;
    }
    println!(rt; "")?;
    for (name, value) in netlist.outputs.iter().zip(answers.iter()) {
        println!(rt; "{name}: {}", meaning(*value))?;
    }
    print_answer(rt, "evaluate", both.evaluated, "outputs")
}

/// The bytes of a file of data/ at the front of `text`, and how many there are.
fn read_file(rt: &impl Files, name: &str, text: &mut [u8]) -> io::Result<usize>
    ensures { IfOk result (λ n. n ≤ length text.new) }
{
    let mut file = File::open(rt, name)?;
    read_full(&mut file, text)
}

/// A text of BLIF or BENCH.
fn show_text<F: Sound>(rt: &(impl Files + Print), netlist: PowerUp) -> io::Result<()>
    requires { netlist.nodes ≤ LISTED }
{
    let mut text: [u8; INPUT_AREA] = room();
    let n = read_file(rt, netlist.file, &mut text)?;
    let mut joined: [u8; JOINED_AREA] = room();
    let mut nodes: [usize; NODES_AREA] = room();
    let mut names: [usize; NAMES_AREA] = room();
    let mut outputs: [usize; OUTPUTS_AREA] = room();
    let mut keys: [u32; KEYS_AREA] = room();
    let mut ready: [usize; READY_AREA] = room();
    let mut successors: [usize; SUCCESSORS_AREA] = room();
    let mut order: [usize; LISTED] = room();
    let mut values: [u8; LISTED] = room();
    let mut answers: [u8; LISTED] = room();
    let mut evaluated: [u8; LISTED] = room();
    fill_keys(&mut keys, netlist.nodes);
    let asked = Asked {
        window: WINDOW,
        keys: &keys[..netlist.nodes * KEY_LEN],
        assignment: netlist.assignment,
    };
    let both = assured_text::<F>(
        &text[..n],
        &mut joined,
        &mut nodes,
        &mut names,
        &mut outputs,
        asked,
        &mut ready,
        &mut successors,
        &mut order,
        &mut values,
        &mut answers,
        &mut evaluated,
    );
    print_run(rt, netlist, both, &order, &answers)
}

/// A text of Bristol.
fn show_bristol(rt: &(impl Files + Print), netlist: PowerUp) -> io::Result<()>
    requires { netlist.nodes ≤ LISTED }
{
    let mut text: [u8; INPUT_AREA] = room();
    let n = read_file(rt, netlist.file, &mut text)?;
    let mut nodes: [usize; NODES_AREA] = room();
    let mut outputs: [usize; OUTPUTS_AREA] = room();
    let mut wires: [usize; LISTED] = room();
    let mut keys: [u32; KEYS_AREA] = room();
    let mut ready: [usize; READY_AREA] = room();
    let mut successors: [usize; SUCCESSORS_AREA] = room();
    let mut order: [usize; LISTED] = room();
    let mut values: [u8; LISTED] = room();
    let mut answers: [u8; LISTED] = room();
    let mut evaluated: [u8; LISTED] = room();
    fill_keys(&mut keys, netlist.nodes);
    let asked = Asked {
        window: WINDOW,
        keys: &keys[..netlist.nodes * KEY_LEN],
        assignment: netlist.assignment,
    };
    let both = assured_bristol(
        &text[..n],
        &mut nodes,
        &mut outputs,
        &mut wires,
        asked,
        &mut ready,
        &mut successors,
        &mut order,
        &mut values,
        &mut answers,
        &mut evaluated,
    );
    print_run(rt, netlist, both, &order, &answers)
}

fn main(rt: HostRuntime) -> io::Result<()> {
    // b1 = 0, b0 not known, bypass = 0
    let band_decoder = PowerUp {
        file: "band_decoder.blif",
        nodes: 13,
        assignment: &[0, 2, 0],
        outputs: &["tap80", "tap40", "tap20", "tap10", "shunt"],
    };
    show_text::<Blif>(&rt, band_decoder)?;
    // ask_a = 1, ask_b = 0, the sense contacts not known, ptt = 0
    let changeover = PowerUp {
        file: "changeover.bench",
        nodes: 15,
        assignment: &[1, 0, 2, 2, 0],
        outputs: &["coil_a", "coil_b", "keyed"],
    };
    show_text::<Bench>(&rt, changeover)?;
    // supply good and oscillator running, relays not known, cover open
    let sense_line = PowerUp {
        file: "power_up.bristol",
        nodes: 8,
        assignment: &[1, 1, 2, 0],
        outputs: &["release", "reset"],
    };
    show_bristol(&rt, sense_line)
}
