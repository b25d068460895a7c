// Runs a bench sheet against the slave, as a tool at the other end of the wire would. The sheet
// comes by standard input; for each step it prints what came, and whether that was expected.
#![tactic(auto)]

mod run;
mod steps;
mod tool;
mod wire;

use bench::Gun;
use report::fault;

fn main() {
    let mut gun = Gun::new();
    let mut text = io::large_buffer();
    let size = io::read_full(0, &mut text);
    if size == 65536 {
        fault::say_too_long();
        return;
    }
    run::run(&text[..size], &mut gun);
}
