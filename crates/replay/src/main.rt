// Replays a log against a slave: records from standard input, a line on standard output for each
// slot. It keeps both memories itself and lends them, as a host would.
#![tactic(auto)]

mod log;
mod output;
mod record;
mod run;
mod text;

use bench::Gun;

// The start number of the seeds.
const START: u32 = 1;

fn main(rt: HostRuntime) {
    let mut gun = Gun::new();
    // Done, as the state has its size.
    let _ = gun.power_up(START);
    log::replay(&mut rt.stdin(), &mut gun);
}
