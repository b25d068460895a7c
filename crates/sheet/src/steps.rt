// What the steps of a sheet do. Each prints what came, and the tool keeps the verdict.
ghost use Rattle.std.specs.Prelude.{◌≡◌, length};
ghost use Rattle.state.specs.Bytes.{u16_at, block};
ghost use Rattle.bench.specs.Stored.{stored_in};

use crate::tool::Tool;
use crate::wire;
use bench::Gun;
use line::{LONGEST, MOST};
use report::show;
use state::bytes::{block, get, get16, get32};
use state::seeds::key_for;
use words::{Counted, EventRefusal, Numbered, Resource};

const UNLOCK: u8 = 0xF7;

// Power-up: the start number, four bytes.
pub fn power_up(bytes: &[u8], tool: &mut Tool, gun: &mut Gun) {
    show::print_bytes(bytes);
    // Done, as the state has its size.
    let _ = gun.power_up(get32(bytes, 0));
    tool.ctr = 0;
}

// Measured bytes: their place, two bytes, and they.
pub fn measured(bytes: &[u8], gun: &mut Gun)
    ensures meas { gun.new.meas ≡ stored_in gun.old.meas (u16_at bytes.now 0) (block bytes.now 2 (length bytes.now)) }
    ensures state { gun.new.state ≡ gun.old.state }
    ensures cal { gun.new.cal ≡ gun.old.cal }
{
    show::print_bytes(bytes);
    gun.measure(get16(bytes, 0) as usize, block(bytes, 2, bytes.len()));
}

// A command, and the frame that it is to be in.
pub fn command(bytes: &[u8], expected: &[u8], tool: &mut Tool, gun: &mut Gun) {
    let frame = wire::framed(bytes, tool.ctr);
    let numbers = wire::send(frame.as_slice(), gun);
    show::print_bytes(bytes);
    tool.judge(show::on_the_wire(frame.as_slice(), expected));
    show::print_numbers(numbers.as_slice());
    tool.sent(1);
}

// Bytes on the wire as they are, and the number that each is to give. The tool's own CTR stays.
pub fn wire(bytes: &[u8], expected: &[u8], tool: &mut Tool, gun: &mut Gun) {
    let numbers = wire::send(bytes, gun);
    show::print_bytes(bytes);
    show::print_numbers(numbers.as_slice());
    tool.judge(show::check(numbers.as_slice(), expected));
}

// Bytes on the wire, lent as one slice; the number that it is to give, and how many of them it is to
// take. The tool's own CTR stays.
pub fn slice(bytes: &[u8], expected: &[u8], tool: &mut Tool, gun: &mut Gun) {
    show::print_bytes(bytes);
    show::print(b"\n    number, bytes taken       ");
    let took = gun.receive_bytes(bytes);
    let came = [took.received.number(), (took.taken % 256) as u8];
    show::print_bytes(&came);
    tool.judge(show::check(&came, expected));
}

// A slot: the packet that is to come, and the frame that it is to be in.
pub fn slot(expected: &[u8], frame_expected: &[u8], tool: &mut Tool, gun: &mut Gun) {
    let frame = gun.take_frame();
    let mut message = [0; LONGEST];
    let packet = wire::packet(frame.as_slice(), &mut message);
    show::print_bytes(packet);
    tool.judge(show::check(packet, expected));
    tool.judge(show::on_the_wire(frame.as_slice(), frame_expected));
    tool.seed = get32(packet, 2);
}

// UNLOCK: the resource, and the key that the seed in the last answer is to give.
pub fn unlock(bytes: &[u8], expected: &[u8], tool: &mut Tool, gun: &mut Gun) {
    // 01 is calibration, 04 the lists.
    let resource = Resource::try_from(get(bytes, 0)).unwrap_or(Resource::Lists);
    let key = key_for(resource, tool.seed);
    tool.judge(check_key(key, expected));
    let [a, b, c, d] = key.to_le_bytes();
    command(&[UNLOCK, 4, a, b, c, d], b"", tool, gun);
}

// The key, and whether it is the expected one.
fn check_key(key: u32, expected: &[u8]) -> bool {
    let bytes = key.to_le_bytes();
    show::print(b"key ");
    show::print_bytes(&bytes);
    let good = show::check(&bytes, expected);
    show::print(b"\n    the command               ");
    good
}

// A command as often as the first byte says, and the answer that is to come each time.
pub fn repeat(bytes: &[u8], expected: &[u8], tool: &mut Tool, gun: &mut Gun) {
    let times = get(bytes, 0);
    let command = block(bytes, 1, MOST);
    show::print_bytes(command);
    show::print(b"\n    times                     ");
    io::print_decimal(1, times as u64);
    show::print(b"\n    each answer is to be      ");
    show::print_bytes(expected);
    let good = wire::exchanges(times, command, expected, tool.ctr, gun);
    show::print_verdict(good);
    tool.judge(good);
    tool.sent(times);
}

// An event: its number and two bytes of clock; the lists that are to sample, and to miss it.
pub fn event(bytes: &[u8], expected: &[u8], tool: &mut Tool, gun: &mut Gun) {
    show::print_bytes(bytes);
    show::print(b"\n    sampled, missed           ");
    let evented = gun.event(get(bytes, 0) as u32, get16(bytes, 1));
    tool.judge(counted(evented, expected));
}

fn counted(evented: Result<Counted, EventRefusal>, expected: &[u8]) -> bool {
    match evented {
        Ok(Counted { sampled, missed }) => {
            let counts = [sampled, missed];
            show::print_bytes(&counts);
            show::check(&counts, expected)
        }
        Err(_) => {
            let numbers = [evented.number()];
            show::print(b"refused with ");
            io::print_decimal(1, numbers[0] as u64);
            show::check(&numbers, expected)
        }
    }
}
