// Commands to the slave, and frames from it.
use bench::{Bytes, Gun};
use line::{LONGEST, Message, Place, ROOM};
use state::bytes::block;
use words::Numbered;

// A command in its frame; no bytes where it fits none.
pub fn framed(command: &[u8], ctr: u8) -> Bytes {
    let mut frame = Bytes::front([0; ROOM], 0);
    let size = line::write(command, ctr, &mut frame.all).unwrap_or(0);
    frame.count = size.min(ROOM);
    frame
}

// Hands the slave bytes one by one, no more than a frame has, and keeps the number that each gave.
pub fn send(bytes: &[u8], gun: &mut Gun) -> Bytes {
    let mut numbers = Bytes::front([0; ROOM], bytes.len());
    for (number, byte) in numbers.all.iter_mut().zip(bytes) {
        *number = gun.receive_byte(*byte).number();
    }
    numbers
}

// The packet of the message in a frame, where the message was gathered; no bytes where it is not good.
pub fn packet<'a>(frame: &[u8], message: &'a mut [u8; LONGEST]) -> &'a [u8] {
    let Some((last, before)) = frame.split_last() else {
        return b"";
    };
    let mut place = Place::Outside;
    for byte in before {
        place = line::take(place, message, *byte).place;
    }
    // What the last byte ended.
    match line::take(place, message, *last).outcome {
        Ok(Some(Message { ctr: _, at, len })) => block(message, at, len),
        _ => b"",
    }
}

// A command and its answer, with nothing printed. Whether the answer was the expected one. One room has both frames, one after the other: handed over as
// `Bytes`, as above, they would be copied each time.
fn exchange(command: &[u8], expected: &[u8], ctr: u8, gun: &mut Gun) -> bool {
    let mut frame = [0; ROOM];
    let size = line::write(command, ctr, &mut frame).unwrap_or(0);
    for byte in &frame[..size.min(ROOM)] {
        let _ = gun.receive_byte(*byte);
    }
    let came = gun.slot(&mut frame).ok().flatten().unwrap_or(0);
    let mut message = [0; LONGEST];
    check::same(packet(&frame[..came.min(ROOM)], &mut message), expected)
}

// The same again and again, up to the first answer that was not expected.
pub fn exchanges(times: u8, command: &[u8], expected: &[u8], ctr: u8, gun: &mut Gun) -> bool {
    for i in 0..times {
        if !exchange(command, expected, ctr.wrapping_add(i), gun) {
            return false;
        }
    }
    true
}
