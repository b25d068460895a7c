// Some bytes, no more than a frame has.
ghost use Rattle.std.specs.Prelude.{◌≡◌, ◌≤◌, length, take};
ghost use Rattle.line.specs.Message.{room};

use line::ROOM;

#[derive(Clone, Copy)]
pub struct Bytes {
    pub all: [u8; ROOM],
    pub count: usize,
    ghost within: { count ≤ room },
}

impl Bytes {
    // The first of all these.
    pub fn front(all: [u8; ROOM], count: usize) -> Self
        ensures { take result.count result.all ≡ take count all }
    {
        Self {
            all,
            count: count.min(ROOM),
        }
    }

    // As many of them as a frame has.
    pub fn of(bytes: &[u8]) -> Self
        ensures { take result.count result.all ≡ take room bytes.now }
    {
        let count = bytes.len().min(ROOM);
        let mut all = [0; ROOM];
        all[..count].copy_from_slice(&bytes[..count]);
        Self { all, count }
    }

    pub fn as_slice(&self) -> &[u8]
        ensures bytes { result.now ≡ take self.now.count self.now.all }
        ensures most { length result.now ≤ room }
    {
        &self.all[..self.count]
    }
}
