// The lines that answer, as far as they are not written yet.
ghost use Rattle.std.specs.Prelude.{◌+◌, ◌<◌, ◌≡◌, length};

use script::Out;
use std::io;

// No line has more bytes.
const LONGEST: usize = 512;

// Lines that wait in a buffer, and where they will be written.
#[derive(Drop)]
pub struct Answers<'a, P: Print> {
    rt: &'a P,
    waiting: Out<'a>,
}

impl<'a, P: Print> Answers<'a, P> {
    // No line waits yet.
    pub fn new(rt: &'a P, buffer: &'a mut [u8]) -> Answers<'a, P>
        ensures { result.waiting.at ≡ 0 }
    {
        Answers {
            rt,
            waiting: Out::new(buffer),
        }
    }

    // Writes what waits; nothing waits then, also where it could not be written.
    pub fn write(&mut self) -> io::Result<()>
        ensures place { self.new.waiting.at ≡ 0 }
        ensures same { self.new.waiting.bytes.now ≡ self.old.waiting.bytes.now }
    {
        let written = self.rt.write_all(self.waiting.text());
        self.waiting.clear();
        written
    }

    // Makes room for any line: where the buffer has less, what waits is written first.
    pub fn make_room(&mut self)
        ensures { 512 < length self.old.waiting.bytes.now → self.new.waiting.at + 512 < length self.new.waiting.bytes.now }
    {
        if self.waiting.room() <= LONGEST {
            // Where it fails these lines are lost; the block's end writes again, and ends the run if that fails too.
            let _ = self.write();
        }
    }

    // Where the next line is put, with room for any.
    pub fn line(&mut self) -> &mut Out<'a> {
        self.make_room();
        &mut self.waiting
    }
}
