// Text put into a buffer.
ghost use Rattle.std.specs.Prelude.{◌≤◌, length};

// A buffer that is filled from its start on. What finds no room is left out, so a caller sees to the room.
#[derive(Drop)]
pub struct Out<'a> {
    bytes: &'a mut [u8],
    at: usize,
    ghost within: { at ≤ length bytes.now },
}

impl<'a> Out<'a> {
    ghost use Rattle.std.specs.Prelude.{◌≡◌, ◌+◌, ◌++◌, take, min};
    ghost use Rattle.std.specs.Fmt.{decimal};
    ghost use Rattle.script.specs.Puts.{Puts, PutsLine};
    ghost use Rattle.script.specs.Texts.{perhaps_text, flag_text};

    // Nothing is put yet.
    pub fn new(bytes: &'a mut [u8]) -> Out<'a>
        ensures { result.at ≡ 0 }
    {
        Out { bytes, at: 0 }
    }

    // So many bytes of the buffer are put already; all, where it has no more.
    pub fn after(bytes: &'a mut [u8], at: usize) -> Out<'a>
        ensures place { result.at ≡ min at (length bytes.old) }
        ensures same { result.bytes.now ≡ bytes.old }
    {
        let at = at.min(bytes.len());
        Out { bytes, at }
    }

    // What has been put.
    pub fn text(&self) -> &[u8]
        ensures { result.now ≡ take self.now.at self.now.bytes.now }
    {
        &self.bytes[..self.at]
    }

    // How many bytes more find room.
    pub fn room(&self) -> usize
        ensures { result + self.now.at ≡ length self.now.bytes.now }
    {
        self.bytes.len() - self.at
    }

    // Puts bytes that find room; in place, as a text is mostly a few bytes long.
    #[inline(always)]
    fn lay(&mut self, text: &[u8])
        requires { self.old.at + length text.now ≤ length self.old.bytes.now }
        ensures put { Puts self.old.bytes.now self.new.bytes.now self.old.at text.now self.new.at }
        ensures same_reference { self.new.bytes.ghost_name ≡ self.old.bytes.ghost_name }
    {
        let end = self.at + text.len();
        self.bytes[self.at..end].copy_from_slice(text);
        self.at = end;
    }

    // Puts as many of the bytes as find room.
    fn lay_some(&mut self, text: &[u8])
        ensures put { Puts self.old.bytes.now self.new.bytes.now self.old.at text.now self.new.at }
        ensures same_reference { self.new.bytes.ghost_name ≡ self.old.bytes.ghost_name }
    {
        let count = text.len().min(self.room());
        self.lay(&text[..count]);
    }

    // Puts bytes; what finds no room is left out. In place, so that a text whose length is known is no call.
    #[inline(always)]
    pub fn put(&mut self, text: &[u8])
        ensures put { Puts self.old.bytes.now self.new.bytes.now self.old.at text.now self.new.at }
        ensures same_reference { self.new.bytes.ghost_name ≡ self.old.bytes.ghost_name }
    {
        if text.len() <= self.room() {
            self.lay(text);
        } else {
            self.lay_some(text);
        }
    }

    // Puts a number in decimal, digit by digit: it has few, and how many is not known.
    pub fn number(&mut self, n: u64)
        ensures { Puts self.old.bytes.now self.new.bytes.now self.old.at (decimal n) self.new.at }
    {
        let mut digits = itoa::Buffer::new();
        self.put_each(digits.format(n).as_bytes());
    }

    // Puts bytes one by one.
    fn put_each(&mut self, text: &[u8])
        ensures { Puts self.old.bytes.now self.new.bytes.now self.old.at text.now self.new.at }
    {
        for b in text {
            self.put(&[*b]);
        }
    }

    // Puts a text where a flag is set.
    pub fn flag(&mut self, mark: u64, text: &[u8])
        ensures { Puts self.old.bytes.now self.new.bytes.now self.old.at (flag_text mark text.now) self.new.at }
    {
        if mark != 0 {
            self.put(text);
        }
    }

    // Puts a text and a number.
    pub fn field(&mut self, text: &[u8], n: u64)
        ensures { Puts self.old.bytes.now self.new.bytes.now self.old.at (text.now ++ decimal n) self.new.at }
    {
        self.put(text);
        self.number(n);
    }

    // The same of a number that may be none.
    pub fn perhaps(&mut self, text: &[u8], n: u64)
        ensures { Puts self.old.bytes.now self.new.bytes.now self.old.at (text.now ++ perhaps_text n) self.new.at }
    {
        self.put(text);
        match n {
            rules::NONE => self.put(b"none"),
            n => self.number(n),
        }
    }

    // Puts a text and the line's end.
    pub fn line(&mut self, text: &[u8])
        ensures { PutsLine self.old.bytes.now self.new.bytes.now self.old.at text.now self.new.at }
    {
        self.put(text);
        self.put(b"\n");
    }

    // Puts a text, a number and the line's end.
    pub fn last(&mut self, text: &[u8], n: u64)
        ensures { PutsLine self.old.bytes.now self.new.bytes.now self.old.at (text.now ++ decimal n) self.new.at }
    {
        self.field(text, n);
        self.line(b"");
    }

    // What has been put is gone.
    pub fn clear(&mut self)
        ensures place { self.new.at ≡ 0 }
        ensures same { self.new.bytes.now ≡ self.old.bytes.now }
    {
        self.at = 0;
    }
}
