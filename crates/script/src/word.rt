// A line's first word as far as it is read.
ghost use Rattle.std.specs.Prelude.{◌≤◌};

// The letters of a word that is no longer than the longest verb; any bytes, so no text of fixed room.
#[derive(Clone, Copy)]
pub struct Word {
    letters: [u8; 9],
    count: usize,
    ghost within: { count ≤ 9 },
}

impl Word {
    ghost use Rattle.std.specs.Prelude.{◌≡◌, ◌∷◌, [], ◌++◌, length, MatchOption};
    ghost use Rattle.script.specs.Reading.{letters_of};

    // A word of one letter.
    pub fn new(b: u8) -> Word
        ensures { letters_of result ≡ b ∷ [] }
    {
        Word {
            letters: [b, 0, 0, 0, 0, 0, 0, 0, 0],
            count: 1,
        }
    }

    // The word with one letter more, where it is short enough.
    pub fn with(self, b: u8) -> Option<Word>
        ensures { MatchOption result (9 ≤ length (letters_of self)) (λ w. letters_of w ≡ letters_of self ++ (b ∷ [])) }
    {
        let Word { mut letters, count } = self;
        if count == letters.len() {
            return None;
        }
        letters[count] = b;
        Some(Word {
            letters,
            count: count + 1,
        })
    }

    // Its letters so far.
    pub fn letters(&self) -> &[u8]
        ensures { result.now ≡ letters_of self.now }
    {
        &self.letters[..self.count]
    }
}
