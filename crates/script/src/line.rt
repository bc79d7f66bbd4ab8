// A script's lines: a state that takes a line byte by byte, and what the finished line asks.
// A line may have any length and hold any byte but the newline that ends it.
ghost use Rattle.std.specs.Prelude.{ℕ, ◌+◌, ◌-◌, ◌*◌, ◌^◌, ◌<◌, ◌≡◌, true, List, [], ◌∷◌, ◌++◌, SomeIff, ◌≤◌, length, MatchOption, IsSome, option_to_list};
ghost use Rattle.script.specs.Lines.{blank, is_digit, meaning};
ghost use Rattle.script.specs.Reading.{values_of, verb_of, call_of, Reads, OnlyBlanks, InFirst, InCall};

use crate::numbers::Numbers;
use crate::word::Word;

// What a line asks.
#[derive(Clone, Copy)]
pub enum Asked {
    // it has no word, or its first begins with #
    Nothing,
    NoCall,
    // task, operation, key, argument, function
    Start(u64, u64, u64, u64, u64),
    Step(u64),
    Begin(u64),
    Rebalance,
    Tables,
}

// The first words that are calls.
#[derive(Clone, Copy)]
pub enum Verb {
    Start,
    Step,
    Begin,
    Rebalance,
    Tables,
}

// What is kept of the bytes taken so far.
#[derive(Clone, Copy)]
pub enum Line {
    // no word has begun
    Blank,
    // the first word begins with #
    Remark,
    // no call, whatever follows
    NoCall,
    // the first word has begun
    First(Word),
    // it has ended and is a verb; numbers that have ended stand after it, and perhaps one that has begun
    Call(Verb, Numbers, Option<u64>),
}

// Space and tab.
fn is_blank(b: u8) -> bool
    ensures { result ≡ blank b }
{
    b == b' ' || b == b'\t'
}

// A number with one digit more, where it is a digit and the number does not grow too large.
fn digit(value: u64, b: u8) -> Option<u64>
    ensures { SomeIff result ((is_digit b ≡ true) × (value * 10 + (b - 48) < 2 ^ 64)) (value * 10 + (b - 48)) }
{
    match b {
        b'0'..=b'9' => value.checked_mul(10)?.checked_add((b - b'0') as u64),
        _ => None,
    }
}

impl Verb {
    // The verb of the word, where it is one. Word by word, since an arm of a byte string gives the proof no more than its length.
    #[tactic(auto, using(crate::proofs::Verbs::same_is))]
    fn of(word: &[u8]) -> Option<Verb>
        ensures { result ≡ verb_of word.now }
    {
        if word == b"start".as_slice() {
            return Some(Verb::Start);
        }
        if word == b"step".as_slice() {
            return Some(Verb::Step);
        }
        if word == b"begin".as_slice() {
            return Some(Verb::Begin);
        }
        if word == b"rebalance".as_slice() {
            return Some(Verb::Rebalance);
        }
        if word == b"tables".as_slice() {
            return Some(Verb::Tables);
        }
        None
    }

    // What the verb asks with the numbers after it.
    fn asks(self, numbers: &[u64]) -> Asked
        ensures { result ≡ call_of self numbers.now }
    {
        match (self, numbers) {
            (Verb::Start, [n, op, k, a, f]) => Asked::Start(*n, *op, *k, *a, *f),
            (Verb::Step, [n]) => Asked::Step(*n),
            (Verb::Begin, [k]) => Asked::Begin(*k),
            (Verb::Rebalance, []) => Asked::Rebalance,
            (Verb::Tables, []) => Asked::Tables,
            _ => Asked::NoCall,
        }
    }
}

// The numbers with the one that has begun, if any.
fn ended(numbers: Numbers, number: Option<u64>) -> Option<Numbers>
    ensures { MatchOption result ((5 ≤ length (values_of numbers)) × IsSome number) (λ s. values_of s ≡ values_of numbers ++ option_to_list number) }
{
    match number {
        Some(n) => numbers.with(n),
        None => Some(numbers),
    }
}

impl Line {
    // A line of which nothing has been read.
    pub fn empty() -> Line
        ensures { Reads result [] }
    {
        Line::Blank
    }

    // The first byte that is not blank.
    fn begun(b: u8) -> Line
        ensures { (l : List ℕ) → OnlyBlanks l → Reads result (l ++ (b ∷ [])) }
    {
        if is_blank(b) {
            return Line::Blank;
        }
        if b == b'#' {
            return Line::Remark;
        }
        Line::First(Word::new(b))
    }

    // The first word goes on or ends.
    fn first_next(word: Word, b: u8) -> Line
        ensures { (l : List ℕ) → InFirst word l → Reads result (l ++ (b ∷ [])) }
    {
        if is_blank(b) {
            return match Verb::of(word.letters()) {
                Some(verb) => Line::Call(verb, Numbers::new(), None),
                None => Line::NoCall,
            };
        }
        match word.with(b) {
            Some(longer) => Line::First(longer),
            None => Line::NoCall,
        }
    }

    // A number begins, goes on or ends.
    fn call_next(verb: Verb, numbers: Numbers, number: Option<u64>, b: u8) -> Line
        ensures { (l : List ℕ) → InCall verb numbers number l → Reads result (l ++ (b ∷ [])) }
    {
        if is_blank(b) {
            return match ended(numbers, number) {
                Some(more) => Line::Call(verb, more, None),
                None => Line::NoCall,
            };
        }
        match digit(number.unwrap_or(0), b) {
            Some(longer) => Line::Call(verb, numbers, Some(longer)),
            None => Line::NoCall,
        }
    }

    // The line with one byte more, which is no newline.
    pub fn next(self, b: u8) -> Line
        ensures { (l : List ℕ) → Reads self l → Reads result (l ++ (b ∷ [])) }
    {
        match self {
            Line::Blank => Line::begun(b),
            Line::Remark => Line::Remark,
            Line::NoCall => Line::NoCall,
            Line::First(word) => Line::first_next(word, b),
            Line::Call(verb, numbers, number) => Line::call_next(verb, numbers, number, b),
        }
    }

    // The same in place, since a line is long to copy and little of it changes.
    pub fn take(&mut self, b: u8)
        ensures { (l : List ℕ) → Reads self.old l → Reads self.new (l ++ (b ∷ [])) }
    {
        if is_blank(b) {
            return match self {
                Line::Blank => {}
                Line::Remark | Line::NoCall => {}
                _ => *self = self.next(b),
            };
        }
        match self {
            Line::Remark | Line::NoCall => {}
            Line::Call(_, _, number) => match digit(number.unwrap_or(0), b) {
                Some(longer) => *number = Some(longer),
                None => *self = Line::NoCall,
            },
            _ => *self = self.next(b),
        }
    }

    // What the line asks, if it ends here.
    pub fn asks(self) -> Asked
        ensures { (l : List ℕ) → Reads self l → result ≡ meaning l }
    {
        match self {
            Line::Blank | Line::Remark => Asked::Nothing,
            Line::NoCall => Asked::NoCall,
            Line::First(word) => match Verb::of(word.letters()) {
                Some(verb) => verb.asks(&[]),
                None => Asked::NoCall,
            },
            Line::Call(verb, numbers, number) => match ended(numbers, number) {
                Some(all) => verb.asks(all.values()),
                None => Asked::NoCall,
            },
        }
    }
}

// What a line in hand asks: its bytes taken one by one.
pub fn meant(line: &[u8]) -> Asked
    ensures { result ≡ meaning line.now }
{
    let mut s = Line::empty();
    for b in line {
        s = s.next(*b);
    }
    s.asks()
}
