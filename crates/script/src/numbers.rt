// The numbers of a line as far as they are read.
ghost use Rattle.std.specs.Prelude.{◌≤◌};

// The numbers after a verb, no more than a start has; an array with a count, since a line is copied and a vector of fixed room is not.
#[derive(Clone, Copy)]
pub struct Numbers {
    values: [u64; 5],
    count: usize,
    ghost within: { count ≤ 5 },
}

impl Numbers {
    ghost use Rattle.std.specs.Prelude.{◌≡◌, [], ◌∷◌, ◌++◌, length, MatchOption};
    ghost use Rattle.script.specs.Reading.{values_of};

    // No number yet.
    pub fn new() -> Numbers
        ensures { values_of result ≡ [] }
    {
        Numbers {
            values: [0; 5],
            count: 0,
        }
    }

    // The numbers with one more, where they are few enough.
    pub fn with(self, n: u64) -> Option<Numbers>
        ensures { MatchOption result (5 ≤ length (values_of self)) (λ s. values_of s ≡ values_of self ++ (n ∷ [])) }
    {
        let Numbers { mut values, count } = self;
        if count == values.len() {
            return None;
        }
        values[count] = n;
        Some(Numbers {
            values,
            count: count + 1,
        })
    }

    // The numbers so far.
    pub fn values(&self) -> &[u64]
        ensures { result.now ≡ values_of self.now }
    {
        &self.values[..self.count]
    }
}
