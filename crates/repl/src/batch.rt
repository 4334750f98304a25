ghost use Rattle.std.specs.Prelude.{◌≡◌, ◌≤◌, option_map};

/// How many changes a pass lists at a time: 1 to 1,000.
#[derive(Clone, Copy, Debug, PartialEq, Eq)]
pub struct Batch {
    size: u64,
    ghost at_least_one: { 1 ≤ size },
    ghost at_most_thousand: { size ≤ 1000 },
}

impl Batch {
    ghost use Rattle.repl.specs.Configuration.{batch_of, batch_size};

    /// Makes a batch of this size, where it is 1 to 1,000. Takes no memory.
    pub fn new(size: u64) -> Option<Batch>
        ensures { option_map batch_size result ≡ batch_of size }
    {
        if size < 1 || size > 1000 {
            return None;
        }
        Some(Batch { size })
    }

    /// Returns how many changes are listed at a time.
    pub fn size(&self) -> u64
        ensures { result ≡ batch_size self.now }
    {
        self.size
    }
}
