ghost use Rattle.std.specs.Prelude.{◌≡◌, ◌+◌, ◌%◌, ◌^◌};

use turn_lock::Thing;

/// A count, in an object of one KiB.
#[derive(Drop)]
pub struct Counter {
    pub count: u64,
    pub ballast: [u64; 127],
}

impl Counter {
    pub fn new() -> Counter
        ensures { result.count ≡ 0 }
    {
        Counter {
            count: 0,
            ballast: [0; 127],
        }
    }

    /// Adds to the count, and gives the one before.
    pub fn add(&mut self, more: u64) -> u64
        ensures { (result ≡ self.old.count) × (self.new.count ≡ (self.old.count + more) % 2 ^ 64) }
    {
        let before = self.count;
        self.count = before.wrapping_add(more);
        before
    }
}

impl Thing for Counter {
    type Call = u64;

    type Reply = u64;

    ghost Fixed = { Unit {0} };

    ghost fixed = { λ c. tt };

    ghost may_ask = { λ f n. Unit {0} };

    ghost turned = { λ a n reply b. (reply ≡ a.count) × (b.count ≡ (a.count + n) % 2 ^ 64) };

    ghost stays_fixed = { λ a b n reply t i. tt };

    fn turn(&mut self, call: u64) -> u64 {
        self.add(call)
    }
}
