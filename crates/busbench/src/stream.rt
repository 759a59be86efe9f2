// The pseudo-random numbers that accesses are made of.

/// A sequence of 64-bit numbers.
#[derive(Clone, Copy)]
pub struct Stream {
    x: u64,
}

impl Stream {
    /// The sequence from its beginning.
    pub fn new() -> Stream {
        Stream {
            x: 88172645463325252,
        }
    }

    /// The next number.
    pub fn draw(&mut self) -> u64 {
        let a = self.x ^ (self.x << 13);
        let b = a ^ (a >> 7);
        self.x = b ^ (b << 17);
        self.x
    }
}
