// The calls that a run takes between opening and closing.

/// One call on a run.
#[derive(Clone, Copy, PartialEq, Eq, Debug)]
pub enum Call {
    /// A seat reads the word at an address; there are so many places for bus records.
    Read {
        seat: u32,
        address: u32,
        places: usize,
    },
    /// A seat writes a word at an address.
    Write {
        seat: u32,
        address: u32,
        value: u32,
        places: usize,
    },
    /// A seat drops its copy of the line that an address lies in.
    Flush {
        seat: u32,
        address: u32,
        places: usize,
    },
    /// Every seat drops every copy.
    Settle,
}
