// The calls of the session.
use memory::WORDS_IN_LINE;
use rules::Call;

/// The session.
pub const CALLS: [Call; 13] = [
    Call::Write {
        seat: 1,
        address: 0,
        value: 5,
        places: 4,
    },
    Call::Read {
        seat: 2,
        address: 0,
        places: 4,
    },
    Call::Write {
        seat: 2,
        address: 1,
        value: 6,
        places: 4,
    },
    Call::Write {
        seat: 0,
        address: 2,
        value: 7,
        places: 4,
    },
    Call::Write {
        seat: 0,
        address: 3,
        value: 8,
        places: 4,
    },
    Call::Read {
        seat: 1,
        address: 3,
        places: 4,
    },
    Call::Write {
        seat: 1,
        address: 16,
        value: 9,
        places: 4,
    },
    Call::Read {
        seat: 1,
        address: 0,
        places: 4,
    },
    Call::Flush {
        seat: 2,
        address: 0,
        places: 4,
    },
    Call::Read {
        seat: 3,
        address: 0,
        places: 4,
    },
    Call::Read {
        seat: 0,
        address: 32,
        places: 4,
    },
    Call::Write {
        seat: 2,
        address: 31,
        value: 1,
        places: 3,
    },
    Call::Settle,
];

/// The line that a call is about.
pub fn line_of(call: Call) -> Option<usize> {
    match call {
        Call::Read { address, .. } | Call::Write { address, .. } | Call::Flush { address, .. } => {
            Some(address as usize / WORDS_IN_LINE)
        }
        Call::Settle => None,
    }
}
