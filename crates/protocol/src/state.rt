// The five states of a copy, their letters and their attributes.
ghost use Rattle.std.specs.Prelude.{◌≡◌};
ghost use Rattle.protocol.specs.States.{valid, exclusive, owned, letter, letter_state, state_name};
ghost use Rattle.protocol.specs.Unknown.{Reads};

use crate::unknown::Unknown;

/// What a cache may do with its copy of a line.
#[derive(Clone, Copy, PartialEq, Eq, Debug)]
pub enum State {
    /// No copy.
    Invalid,
    /// Valid; others may hold the line too.
    Shared,
    /// Valid, and the only copy.
    Exclusive,
    /// Valid, and answerable for the line; others may hold it too.
    Owned,
    /// Valid, answerable for the line, and the only copy.
    Modified,
}

impl State {
    /// The copy may be read.
    pub fn is_valid(self) -> bool
        ensures { result ≡ valid self }
    {
        self != State::Invalid
    }

    /// No other cache holds the line.
    pub fn is_exclusive(self) -> bool
        ensures { result ≡ exclusive self }
    {
        matches!(self, State::Exclusive | State::Modified)
    }

    /// The cache supplies the line and has to write it back.
    pub fn is_owned(self) -> bool
        ensures { result ≡ owned self }
    {
        matches!(self, State::Owned | State::Modified)
    }

    // By name and by `match`: a case's own number is no byte, so a letter there would be `b'I' as isize`.
    /// The letter that stands for the state in a table and in a report.
    pub fn letter(self) -> u8
        ensures { result ≡ letter self }
    {
        match self {
            State::Invalid => b'I',
            State::Shared => b'S',
            State::Exclusive => b'E',
            State::Owned => b'O',
            State::Modified => b'M',
        }
    }

    /// The state's name.
    // A text and no `Display`: a report puts it, or that there is none, in one place.
    pub fn name(self) -> &'static str
        ensures { result.now ≡ state_name self }
    {
        match self {
            State::Invalid => "Invalid",
            State::Shared => "Shared",
            State::Exclusive => "Exclusive",
            State::Owned => "Owned",
            State::Modified => "Modified",
        }
    }
}

/// The state that a letter stands for.
impl TryFrom<u8> for State {
    type Error = Unknown;

    ghost try_from_gives = { Reads letter_state };

    fn try_from(letter: u8) -> Result<State, Unknown> {
        match letter {
            b'I' => Ok(State::Invalid),
            b'S' => Ok(State::Shared),
            b'E' => Ok(State::Exclusive),
            b'O' => Ok(State::Owned),
            b'M' => Ok(State::Modified),
            byte => Err(Unknown { byte }),
        }
    }
}
