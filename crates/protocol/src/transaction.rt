// The seven bus transactions, their codes, mnemonics and names.
ghost use Rattle.std.specs.Prelude.{◌≡◌};
ghost use Rattle.protocol.specs.Transactions.{code, mnemonic, transaction_name, digit_transaction};
ghost use Rattle.protocol.specs.Unknown.{Reads};

use crate::unknown::Unknown;

/// What a cache asks of the bus.
#[derive(Clone, Copy, PartialEq, Eq, Debug)]
pub enum Transaction {
    /// Read a line that others may keep.
    ReadShared = 1,
    /// Read a line and invalidate the other copies.
    ReadInvalidate,
    /// Invalidate the other copies.
    Invalidate,
    /// Send the written word to the other copies.
    Update,
    /// Write the word through to memory and to the other copies.
    ThroughUpdate,
    /// Write the word through to memory and invalidate the other copies.
    ThroughInvalidate,
    /// Write the whole line back to memory.
    WriteBack,
}

impl Transaction {
    // By name and not by `From`: a transaction has a digit too, which is another byte.
    /// The transaction's code, 1 to 7.
    pub fn code(self) -> u8
        ensures { result ≡ code self }
    {
        self as u8
    }

    /// The two letters that stand for the transaction in a report.
    // A text and no `Display`: a transaction has a name too, and a call says which it takes.
    pub fn mnemonic(self) -> &'static str
        ensures { result.now ≡ mnemonic self }
    {
        match self {
            Transaction::ReadShared => "RS",
            Transaction::ReadInvalidate => "RX",
            Transaction::Invalidate => "IN",
            Transaction::Update => "UP",
            Transaction::ThroughUpdate => "TU",
            Transaction::ThroughInvalidate => "TI",
            Transaction::WriteBack => "WB",
        }
    }

    /// The transaction's name.
    // A text and no `Display`: a transaction has a mnemonic too, and a call says which it takes.
    pub fn name(self) -> &'static str
        ensures { result.now ≡ transaction_name self }
    {
        match self {
            Transaction::ReadShared => "read shared",
            Transaction::ReadInvalidate => "read and invalidate",
            Transaction::Invalidate => "invalidate",
            Transaction::Update => "update",
            Transaction::ThroughUpdate => "through with update",
            Transaction::ThroughInvalidate => "through with invalidate",
            Transaction::WriteBack => "write back",
        }
    }
}

/// The transaction that a digit stands for.
impl TryFrom<u8> for Transaction {
    type Error = Unknown;

    ghost try_from_gives = { Reads digit_transaction };

    fn try_from(digit: u8) -> Result<Transaction, Unknown> {
        match digit {
            b'1' => Ok(Transaction::ReadShared),
            b'2' => Ok(Transaction::ReadInvalidate),
            b'3' => Ok(Transaction::Invalidate),
            b'4' => Ok(Transaction::Update),
            b'5' => Ok(Transaction::ThroughUpdate),
            b'6' => Ok(Transaction::ThroughInvalidate),
            b'7' => Ok(Transaction::WriteBack),
            byte => Err(Unknown { byte }),
        }
    }
}
