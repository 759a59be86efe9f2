// The seven published protocols.
ghost use Rattle.std.specs.Prelude.{◌≡◌, slice_index};
ghost use Rattle.protocol.specs.Published.{published_cells, published_name, NameRead};
ghost use Rattle.std.proofs.Common.{rules};

use crate::cells::byte_of;
use crate::interface::Protocol;
use refusal::Refusal;
use std::str::FromStr;

/// A protocol from the literature, followed by every seat.
#[derive(Clone, Copy, PartialEq, Eq, Debug)]
pub enum Published {
    WriteThrough,
    Msi,
    WriteOnce,
    Illinois,
    Berkeley,
    Dragon,
    Firefly,
}

impl Published {
    /// The protocol's cells, 0 to 15.
    pub fn cells(self) -> &'static [u8; 16]
        ensures { result.now ≡ published_cells self }
    {
        match self {
            Published::WriteThrough => b"666SMSOSOSSSSIII",
            Published::Msi => b"233SMSOSOSSSSIII",
            Published::WriteOnce => b"266SMEMEMSSSSIII",
            Published::Illinois => b"233EMEMEMSSSSIII",
            Published::Berkeley => b"233SMSOSOSSOOIII",
            Published::Dragon => b"144EMEMEMSSOOSSS",
            Published::Firefly => b"155EMEMEMSSSSSSS",
        }
    }

    /// The protocol's name.
    // A text and no `Display`: the law of reading a name speaks of these bytes.
    pub fn name(self) -> &'static str
        ensures { result.now ≡ published_name self }
    {
        match self {
            Published::WriteThrough => "writethrough",
            Published::Msi => "msi",
            Published::WriteOnce => "writeonce",
            Published::Illinois => "illinois",
            Published::Berkeley => "berkeley",
            Published::Dragon => "dragon",
            Published::Firefly => "firefly",
        }
    }
}

/// The published protocol that has a name.
impl FromStr for Published {
    type Err = Refusal;

    ghost from_str_gives = { NameRead };

    fn from_str(name: &str) -> Result<Published, Refusal> {
        // Literal cases, as a text is read; `name` says them the other way round.
        match name {
            "writethrough" => Ok(Published::WriteThrough),
            "msi" => Ok(Published::Msi),
            "writeonce" => Ok(Published::WriteOnce),
            "illinois" => Ok(Published::Illinois),
            "berkeley" => Ok(Published::Berkeley),
            "dragon" => Ok(Published::Dragon),
            "firefly" => Ok(Published::Firefly),
            _ => Err(Refusal::ProtocolName),
        }
    }
}

impl Protocol for Published {
    ghost cells = { λ p seat k. slice_index (published_cells p) k };

    ghost lawful = { Prim.search rules };

    fn cell(&self, _seat: usize, cell: u8) -> u8 {
        byte_of(self.cells(), cell)
    }
}
