// Calls, bus records and tallies in words.
use rules::{Call, Record, Supplier, Tally};
use std::fmt;

/// A value, printed in words.
#[derive(Clone, Copy)]
pub struct InWords<T>(pub T);

impl fmt::Display for InWords<Call> {
    fn fmt<W: fmt::Write>(&self, f: &mut fmt::Formatter<W>) -> fmt::Result {
        match self.0 {
            Call::Read { seat, address, .. } => write!(f, "seat {seat} reads address {address}"),
            Call::Write {
                seat,
                address,
                value,
                ..
            } => write!(f, "seat {seat} writes {value} at address {address}"),
            Call::Flush { seat, address, .. } => {
                write!(f, "seat {seat} flushes the line of address {address}")
            }
            Call::Settle => write!(f, "settle"),
        }
    }
}

// The transaction, its seat and line, who supplied the line, and who holds it afterwards.
impl fmt::Display for InWords<Record> {
    fn fmt<W: fmt::Write>(&self, f: &mut fmt::Formatter<W>) -> fmt::Result {
        let record = self.0;
        let mnemonic = record.transaction.mnemonic();
        let supplier = InWords(record.supplier);
        write!(
            f,
            "{mnemonic} by seat {}, line {}{supplier}",
            record.seat, record.line
        )?;
        if record.reflected {
            write!(f, ", memory receives it too")?;
        }
        f.write_str(if record.shared {
            "; others hold it"
        } else {
            "; no other seat holds it"
        })
    }
}

// Who supplied the line, where somebody did.
impl fmt::Display for InWords<Supplier> {
    fn fmt<W: fmt::Write>(&self, f: &mut fmt::Formatter<W>) -> fmt::Result {
        match self.0 {
            Supplier::Nobody => Ok(()),
            Supplier::Memory => write!(f, ": memory supplies it"),
            Supplier::Seat(seat) => write!(f, ": seat {seat} supplies it"),
        }
    }
}

// The accesses, the transactions, and the copies that were made and that ended.
impl fmt::Display for InWords<Tally> {
    fn fmt<W: fmt::Write>(&self, f: &mut fmt::Formatter<W>) -> fmt::Result {
        let Tally {
            reads,
            writes,
            hits,
            rs,
            rx,
            inv,
            up,
            tu,
            ti,
            wb,
            reflected,
            fills,
            displaced,
            flushed,
            invalidated,
        } = self.0;
        writeln!(
            f,
            "  accesses      reads {reads}, writes {writes}, hits {hits}"
        )?;
        writeln!(
            f,
            "  transactions  RS {rs}, RX {rx}, IN {inv}, UP {up}, TU {tu}, TI {ti}, WB {wb}, reflected {reflected}"
        )?;
        write!(
            f,
            "  copies        fills {fills} = displaced {displaced} + flushed {flushed} + invalidated {invalidated}"
        )
    }
}
