// A word of the input, shown so that any bytes can be read.
use std::fmt;

// How many bytes of a word are shown.
const SHOWN: usize = 40;

/// A word as the report shows it: bytes that do not print are written in hexadecimal, long words are cut.
#[derive(Drop)]
pub struct Word<'a> {
    pub bytes: &'a [u8],
}

impl fmt::Display for Word<'_> {
    fn fmt<W: fmt::Write>(&self, f: &mut fmt::Formatter<W>) -> fmt::Result {
        if self.bytes.is_empty() {
            return f.write_str("(an empty line)");
        }
        for byte in self.bytes.iter().copied().take(SHOWN) {
            show_byte(byte, f)?;
        }
        let length = self.bytes.len();
        if length > SHOWN {
            write!(f, ".. ({length} bytes)")?;
        }
        Ok(())
    }
}

// A printing character as it is, any other byte in hexadecimal.
fn show_byte<W: fmt::Write>(byte: u8, f: &mut fmt::Formatter<W>) -> fmt::Result {
    match byte {
        b'!'..=b'~' => write!(f, "{}", char::from(byte)),
        _ => write!(f, "\\x{byte:02x}"),
    }
}
