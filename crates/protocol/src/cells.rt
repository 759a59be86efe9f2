// The answers of sixteen cells.
ghost use Rattle.std.specs.Prelude.{◌≡◌, slice_index};

// The byte of a cell, 0 above the last.
pub(crate) fn byte_of(cells: &[u8; 16], cell: u8) -> u8
    ensures { result ≡ slice_index cells.now cell }
{
    cells.get(usize::from(cell)).copied().unwrap_or(0)
}
