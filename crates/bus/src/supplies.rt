// Who supplies a line that a seat takes, and whether memory receives it too.
ghost use Rattle.std.specs.Prelude.{◌≡◌, ◌<◌, [], length, if◌then◌else◌, slice_index_or, slice_set};
ghost use Rattle.std.specs.Option.{option_map_or};
ghost use Rattle.caches.specs.declared.heeded.Owner.{Owner};

use caches::Owner;
use memory::{Line, Memory};

/// The words that the bus gives: the owner's, or else memory's.
pub fn supply<M: Memory>(memory: &M, line: usize, owner: Option<Owner>) -> Line
    requires { line < length (M.lines memory.now) }
    ensures { result ≡ option_map_or (λ (o : Owner). o.words) owner (slice_index_or (M.lines memory.now) line []) }
{
    match owner {
        Some(owner) => owner.words,
        None => memory.read_line(line).unwrap(),
    }
}

/// Memory receives the line too, or not.
pub fn reflect<M: Memory>(memory: &mut M, line: usize, words: Line, reflected: bool)
    ensures lines { M.lines memory.new ≡ (if reflected then slice_set (M.lines memory.old) line words else M.lines memory.old) }
    ensures aside { M.aside memory.new ≡ M.aside memory.old }
{
    if reflected {
        let _ = memory.write_line(line, words);
    }
}
