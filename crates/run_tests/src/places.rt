// Record places to lend.
ghost use Rattle.std.specs.Prelude.{◌≡◌, length};

use rules::Record;
use run::PLACES_NEEDED;

/// Four record places that nothing was written to.
pub fn record_places() -> [Record; PLACES_NEEDED]
    ensures { length result ≡ 4 }
{
    [Record::UNMADE; PLACES_NEEDED]
}
