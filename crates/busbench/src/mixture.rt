// The protocols of the eight seats: the seven published ones in turn, and the first once more.
use protocol::{Published, Split};

/// One seat's protocol, and the next seat's.
type Pair = Split<Published, Published>;

/// Four seats in turn.
type Four = Split<Pair, Pair>;

/// Seat s follows the published protocol number s mod 7.
pub type Mixture = Split<Four, Four>;

/// The mixture of the eight seats.
pub fn mixture() -> Mixture {
    Split::new(
        Split::new(
            Split::new(Published::WriteThrough, 1, Published::Msi),
            2,
            Split::new(Published::WriteOnce, 3, Published::Illinois),
        ),
        4,
        Split::new(
            Split::new(Published::Berkeley, 5, Published::Dragon),
            6,
            Split::new(Published::Firefly, 7, Published::WriteThrough),
        ),
    )
}
