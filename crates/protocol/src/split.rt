// Two protocols on one bus: seats below a number follow the first, the others the second.
ghost use Rattle.std.specs.Prelude.{◌≡◌, ℕ, true, ltb, if◌then◌else◌, nat_lt};
ghost use Rattle.std.proofs.lemmas.Bool.{cond_both};
ghost use Rattle.protocol.specs.Cells.{allowed};

use crate::interface::Protocol;

/// A mixture of two protocols by seat; either may be a mixture itself.
#[derive(Clone, Copy, Drop)]
pub struct Split<P, Q> {
    pub first: P,
    /// The first seat that follows the second protocol.
    pub below: usize,
    pub second: Q,
}

impl<P, Q> Split<P, Q> {
    /// Seats below `below` follow the first protocol, the others the second.
    pub fn new(first: P, below: usize, second: Q) -> Split<P, Q>
        ensures { result ≡ record { first = first; below = below; second = second } }
    {
        Split {
            first,
            below,
            second,
        }
    }
}

impl<P: Protocol, Q: Protocol> Protocol for Split<P, Q> {
    ghost cells = { λ s seat k. (if ltb seat s.below then P.Protocol.cells s.first seat k else Q.Protocol.cells s.second seat k) };

    ghost lawful = { λ p seat k.
        cond_both (nat_lt seat p.below) (P.Protocol.cells p.first seat k) (Q.Protocol.cells p.second seat k) (λ (b : ℕ). allowed k b ≡ true)
        (λ e. P.Protocol.lawful p.first seat k)
        (λ e. Q.Protocol.lawful p.second seat k) };

    fn cell(&self, seat: usize, cell: u8) -> u8 {
        if seat < self.below {
            self.first.cell(seat, cell)
        } else {
            self.second.cell(seat, cell)
        }
    }
}
