// The ticket of a run.

/// What opening a run gives beside the run. It cannot be made elsewhere, copied or let go: closing alone takes it.
pub struct Ticket {
    seal: (),
}

impl Ticket {
    /// The ticket of a run just opened.
    pub(crate) fn issue() -> Ticket {
        Ticket { seal: () }
    }

    /// The ticket is spent.
    pub(crate) fn spend(self) {
        let Ticket { seal: () } = self;
    }
}
