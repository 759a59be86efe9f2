// The whole account of a text.
use crate::step::Step;
use crate::stop::Stop;
use memory::Plain;
use run::Closed;

/// What the accesses of a text did, what stopped them, and what closing gave.
#[derive(Drop)]
pub struct Ran {
    /// The accesses answered, in their order.
    pub steps: Vec<Step>,
    /// The fault in an access line that ended the accesses, if one did.
    pub stop: Option<Stop>,
    /// The memory after closing, what was counted, and the lines that the closing settle wrote back.
    pub closed: Closed<Plain>,
}

/// The account of a text: a run that was opened and closed, or what refused the text, its bus line or its setup, where no
/// run was opened.
pub type Account = Result<Ran, Stop>;
