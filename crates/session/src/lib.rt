// The run of a text: its bus line sets a run up, its access lines are performed one by one, and the run is closed.
#![tactic(auto)]

ghost use Rattle.session.specs.Texts.{OneOutcome};

mod memory_words;
mod playing;
mod states;
mod text;

pub use text::play;

/// Every text gives one outcome, and only one.
pub fn one_outcome()
    ensures { OneOutcome }
{}
