// The part of the work that a fault belongs to.
ghost use Rattle.std.specs.Prelude.{◌≡◌, Some};
ghost use Rattle.refusal.specs.Refusals.{number};
ghost use Rattle.trace.specs.Faults.{layer_of, layer_name};

use refusal::Refusal;
use std::fmt;

/// What found a fault: the reading of a number or of a line, the model, or the setting up.
#[derive(Clone, Copy, PartialEq, Eq, Debug)]
pub enum Layer {
    /// A number does not fit.
    Number,
    /// A line has the wrong form.
    Line,
    /// The model refused an access.
    Model,
    /// The text, or what its bus line asks for, is refused.
    Setup,
}

/// The layer that gives a refusal.
impl From<Refusal> for Layer {
    ghost from_gives = { λ refusal layer. layer ≡ layer_of (number refusal) };

    fn from(refusal: Refusal) -> Layer {
        match refusal {
            Refusal::NumberTooLarge => Layer::Number,
            Refusal::LineForm => Layer::Line,
            Refusal::CallLimit | Refusal::NoSeat | Refusal::BeyondMemory => Layer::Model,
            _ => Layer::Setup,
        }
    }
}

/// The layer's name.
impl fmt::Display for Layer {
    ghost output = { λ layer. Some (layer_name layer) };

    fn fmt<W: fmt::Write>(&self, f: &mut fmt::Formatter<W>) -> fmt::Result {
        f.write_str(match self {
            Layer::Number => "number",
            Layer::Line => "line",
            Layer::Model => "model",
            Layer::Setup => "setup",
        })
    }
}
