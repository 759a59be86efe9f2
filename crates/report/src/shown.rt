// How a value stands in a report.
ghost use Rattle.std.specs.Prelude.{◌≡◌, ℕ, List, [], ◌++◌, string_bytes, OnOk};
ghost use Rattle.std.specs.List.{flat_map};
ghost use Rattle.std.specs.Option.{option_map_or};
ghost use Rattle.report.specs.Printed.{either_text};

use std::alloc::AllocError;

// A trait of its own and no Display: these types are of other crates, and a word, an option and a result have a text here alone.
/// A value that a report shows by its text.
pub(crate) trait Shown {
    ghost text: { Self → List ℕ };

    /// Writes the text behind what stands in `out`. Only want of memory keeps it from being written.
    fn show(&self, out: &mut String) -> Result<(), AllocError>
        ensures { OnOk result (string_bytes out.new ≡ string_bytes out.old ++ text self.now) };
}

// What is absent shows nothing.
impl<T: Shown> Shown for Option<T> {
    ghost text = { λ value. option_map_or T.text value [] };

    fn show(&self, out: &mut String) -> Result<(), AllocError> {
        match self {
            Some(value) => value.show(out),
            None => Ok(()),
        }
    }
}

impl<T: Shown, E: Shown> Shown for Result<T, E> {
    ghost text = { either_text T.text E.text };

    fn show(&self, out: &mut String) -> Result<(), AllocError> {
        match self {
            Ok(value) => value.show(out),
            Err(error) => error.show(out),
        }
    }
}

/// Each item in turn.
pub(crate) fn show_all<T: Shown>(out: &mut String, items: &[T]) -> Result<(), AllocError>
    ensures { OnOk result (string_bytes out.new ≡ string_bytes out.old ++ flat_map T.text items.now) }
{
    for item in items {
        item.show(out)?;
    }
    Ok(())
}
