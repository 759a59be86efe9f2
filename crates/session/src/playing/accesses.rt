// The access lines of a text, one by one.
ghost use Rattle.std.specs.Prelude.{◌≡◌, map, IfOk};
ghost use Rattle.std.specs.Option.{option_map};
ghost use Rattle.memory.specs.Words.{plain_lines};
ghost use Rattle.run.specs.Views.{system_of};
ghost use Rattle.trace.specs.Faults.{trace_stop};
ghost use Rattle.account.specs.Accounts.{performed};
ghost use Rattle.session.specs.Plays.{Plays};
ghost use Rattle.session.specs.Steps.{MadeNext, Next};

use super::Playing;
use account::Step;
use protocol::Protocol;
use std::alloc::{AllocError, Global};
use trace::{Access, Reader, TraceFault};

impl<P: Protocol> Playing<P> {
    /// Performs every access line from the reader's place on, as far as they come: their steps, and what stopped them.
    pub fn perform_all(
        &mut self,
        heap: Global,
        mut reader: Reader,
    ) -> Result<(Vec<Step>, Option<TraceFault>), AllocError>
        ensures { IfOk result (λ ended. Plays reader.entry.text.now reader.entry.at (system_of P.cells plain_lines self.old.run) (map performed ended.0.items) (option_map trace_stop ended.1) (system_of P.cells plain_lines self.new.run)) }
    {
        let mut steps = Vec::new(heap);
        loop {
            match self.next_step(&mut reader) {
                Ok(Some(step)) => steps.push(step)?,
                Ok(None) => return Ok((steps, None)),
                Err(fault) => return Ok((steps, Some(fault))),
            }
        }
    }

    // Reads the next access line and performs it, if the text does not end here.
    fn next_step(&mut self, reader: &mut Reader) -> Result<Option<Step>, TraceFault>
        ensures next { Next reader.old.text.now reader.old.at (system_of P.cells plain_lines self.old.run) result reader.new.at (system_of P.cells plain_lines self.new.run) }
        ensures text { reader.new.text.now ≡ reader.old.text.now }
    {
        let byte = reader.at();
        let next = reader.next_access()?;
        self.perform_next(next, byte)
    }

    // Performs the access of the line that begins at a byte, if the text does not end there.
    fn perform_next(
        &mut self,
        next: Option<Access>,
        byte: usize,
    ) -> Result<Option<Step>, TraceFault>
        ensures { MadeNext next byte (system_of P.cells plain_lines self.old.run) (system_of P.cells plain_lines self.new.run) result }
    {
        let Some(access) = next else {
            return Ok(None);
        };
        let step = self
            .perform(access)
            .map_err(|refusal| TraceFault::Refused { byte, refusal })?;
        Ok(Some(step))
    }
}
