// Putting records into a log, and counting them.
ghost use Rattle.std.specs.Prelude.{◌≡◌};
ghost use Rattle.bus.specs.Logs.{single, listed, Fits, Logged};

use super::Log;
use rules::Record;

impl<'a> Log<'a> {
    /// No record is made yet.
    pub fn new(places: &'a mut [Record]) -> Log<'a>
        ensures lent { result.places.ghost_name ≡ places.entry.ghost_name }
        ensures places { result.places.now ≡ places.old }
        ensures made { result.made ≡ 0 }
    {
        Log { places, made: 0 }
    }

    /// How many records are made.
    pub fn made(&self) -> usize
        ensures { result ≡ self.now.made }
    {
        self.made
    }

    /// Puts a record into the next place.
    pub fn push(&mut self, event: Record)
        requires { Fits 1 self.old }
        ensures { Logged (single event) self.old self.new }
    {
        self.places[self.made] = event;
        self.made += 1;
    }

    /// The same for a record that may have been made.
    pub fn push_some(&mut self, event: Option<Record>)
        requires { Fits 1 self.old }
        ensures { Logged (listed event) self.old self.new }
    {
        if let Some(event) = event {
            self.push(event);
        }
    }
}
