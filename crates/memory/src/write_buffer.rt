// A write buffer over any memory: up to four written lines wait before they go down.
ghost use Rattle.std.specs.Prelude.{◌≡◌, ◌<◌, ◌≤◌, false, [], length, OnOk, slice_set};
ghost use Rattle.refusal.specs.Refusals.{Answers, Kept};
ghost use Rattle.memory.specs.Lines.{words_in_line, line_due, word_due, word_written};
ghost use Rattle.memory.specs.Ages.{Apart, Wide, full, holds, most_waiting};

use crate::bounds::{check_line, check_word};
use crate::interface::{Line, Memory};
use crate::queue::{Queue, Waiting};
use refusal::Refusal;

/// A memory, and the written lines that have not reached it yet.
// That each waiting line is whole stands here, and not in the queue's model: a memory's law asks it of every buffer.
#[derive(Drop)]
pub struct WriteBuffer<M> {
    below: M,
    queue: Queue,
    ghost whole: { Wide queue },
}

impl<M: Memory> WriteBuffer<M> {
    ghost use Rattle.memory.specs.Buffers.{Steps, buffer, seen, oldest_sent, come, room_made, line_taken, word_taken, all_sent};

    /// An empty buffer over a memory.
    pub fn new(below: M) -> WriteBuffer<M>
        ensures below { result.below ≡ below }
        ensures waiting { result.queue ≡ [] }
    {
        WriteBuffer {
            below,
            queue: Queue::new(),
        }
    }

    /// The lines that wait, oldest first.
    pub fn waiting(&self) -> &[Waiting]
        ensures lines { result.now ≡ self.now.queue }
        ensures apart { Apart result.now }
        ensures few { length result.now ≤ most_waiting }
    {
        self.queue.waiting()
    }

    /// The memory below, drained: nothing that waited is lost.
    pub fn into_below(mut self) -> M
        ensures lines { M.Memory.lines result ≡ seen (buffer M.Memory.lines self) }
        ensures settled { M.Memory.settled result ≡ seen (buffer M.Memory.lines self) }
        ensures aside { M.Memory.aside result ≡ M.Memory.aside self.below }
    {
        self.drain();
        self.below
    }

    /// The oldest waiting line goes down.
    fn send_oldest(&mut self)
        ensures { Steps M.Memory.lines M.Memory.aside oldest_sent self.old self.new }
    {
        if let Some(oldest) = self.queue.pop() {
            let _ = self.below.write_line(oldest.line, oldest.words);
        }
    }

    /// Every waiting line goes down, oldest first.
    // Not by `send_oldest`, which moves those that stay for each that goes.
    fn send_all(&mut self)
        ensures { Steps M.Memory.lines M.Memory.aside all_sent self.old self.new }
    {
        for waiting in self.queue.waiting() {
            let _ = self.below.write_line(waiting.line, waiting.words);
        }
        self.queue = Queue::new();
    }

    /// Of a full buffer the oldest line goes down.
    fn make_room(&mut self)
        ensures made { Steps M.Memory.lines M.Memory.aside room_made self.old self.new }
        ensures room { full self.new.queue ≡ false }
    {
        if self.queue.is_full() {
            self.send_oldest();
        }
    }

    /// A line comes as the youngest, once there is room.
    fn enqueue(&mut self, line: usize, words: Line)
        requires { holds line self.old.queue ≡ false }
        ensures { Steps M.Memory.lines M.Memory.aside (λ b. come line words (room_made b)) self.old self.new }
    {
        self.make_room();
        self.queue.push(line, words);
    }

    /// A line is replaced where it waits, or else comes as the youngest.
    fn take_line(&mut self, line: usize, words: Line)
        ensures { Steps M.Memory.lines M.Memory.aside (line_taken line words) self.old self.new }
    {
        match self.queue.find(line) {
            Some(place) => self.queue.replace(place, words),
            None => self.enqueue(line, words),
        }
    }

    /// A word is changed where its line waits, or else goes down.
    fn take_word(&mut self, line: usize, word: usize, value: u32)
        requires { word < words_in_line }
        ensures { Steps M.Memory.lines M.Memory.aside (word_taken line word value) self.old self.new }
    {
        match self.queue.find(line) {
            Some(place) => self.queue.change(place, word, value),
            None => {
                let _ = self.below.write_word(line, word, value);
            }
        }
    }
}

impl<M: Memory> Memory for WriteBuffer<M> {
    ghost use Rattle.memory.specs.Buffers.{buffer, seen, line_taken, word_taken, all_sent};
    ghost use Rattle.memory.specs.Buffered.{lawful-buffer};

    ghost lines = { λ b. seen (buffer M.Memory.lines b) };

    ghost settled = { λ b. M.Memory.settled b.below };

    ghost Aside = { M.Memory.Aside };

    ghost aside = { λ b. M.Memory.aside b.below };

    ghost lawful = { λ m. lawful-buffer M.Memory.lines M.Memory.settled M.Memory.lawful m };

    fn count(&self) -> usize {
        self.below.count()
    }

    fn read_line(&self, line: usize) -> Result<Line, Refusal> {
        check_line(self.count(), line)?;
        match self.queue.find(line) {
            Some(place) => Ok(self.queue.words(place)),
            None => self.below.read_line(line),
        }
    }

    // From here on what `Memory` promises is said again: a method's own promises, as `taken`, stand in place of those.
    fn write_line(&mut self, line: usize, words: Line) -> Result<(), Refusal>
        ensures answers { Answers (line_due (seen (buffer M.Memory.lines self.old)) line) tt result }
        ensures refused { Kept result (self.new ≡ self.old) }
        ensures lines { seen (buffer M.Memory.lines self.new) ≡ slice_set (seen (buffer M.Memory.lines self.old)) line words }
        ensures aside { M.Memory.aside self.new.below ≡ M.Memory.aside self.old.below }
        ensures taken { OnOk result (buffer M.Memory.lines self.new ≡ line_taken line words (buffer M.Memory.lines self.old)) }
    {
        check_line(self.count(), line)?;
        self.take_line(line, words);
        Ok(())
    }

    fn write_word(&mut self, line: usize, word: usize, value: u32) -> Result<(), Refusal>
        ensures answers { Answers (word_due (seen (buffer M.Memory.lines self.old)) line word) tt result }
        ensures refused { Kept result (self.new ≡ self.old) }
        ensures lines { seen (buffer M.Memory.lines self.new) ≡ word_written (seen (buffer M.Memory.lines self.old)) line word value }
        ensures aside { M.Memory.aside self.new.below ≡ M.Memory.aside self.old.below }
        ensures taken { OnOk result (buffer M.Memory.lines self.new ≡ word_taken line word value (buffer M.Memory.lines self.old)) }
    {
        check_word(self.count(), line, word)?;
        self.take_word(line, word, value);
        Ok(())
    }

    fn drain(&mut self)
        ensures lines { seen (buffer M.Memory.lines self.new) ≡ seen (buffer M.Memory.lines self.old) }
        ensures settled { M.Memory.settled self.new.below ≡ seen (buffer M.Memory.lines self.old) }
        ensures aside { M.Memory.aside self.new.below ≡ M.Memory.aside self.old.below }
        ensures sent { buffer M.Memory.lines self.new ≡ all_sent (buffer M.Memory.lines self.old) }
    {
        self.send_all();
        self.below.drain();
    }
}
