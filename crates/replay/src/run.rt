// The lines of a recording's calls, one after another.
ghost use Rattle.std.specs.Prelude.{◌≡◌};
ghost use Rattle.std.specs.Iterator.{YieldsFirst, item_count};
ghost use Rattle.replay.specs.Code.Run.{next_read, lines_left};

use crate::MOST_CALLS;
use crate::turn::{call_line, stopped_line};
use guidance::plane::PlaneGuidance;
use lines::Line;
use records::call::{ReadCall, read_call};
use refusals::Refusal;

// The calls from a place on, the next with a number, and the guidance that it gets.
#[derive(Drop)]
pub struct CallLines<'a> {
    pub recording: &'a [u8],
    pub at: usize,
    pub number: u32,
    pub guidance: PlaneGuidance,
}

impl CallLines<'_> {
    // The next call's record.
    #[tactic(auto, unfolding(crate::specs::Code::Run::next_read))]
    fn read(&self) -> Result<ReadCall, Refusal>
        ensures { result ≡ next_read self.now }
    {
        if MOST_CALLS < self.number {
            return Err(Refusal::TooManyCalls);
        }
        read_call(self.recording, self.at)
    }
}

impl Iterator for CallLines<'_> {
    type Item = Line;

    ghost next_gives = { YieldsFirst lines_left };

    ghost remaining = { item_count lines_left };

    fn next(&mut self) -> Option<Line> {
        if self.recording.len() <= self.at {
            return None;
        }
        match self.read() {
            Err(why) => {
                // A refusal ends the replay: nothing is left.
                self.at = self.recording.len();
                Some(stopped_line(Some(self.number), why))
            }
            Ok(read) => {
                let done = call_line(self.number, self.guidance, read.call);
                self.guidance = done.guidance;
                self.at = read.next;
                self.number += 1;
                Some(done.line)
            }
        }
    }
}
