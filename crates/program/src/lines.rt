// The lines: one for each reading, or the one of a bad rule or record.
ghost use Rattle.std.specs.Prelude.{◌≡◌, []};
ghost use Rattle.meaning.specs.Answers.{refused};
ghost use Rattle.meaning.specs.Calls.{verdict_says};
ghost use Rattle.meaning.specs.CheckProgram.{spaced, class_word, line_bytes};
ghost use Rattle.program.specs.Texts.{Lays, line_says, judged_line};

use crate::text::Text;
use meaning::{Judgement, Reading, Refusal, Verdict};

impl Text {
    // A space, and a number.
    fn spaced(&mut self, n: u64)
        ensures { Lays self.old (spaced n) self.new }
    {
        self.put(b' ');
        self.number(n);
    }

    // A refusal's number and place. By casts alike: a place is a usize, which has no `From`, and an edit exchanges the two.
    pub(crate) fn refusal(&mut self, r: Refusal)
        ensures { Lays self.old (line_bytes [] (refused r.number r.place)) self.new }
    {
        self.word(b" refused");
        self.spaced(r.number as u64);
        self.spaced(r.place as u64);
        self.put(b'\n');
    }

    // A verdict. Not by `write!` of it: no clause says what stands in a text where a `write!` answers an error, and a line has none.
    #[tactic(auto, unfolding(meaning::specs::Calls::verdict_says, meaning::specs::CheckProgram::class_word))]
    fn verdict(&mut self, v: Verdict)
        ensures { Lays self.old (class_word (verdict_says v)) self.new }
    {
        self.word(match v {
            Verdict::OffSchema => b" off-schema",
            Verdict::Reject => b" reject",
            Verdict::Accept => b" accept",
        });
    }

    // A verdict, the end state, the events and the looks.
    fn judgement(&mut self, j: Judgement, reading: Reading)
        ensures { Lays self.old (line_bytes [] (judged_line j reading)) self.new }
    {
        self.verdict(j.verdict);
        self.spaced(u64::from(j.state));
        self.spaced(u64::from(reading.taken));
        self.spaced(u64::from(reading.looks));
        self.put(b'\n');
    }

    // The line of one reading.
    // Names are bytes, as the definition's line_bytes has them.
    pub(crate) fn line(&mut self, name: &[u8], end: Result<Judgement, Refusal>, reading: Reading)
        ensures { Lays self.old (line_bytes name.now (line_says end reading)) self.new }
    {
        self.word(name);
        match end {
            Ok(j) => self.judgement(j, reading),
            Err(r) => self.refusal(r),
        }
    }
}
