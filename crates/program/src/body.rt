// The body of the record of events: its bytes in blocks, both readings of them, and what is printed at the end.
ghost use Rattle.std.specs.Prelude.{◌≡◌, List, [], ◌++◌, ℕ, ◌+◌, ◌%◌, ◌≤◌, length, take, IfSome, IsSomeAnd};
ghost use Rattle.meaning.specs.Answers.{given, refused};
ghost use Rattle.meaning.specs.Calls.{refusal_says};
ghost use Rattle.meaning.specs.RuleFile.{rule_of, check_rule};
ghost use Rattle.meaning.specs.FullReading.{fresh_reading};
ghost use Rattle.meaning.specs.CheckProgram.{front_length, front_check, events_in, line_bytes, rule_word, printed};
ghost use Rattle.program.specs.Passes.{pass_says, fed_on};
ghost use Rattle.program.specs.Bodies.{program_book, zero_book, block_length, Carried, Took, HasRead, both_lines};

use crate::passes::Pass;
use crate::text::Text;
use meaning::{Reading, Reason, Refusal};
use rule::tables::HEADER;

// The bytes of a block, the events that they hold, and the words of the longest book.
pub const BLOCK: usize = 65536;

const EVENTS: usize = BLOCK / 2;

const WORDS: usize = 65;

// What opening gave: the first reading, and the rule's own book.
#[derive(Clone, Copy)]
pub struct Start {
    pub first: Reading,
    pub book: [u64; WORDS],
}

// What is read: the rule's file, the rule's own book, and how many bytes the record of events has.
#[derive(Clone, Copy)]
pub struct Document<'a> {
    pub file: &'a [u8],
    pub book: &'a [u64],
    pub size: u32,
}

// Both readings.
#[derive(Clone, Copy)]
pub struct Both {
    pub skip: Pass,
    pub full: Pass,
}

// The body so far: both readings, and how many bytes were taken, or none once bytes came after the record.
#[derive(Clone, Copy)]
pub struct Body {
    pub both: Both,
    pub taken: Option<usize>,
}

// A book of zeros.
#[tactic(auto, unfolding(crate::specs::Bodies::zero_book))]
fn zeros() -> [u64; WORDS]
    ensures zeros { result ≡ zero_book }
    ensures words { length result ≡ 65 }
{
    [0; WORDS]
}

// The rule opened: a book of zeros is filled, and both readings begin from the one that was given.
pub fn open(file: &[u8]) -> Start
    ensures first_reading { check_rule file.now ≡ given (rule_of file.now) → result.first ≡ fresh_reading (rule_of file.now) }
    ensures own_book { result.book ≡ program_book file.now }
    ensures words { length result.book ≡ 65 }
{
    let mut book = zeros();
    let opened = reading::open(file, &mut book);
    let first = reading::first_of(opened);
    Start { first, book }
}

// The first bytes of the body are in the front already: they are laid into a block, as many as it takes, and the rest of it stays.
pub fn carry(front: &[u8], block: &mut [u8]) -> usize
    ensures { Carried front.now block.old result block.new }
{
    let count = front.len().min(block.len());
    block[..count].copy_from_slice(&front[..count]);
    count
}

impl Both {
    // The events of a block are fed to both readings.
    fn feed(&mut self, document: Document<'_>, block: &[u8])
        ensures skip_fed { length block.now ≤ block_length → pass_says self.new.skip ≡ fed_on document.entry.file.now document.entry.book.now (pass_says self.old.skip) (events_in block.now) }
        ensures full_fed { length block.now ≤ block_length → pass_says self.new.full ≡ fed_on document.entry.file.now zero_book (pass_says self.old.full) (events_in block.now) }
    {
        let mut events = [0u16; EVENTS];
        let count = input::decode(block, &mut events);
        self.skip
            .go_on(document.file, document.book, &events[..count]);
        self.full.go_on(document.file, &zeros(), &events[..count]);
    }

    // The two lines.
    fn lines(&self, document: Document<'_>) -> Text
        ensures { result ≡ both_lines document.entry.file.now document.entry.book.now (pass_says self.now.skip) (pass_says self.now.full) }
    {
        let mut text = Text::empty();
        let file = document.file;
        text.line(
            b"skip",
            self.skip.end_of(file, document.book),
            self.skip.reading,
        );
        text.line(b"full", self.full.end_of(file, &zeros()), self.full.reading);
        text
    }
}

impl Body {
    // Before the first byte: both readings begin from the same one, and the full one is fed with a book of zeros.
    pub fn begin(file: &[u8], book: &[u64], first: Reading) -> Body
        ensures { (size : ℕ) → first ≡ fresh_reading (rule_of file.now) → Took file.now book.now size result [] }
    {
        Body {
            both: Both {
                skip: Pass::begin(file, book, first),
                full: Pass::begin(file, &zeros(), first),
            },
            taken: Some(0),
        }
    }
}

impl Document<'_> {
    // A block of the body, whose events are fed, or which goes on after the record. No event straddles two blocks as long as every
    // block before has an even count of bytes.
    pub fn take(self, body: &mut Body, block: &[u8])
        ensures took_more { (bytes : List ℕ) → Took self.entry.file.now self.entry.book.now self.entry.size body.old bytes → length bytes % 2 ≡ 0 → length block.now ≤ block_length
            → Took self.entry.file.now self.entry.book.now self.entry.size body.new (bytes ++ block.now) }
        ensures within_record { IfSome body.new.taken (λ after. IsSomeAnd body.old.taken (λ before. after ≡ before + length block.now) × (after ≤ self.entry.size)) }
    {
        body.taken = body
            .taken
            .and_then(|before| before.checked_add(block.len()))
            .filter(|after| *after <= self.size as usize);
        if body.taken.is_some() {
            body.both.feed(self, block);
        }
    }

    // What is printed where the input ends, or where bytes came after the record.
    pub fn text(self, body: &Body) -> Text
        ensures { (input bytes rest : List ℕ) → HasRead self.entry.file.now self.entry.book.now self.entry.size body.now input bytes rest → result ≡ printed input }
    {
        let start = self.file.len() + HEADER;
        let whole = self.size as usize;
        match body.taken {
            None => refused_text(Reason::BytesAfter.at(start + whole)),
            Some(taken) if taken < whole => refused_text(Reason::CutShort.at(start + taken)),
            Some(_) => body.both.lines(self),
        }
    }
}

// The line of a bad rule or record.
pub fn refused_text(r: Refusal) -> Text
    ensures says_line { result ≡ line_bytes rule_word (refused r.number r.place) }
    ensures says_printed { (input : List ℕ) → front_check (take front_length input) ≡ refusal_says r → result ≡ printed input }
{
    let mut text = Text::empty();
    text.word(b"rule");
    text.refusal(r);
    text
}
