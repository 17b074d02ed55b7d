// A dialogue byte by byte: the open line is gathered, and performed when a line feed or the end of the input ends it. The responses are gathered one behind
// the other, as long as there is room for one more.
ghost use Rattle.std.specs.Prelude.{◌≡◌, ◌<◌, ◌^◌, List, ℕ};
ghost use Rattle.dialogue.specs.Responding.{Room};

use lines::command::Command;
use lines::input::OpenLine;
use lines::response::Responses;
use register::refusal::Refusal;
use sorting::filled::Filled;

// What document 01 answers to a line that is no command.
const NOT_A_LINE: u32 = 11;

// What a dialogue holds: the table, the two lists that a list is lent, the line that stands open, and the responses that are to be printed.
#[derive(Drop)]
pub struct Dialogue<'a> {
    table: &'a mut [u32],
    first: &'a mut [u32],
    second: &'a mut [u32],
    line: OpenLine<'a>,
    responses: Responses<'a>,
    ghost room: { Room first.now responses.bytes.now },
    ghost counted: { responses.len < 2 ^ 64 },
}

impl<'a> Dialogue<'a> {
    ghost use Rattle.register.specs.Performs.{lends};
    ghost use Rattle.lines.specs.Values.{command_value, line_of};
    ghost use Rattle.lines.specs.Writing.{text_in, Wrote};
    ghost use Rattle.dialogue.specs.Responding.{Answered, Does};
    ghost use Rattle.dialogue.specs.Dialogue.{dialogue, RespondsOpen, Fed, Ended, Batched};
    ghost use Rattle.dialogue.specs.Values.{lent_of, held_by, Keeps, Gathers};

    // On words that hold a table, from a line that stands open. The bytes have room for one response, so that every batch takes a byte (`Batched.some`).
    pub fn new(
        table: &'a mut [u32],
        first: &'a mut [u32],
        second: &'a mut [u32],
        line: OpenLine<'a>,
        out: &'a mut [u8],
    ) -> Dialogue<'a>
        requires { Room first.old out.old }
        ensures holds { held_by result ≡ dialogue (lends table.old first.old second.old) line.entry.bytes.now line.entry.len }
        ensures table { result.table.ghost_name ≡ table.entry.ghost_name }
        ensures first { result.first.ghost_name ≡ first.entry.ghost_name }
        ensures second { result.second.ghost_name ≡ second.entry.ghost_name }
        ensures line { result.line.bytes.ghost_name ≡ line.entry.bytes.ghost_name }
        ensures out { result.responses.bytes.ghost_name ≡ out.entry.ghost_name }
        ensures none { result.responses.len ≡ 0 }
    {
        Dialogue {
            table,
            first,
            second,
            line,
            responses: Responses::new(out),
        }
    }

    // The responses to what was fed last.
    pub fn responses(&self) -> &[u8]
        ensures { result.now ≡ text_in self.now.responses }
    {
        self.responses.text()
    }

    // Makes the call of a command, and gathers the response of an accepted one.
    fn call(&mut self, command: Command) -> Result<(), Refusal>
        ensures keeps { Keeps self.old self.new }
        ensures answered { (text : List ℕ) × Wrote text self.old.responses self.new.responses
            × Answered (command_value command) (lent_of self.old) (lent_of self.new) text result }
        ensures line { self.new.line ≡ self.old.line }
    {
        let table = &mut *self.table;
        match command {
            Command::Insert(m) => {
                let done = register::insert::insert(table, m.x, m.y, m.tag, m.grade)?;
                self.responses.put_figures(b'I', &[done.live, done.rebuilt]);
            }
            Command::Strike { x, y, tag } => {
                let done = register::strike::strike(table, x, y, tag)?;
                self.responses.put_figures(b'D', &[done.live, done.rebuilt]);
            }
            Command::Count(b) => {
                let counted = register::count::count(table, b.x1, b.x2, b.y1, b.y2)?;
                self.responses.put_figures(
                    b'C',
                    &[counted.marks, counted.visits, counted.sum, counted.worst],
                );
            }
            Command::List(b) => {
                let first = &mut *self.first;
                let second = &mut *self.second;
                let listed = register::list::list(table, b.x1, b.x2, b.y1, b.y2, first, second)?;
                self.responses
                    .put_figures(b'L', &[listed.marks, listed.visits]);
                match listed.which {
                    Filled::First => self.responses.put_marks(first, listed.marks),
                    Filled::Second => self.responses.put_marks(second, listed.marks),
                }
            }
        }
        Ok(())
    }

    // Performs the command of a line, or turns the line away; the response stands behind those gathered, whole where there is room for it.
    pub fn perform(&mut self, command: Option<Command>)
        ensures keeps { Keeps self.old self.new }
        ensures does { Gathers self.old self.new (λ text. Does (lent_of self.old) (lent_of self.new) text (line_of command)) }
        ensures line { self.new.line ≡ self.old.line }
    {
        match command {
            Some(command) => {
                if let Err(refusal) = self.call(command) {
                    self.responses.put_refusal(refusal.number());
                }
            }
            None => self.responses.put_refusal(NOT_A_LINE),
        }
    }

    // Performs the open line.
    fn respond(&mut self)
        ensures keeps { Keeps self.old self.new }
        ensures responds { Gathers self.old self.new (λ text. RespondsOpen (held_by self.old) (lent_of self.new) text) }
        ensures line { self.new.line ≡ self.old.line }
    {
        let command = self.line.command();
        self.perform(command);
    }

    // One byte of the input.
    fn feed(&mut self, byte: u8)
        ensures keeps { Keeps self.old self.new }
        ensures fed { Gathers self.old self.new (λ text. Fed byte (held_by self.old) (held_by self.new) text) }
    {
        if byte == b'\n' {
            self.respond();
            self.line.clear();
        } else {
            self.line.push(byte);
        }
    }

    // Feeds bytes up to the chunk's end, or until the room left is less than the longest response may need; gives how many.
    pub fn feed_some(&mut self, chunk: &[u8]) -> usize
        ensures keeps { Keeps self.old self.new }
        ensures fed { Batched (held_by self.old) chunk.now result (held_by self.new)
            self.new.responses.bytes.now self.new.responses.len }
    {
        // A first line, and 44 bytes for each mark of four words.
        let longest = 46 + 11 * self.first.len();
        self.responses.clear();
        for (used, byte) in chunk.iter().enumerate() {
            if self.responses.room() < longest {
                return used;
            }
            self.feed(*byte);
        }
        chunk.len()
    }

    // The end of the input: a rest that is not empty is a line.
    pub fn finish(&mut self)
        ensures keeps { Keeps self.old self.new }
        ensures ended { Ended (held_by self.old) (lent_of self.new) (text_in self.new.responses) }
        ensures line { self.new.line ≡ self.old.line }
    {
        self.responses.clear();
        if !self.line.is_empty() {
            self.respond();
        }
    }
}
