// What is printed for lines (document 01, "The planner and the line program"), gathered in lent bytes.
ghost use Rattle.std.specs.Prelude.{◌≡◌, [], ◌∷◌, ◌+◌, ◌-◌, ◌*◌, ◌≤◌, length};
ghost use Rattle.geometry.specs.Values.{mark_value};
ghost use Rattle.table.specs.Marks.{list_marks};
ghost use Rattle.lines.specs.Text.{digits, fields};
ghost use Rattle.lines.specs.Responses.{answer_line, refusal_line, mark_line, mark_lines};

use geometry::Mark;
use itoa::write_digits;
use table::slots;

// Responses one behind the other. The bytes are lent, since nothing here takes memory; what finds no room in them is left out. The length counts that too, so
// that a text which was cut is told from a whole one.
#[derive(Drop)]
pub struct Responses<'a> {
    pub bytes: &'a mut [u8],
    pub len: usize,
}

impl<'a> Responses<'a> {
    ghost use Rattle.lines.specs.Writing.{text_in, Wrote};

    pub fn new(bytes: &'a mut [u8]) -> Responses<'a>
        ensures bytes { (result.bytes.ghost_name ≡ bytes.entry.ghost_name) × (result.bytes.now ≡ bytes.old) }
        ensures none { result.len ≡ 0 }
    {
        Responses { bytes, len: 0 }
    }

    pub fn text(&self) -> &[u8]
        ensures { result.now ≡ text_in self.now }
    {
        &self.bytes[..self.len.min(self.bytes.len())]
    }

    // How many bytes more find room.
    pub fn room(&self) -> usize
        ensures { result ≡ length self.now.bytes.now - self.now.len }
    {
        self.bytes.len().saturating_sub(self.len)
    }

    // Begins anew.
    pub fn clear(&mut self)
        ensures { (self.new.bytes ≡ self.old.bytes) × (self.new.len ≡ 0) }
    {
        self.len = 0;
    }

    pub fn push(&mut self, byte: u8)
        ensures { Wrote (byte ∷ []) self.old self.new }
    {
        if self.len < self.bytes.len() {
            self.bytes[self.len] = byte;
        }
        self.len = self.len.saturating_add(1);
    }

    fn put(&mut self, text: &[u8])
        ensures { Wrote text.now self.old self.new }
    {
        let at = self.len;
        let fits = text.len().min(self.room());
        self.len = at.saturating_add(text.len());
        if 0 < fits {
            self.bytes[at..at + fits].copy_from_slice(&text[..fits]);
        }
    }

    // In decimal: a word has at most ten digits.
    pub fn put_number(&mut self, n: u32)
        ensures { Wrote (digits n) self.old self.new }
    {
        let mut digits = [0; 10];
        let start = write_digits(u64::from(n), &mut digits, 10);
        self.put(&digits[start..]);
    }

    // Numbers, a comma before each.
    fn put_fields(&mut self, numbers: &[u32])
        ensures { Wrote (fields numbers.now) self.old self.new }
    {
        for n in numbers {
            self.push(b',');
            self.put_number(*n);
        }
    }

    // A letter and its figures, as `I,live,rebuilt`.
    pub fn put_figures(&mut self, letter: u8, figures: &[u32])
        ensures wrote { Wrote (answer_line letter figures.now) self.old self.new }
        ensures short { length (answer_line letter figures.now) ≤ 2 + 11 * length figures.now }
    {
        self.push(letter);
        self.put_fields(figures);
        self.push(b'\n');
    }

    // `R,number`.
    pub fn put_refusal(&mut self, number: u32)
        ensures wrote { Wrote (refusal_line number) self.old self.new }
        ensures short { length (refusal_line number) ≤ 13 }
    {
        self.put_figures(b'R', &[number]);
    }

    // `x,y,tag,grade`.
    fn put_mark(&mut self, m: Mark)
        ensures wrote { Wrote (mark_line (mark_value m)) self.old self.new }
        ensures short { length (mark_line (mark_value m)) ≤ 44 }
    {
        self.put_number(m.x);
        self.put_fields(&[m.y, m.tag, m.grade]);
        self.push(b'\n');
    }

    // A line for each of the first k marks of a list.
    pub fn put_marks(&mut self, list: &[u32], k: u32)
        ensures wrote { Wrote (mark_lines (list_marks list.now 0 k)) self.old self.new }
        ensures short { length (mark_lines (list_marks list.now 0 k)) ≤ 44 * k }
    {
        for i in 0..k {
            self.put_mark(slots::listed(list, i));
        }
    }
}
