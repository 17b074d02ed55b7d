// A line as a command (document 01, "The planner and the line program").
ghost use Rattle.std.specs.Prelude.{◌≡◌};
ghost use Rattle.lines.specs.Commands.{Reads};
ghost use Rattle.lines.specs.Reading.{read_numbers♯, read♯};
ghost use Rattle.lines.specs.Values.{numbers_value, line_of};

use crate::number;
use geometry::{Box, Mark};

// A command with its numbers, which may be any words.
#[derive(Clone, Copy)]
pub enum Command {
    Insert(Mark),
    Strike { x: u32, y: u32, tag: u32 },
    Count(Box),
    List(Box),
}

// So many numbers, a comma before each, and nothing after them.
fn read_numbers<const N: usize>(line: &[u8]) -> Option<[u32; N]>
    ensures { numbers_value result ≡ read_numbers♯ N line.now }
{
    let mut numbers = [0; N];
    let mut left = line;
    for number in numbers.iter_mut() {
        let (read, after) = number::read_field(left)?;
        *number = read;
        left = after;
    }
    if left.is_empty() { Some(numbers) } else { None }
}

// The command of a line.
fn parse(line: &[u8]) -> Option<Command>
    ensures { line_of result ≡ read♯ line.now }
{
    match line {
        [b'I', rest @ ..] => {
            let [x, y, tag, grade] = read_numbers::<4>(rest)?;
            Some(Command::Insert(Mark { x, y, tag, grade }))
        }
        [b'D', rest @ ..] => {
            let [x, y, tag] = read_numbers::<3>(rest)?;
            Some(Command::Strike { x, y, tag })
        }
        [b'C', rest @ ..] => {
            let [x1, x2, y1, y2] = read_numbers::<4>(rest)?;
            Some(Command::Count(Box { x1, x2, y1, y2 }))
        }
        [b'L', rest @ ..] => {
            let [x1, x2, y1, y2] = read_numbers::<4>(rest)?;
            Some(Command::List(Box { x1, x2, y1, y2 }))
        }
        _ => None,
    }
}

// The command of which a line is the written form, without its line feed; none where it has none of the four forms, document 01's refusal 11.
pub fn read(line: &[u8]) -> Option<Command>
    ensures { Reads line.now (line_of result) }
{
    parse(line)
}
