// The program `sheet` (document 01, "The planner and the line program"): it moves bytes from standard input to a dialogue, and the dialogue's responses to
// standard output.
#![tactic(auto)]

ghost use Rattle.std.specs.Prelude.{◌≡◌, IfErr};
ghost use Rattle.dialogue.specs.Program.{Begun};
ghost use Rattle.dialogue.specs.Values.{held_by};
ghost use Rattle.sheet.specs.Values.{Answers};

use dialogue::Dialogue;
use lines::input::OpenLine;
use std::fmt;
use std::io::{self, Read};

// The marks that the table is opened for.
const MARKS: u32 = 40;

// Why the program ends before its input does: a read or a write failed.
#[derive(Clone, Copy)]
enum Stop {
    Unreadable,
    Unwritable,
}

impl fmt::Display for Stop {
    fn fmt<W: fmt::Write>(&self, f: &mut fmt::Formatter<W>) -> fmt::Result {
        match self {
            Stop::Unreadable => f.write_str("sheet: standard input cannot be read"),
            Stop::Unwritable => f.write_str("sheet: standard output cannot be written"),
        }
    }
}

// Writes the responses to what was fed last.
fn print(rt: &impl Print, dialogue: &Dialogue) -> Result<(), Stop>
    ensures { IfErr result (λ why. why ≡ Stop.Unwritable) }
{
    rt.write_all(dialogue.responses())
        .map_err(|_| Stop::Unwritable)
}

// Feeds a chunk and writes the responses, as many at once as there is room for. Where they cannot be written it stops.
fn answer(rt: &impl Print, dialogue: &mut Dialogue, chunk: &[u8]) -> Result<(), Stop>
    ensures { Answers (held_by dialogue.old) chunk.now (held_by dialogue.new) result }
{
    let mut at = 0;
    while at < chunk.len() {
        at += dialogue.feed_some(&chunk[at..]);
        print(rt, dialogue)?;
    }
    Ok(())
}

// Reads and answers the input to its end, a chunk at a time, as much as a pipe holds. A proved loop has to end, so it has a number of turns that no run
// uses up.
fn read_all(input: &mut impl Read, rt: &impl Print, dialogue: &mut Dialogue) -> Result<(), Stop> {
    let mut chunk = [0u8; 65536];
    for _ in 0..u64::MAX {
        let n = input.read(&mut chunk).map_err(|_| Stop::Unreadable)?;
        if n == 0 {
            return Ok(());
        }
        answer(rt, dialogue, &chunk[..n])?;
    }
    Ok(())
}

// Reads the whole input and prints the responses to its lines, the rest at its end among them.
fn run(rt: &(impl io::Input + Print), dialogue: &mut Dialogue) -> Result<(), Stop>
    requires { Begun (held_by dialogue.old) }
{
    let mut input = rt.reader();
    read_all(&mut input, rt, dialogue)?;
    dialogue.finish();
    print(rt, dialogue)
}

fn main(rt: HostRuntime) {
    let mut table = [0u32; 13184];
    let mut first = [0u32; 160];
    let mut second = [0u32; 160];
    let mut line = [0u8; 48];
    // Far more than the longest response, so that the responses to a chunk go out in few writes.
    let mut out = [0u8; 65536];
    // No refusal: the words are those of a table for so many marks.
    register::open::open(&mut table, MARKS).unwrap();
    let mut dialogue = Dialogue::new(
        &mut table,
        &mut first,
        &mut second,
        OpenLine::new(&mut line),
        &mut out,
    );
    if let Err(stop) = run(&rt, &mut dialogue) {
        // Where standard error takes nothing either there is no one left to tell.
        let _ = rt.eprintln(stop);
    }
}
