// The papers' vectors. Each statement of standard input puts one question to the library; what is answered is held to the
// file stdout. The head of the file stdin says how a statement is written.
#![tactic(auto)]

ghost use Rattle.std.specs.Prelude.{◌≤◌, length, IfOk};

mod files;
mod maps;
mod pictures;
mod questions;
mod records;
mod texts;

use questions::Question;
use std::io;
use std::io::Read;
use vector_script::{Loan, MEMORY, ROOM, Script, Store, print};

fn main(rt: HostRuntime) -> io::Result<()> {
    let mut text = [0; ROOM];
    let length = read_full(&mut rt.reader(), &mut text)?;
    let mut memory = [0; MEMORY];
    answer_all(&rt, &text[..length], &mut memory)?;
    if length == ROOM {
        print::ill_formed(&rt)?;
    }
    Ok(())
}

// Reads until the room is full or the input ends, and says how much was read.
fn read_full(input: &mut impl Read, room: &mut [u8]) -> io::Result<usize>
    ensures { IfOk result (λ n. n ≤ length room.new) }
{
    let mut n = 0;
    while n < room.len() {
        let more = input.read(&mut room[n..])?;
        if more == 0 {
            break;
        }
        n += more;
    }
    Ok(n)
}

fn answer_all(rt: &impl Print, text: &[u8], memory: &mut [u8; MEMORY]) -> io::Result<()> {
    let (head, script) = Script::split(text);
    let mut store = Store::new(memory);
    store.lend_printing(rt, head)?;
    let mut base = head;
    for statement in script {
        rt.write_all(statement.heading)?;
        let question = Question::try_from(statement.question);
        if question == Ok(Question::Base) {
            base = statement.lines;
        }
        store.lend_both_printing(rt, base, statement.lines)?;
        questions::put(question, &Loan::new(rt, &store))?;
        rt.write_all(b"\n")?;
    }
    Ok(())
}
