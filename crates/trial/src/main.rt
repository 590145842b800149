// The trial: a night on sixteen pages, which walks the rows of document 01 in their order by the script that it reads, the file stdin beside src. Each
// step has what is asked, what the paper says comes of it, and what came of it; the last line counts the steps that came out as the paper says. It promises
// nothing of its own but the marks of its map; what it writes is held to the file stdout beside src. Nothing is assumed: what the streams give and
// take is outside the proofs.
#![tactic(auto)]

mod found;
mod guest;
mod night;
mod row;
mod show;

ghost use Rattle.std.specs.Prelude.{◌≤◌, IfOk, length};

use night::Night;
use row::Row;
use std::io::{self, Print, Read, Stdin};

// A script that is longer is cut.
const SCRIPT_SIZE: usize = 65536;

// Reads until the script is full or the input ends, and gives how many bytes came.
fn read_script(mut input: Stdin, script: &mut [u8; SCRIPT_SIZE]) -> io::Result<usize>
    ensures { IfOk result (λ held. held ≤ length script.new) }
{
    let mut held = 0;
    for _ in 0..SCRIPT_SIZE {
        let came = input.read(&mut script[held..])?;
        if came == 0 {
            break;
        }
        held += came;
    }
    Ok(held)
}

fn main(rt: HostRuntime) -> io::Result<()> {
    rt.print(show::LEGEND)?;
    let mut script = [0; SCRIPT_SIZE];
    let held = read_script(rt.stdin(), &mut script)?;
    let mut night = Night::new(rt.stdout());
    // A line of the script has its '\n' with it.
    for text in script[..held].split_inclusive(|b| *b == b'\n') {
        night.follow(Row::from(text))?;
    }
    night.total()
}
