// The preset box as a program: the bytes of commands on standard input, a line for each reply on standard output.
#![tactic(auto)]

ghost use Rattle.std.specs.Prelude.{◌≤◌, length, IfOk};

use console::{Command, Reply};
use preset_box::play;
use protocol::{MOST_BYTES, read_commands, write_line};
use std::io;
use std::io::{Read, Write};

// Reads until the input ends or the buffer is full, and says how many bytes there are.
// kept: at most so many bytes are read, into fixed memory
fn fill(rt: &HostRuntime, buffer: &mut [u8]) -> io::Result<usize>
    ensures { IfOk result (λ n. n ≤ length buffer.old) }
{
    let mut filled = 0;
    // kept: a read may give any part of what is left, so that no slice or iterator counts the turns; this many suffice
    for _ in 0..buffer.len() {
        let room = buffer.len() - filled;
        let got = rt.stdin().read(&mut buffer[filled..])?;
        if got == 0 {
            break;
        }
        filled += got.min(room);
    }
    Ok(filled)
}

fn main(rt: HostRuntime) -> anyhow::Result<()> {
    // one byte more than the box reads, so that more is noticed
    let mut buffer = [0u8; MOST_BYTES + 1];
    let filled = fill(&rt, &mut buffer)?;
    let mut commands = [Command::Ask; MOST_BYTES];
    let reading = read_commands(&buffer[..filled], &mut commands);
    let mut replies = [Reply::Done; MOST_BYTES];
    let played = play(&commands[..reading.count], &mut replies);
    for reply in &replies[..played] {
        rt.stdout().write_all(write_line(reply).as_bytes())?;
    }
    if let Some(refusal) = reading.stopped {
        rt.stdout()
            .write_all(write_line(&Reply::Refused(refusal)).as_bytes())?;
    }
    Ok(())
}
