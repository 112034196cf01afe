// Reads commands from bytes. Assumes nothing.
ghost use Rattle.std.specs.Prelude.{◌≡◌, Ok, Err, MatchResult};
ghost use Rattle.protocol.specs.Bytes.{two_bytes, four_bytes, first, Reads};
ghost use Rattle.protocol.specs.Writes.{ReadsBack};

use console::Command;
use engine::Refusal;

// The most bytes that are read.
pub const MOST_BYTES: usize = 4096;

// How many commands were read, and why reading stopped before the end of the bytes, if it did.
// kept: commands go into places that the caller lends, since there is no heap; those before the stop count, so that it is no error of the call
#[derive(Clone, Copy)]
pub struct Reading {
    pub count: usize,
    pub stopped: Option<Refusal>,
}

fn int16(a: u8, b: u8) -> i16
    ensures { result ≡ two_bytes a b }
{
    i16::from_be_bytes([a, b])
}

fn int32(a: u8, b: u8, c: u8, d: u8) -> i32
    ensures { result ≡ four_bytes a b c d }
{
    i32::from_be_bytes([a, b, c, d])
}

// The first command, and the bytes after it.
pub fn read_command(bytes: &[u8]) -> Result<(Command, &[u8]), Refusal>
    ensures { MatchResult result (λ p. first bytes.now ≡ Ok (p.0, p.1.now)) (λ e. first bytes.now ≡ Err e) }
{
    match bytes {
        [0x01, count, rest @ ..] => Ok((Command::Open(*count), rest)),
        [
            0x02,
            kind,
            a1,
            a0,
            b1,
            b0,
            c1,
            c0,
            d1,
            d0,
            e1,
            e0,
            f1,
            f0,
            s3,
            s2,
            s1,
            s0,
            rest @ ..,
        ] => {
            let add = Command::Add {
                kind: *kind,
                coefficients: [
                    int16(*a1, *a0),
                    int16(*b1, *b0),
                    int16(*c1, *c0),
                    int16(*d1, *d0),
                    int16(*e1, *e0),
                    int16(*f1, *f0),
                ],
                side: int32(*s3, *s2, *s1, *s0),
            };
            Ok((add, rest))
        }
        [0x03, rest @ ..] => Ok((Command::Lift, rest)),
        [0x04, number, rest @ ..] => Ok((Command::Mute(*number), rest)),
        [0x05, number, rest @ ..] => Ok((Command::Sound(*number), rest)),
        [0x06, rest @ ..] => Ok((Command::Ask, rest)),
        [0x07, rest @ ..] => Ok((Command::Blame, rest)),
        [] | [0x01 | 0x02 | 0x04 | 0x05, ..] => Err(Refusal::CutShort),
        [_, ..] => Err(Refusal::UnknownCommand),
    }
}

// Puts the commands of the bytes into the lent places, from the first place on. More than MOST_BYTES bytes are too long, and
// nothing of them is read. Where the places are fewer than the commands, as many as fit are read, and then the bytes are too long.
pub fn read_commands(bytes: &[u8], commands: &mut [Command]) -> Reading
    ensures { Reads bytes.now commands.old commands.new result.count result.stopped }
{
    if bytes.len() > MOST_BYTES {
        return Reading {
            count: 0,
            stopped: Some(Refusal::TooLong),
        };
    }
    let mut count = 0;
    let mut rest = bytes;
    while !rest.is_empty() {
        if count >= commands.len() {
            return Reading {
                count,
                stopped: Some(Refusal::TooLong),
            };
        }
        // kept: the commands before a refusal count, so that no `?` ends here
        match read_command(rest) {
            Ok((command, after)) => {
                commands[count] = command;
                count += 1;
                rest = after;
            }
            Err(refusal) => {
                return Reading {
                    count,
                    stopped: Some(refusal),
                };
            }
        }
    }
    Reading {
        count,
        stopped: None,
    }
}

// The bytes of commands whose numbers are in range are read as these commands.
pub fn reads_back()
    ensures { ReadsBack }
{}
