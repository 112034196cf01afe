// Commands from bytes, also cut and unknown ones, and a line of each kind. Assumes nothing.
use crate::bytes::{MOST_BYTES, read_command, read_commands};
use crate::lines::write_line;
use console::{Command, Reply};
use engine::{Cause, Fault, Refusal};

// A rule with the lowest and the highest numbers.
const WIDE: [u8; 18] = [
    0x02, 0xFF, 0x80, 0x00, 0x7F, 0xFF, 0xFF, 0xFF, 0x00, 0x01, 0x01, 0x00, 0x00, 0x00, 0x80, 0x00,
    0x00, 0x00,
];

// The example of docs/PROTOCOL.md.
const EXAMPLE: [u8; 77] = [
    0x01, 0x02, 0x02, 0x00, 0x00, 0x01, 0x00, 0x01, 0x00, 0x00, 0x00, 0x00, 0x00, 0x00, 0x00, 0x00,
    0x00, 0x00, 0x00, 0x96, 0x02, 0x01, 0xFF, 0xFF, 0x00, 0x01, 0x00, 0x00, 0x00, 0x00, 0x00, 0x00,
    0x00, 0x00, 0x00, 0x00, 0x00, 0x00, 0x02, 0x00, 0x00, 0x00, 0xFF, 0xFF, 0x00, 0x00, 0x00, 0x00,
    0x00, 0x00, 0x00, 0x00, 0xFF, 0xFF, 0xFF, 0xD8, 0x06, 0x02, 0x00, 0x00, 0x01, 0x00, 0x00, 0x00,
    0x00, 0x00, 0x00, 0x00, 0x00, 0x00, 0x00, 0x00, 0x00, 0x00, 0x28, 0x06, 0x07,
];

// Whether the bytes are this command and no more.
fn reads(bytes: &[u8], expected: Command) -> bool {
    read_command(bytes).is_ok_and(|(command, rest)| command == expected && rest.is_empty())
}

// Whether the bytes are refused with this number.
fn refuses(bytes: &[u8], number: u8) -> bool {
    read_command(bytes).is_err_and(|refusal| refusal.number() == number)
}

// Whether so many commands are read, and reading stops with this number, or with 0 at the end.
fn stops(bytes: &[u8], commands: &mut [Command], count: usize, number: u8) -> bool {
    let reading = read_commands(bytes, commands);
    let stopped = reading.stopped.map_or(0, |refusal| refusal.number());
    reading.count == count && stopped == number
}

// Whether the line of the reply is this text.
fn writes(reply: Reply, text: &[u8]) -> bool {
    write_line(&reply).as_bytes() == text
}

#[test]
fn reads_each_command(rt: HostRuntime) {
    let wide = Command::Add {
        kind: 255,
        coefficients: [-32768, 32767, -1, 1, 256, 0],
        side: -2147483648,
    };
    assert!(rt; reads(&WIDE, wide));
    assert!(rt; reads(b"\x01\x06", Command::Open(6)));
    assert!(rt; reads(b"\x03", Command::Lift));
    assert!(rt; reads(b"\x04\x00", Command::Mute(0)));
    assert!(rt; reads(b"\x05\xFF", Command::Sound(255)));
    assert!(rt; reads(b"\x06", Command::Ask));
    assert!(rt; reads(b"\x07", Command::Blame));
}

#[test]
fn refuses_cut_and_unknown_commands(rt: HostRuntime) {
    for n in 0..WIDE.len() {
        assert!(rt; refuses(&WIDE[0..n], 14));
    }
    assert!(rt; refuses(b"\x01", 14));
    assert!(rt; refuses(b"\x04", 14));
    assert!(rt; refuses(b"\x05", 14));
    assert!(rt; refuses(b"\x00\x06", 13));
    assert!(rt; refuses(b"\x08", 13));
}

#[test]
fn refuses_too_many_bytes(rt: HostRuntime) {
    let bytes = [0x07; MOST_BYTES + 1];
    let mut commands = [Command::Ask; MOST_BYTES];
    assert!(rt; stops(&bytes, &mut commands, 0, 15));
    assert!(rt; stops(&bytes[1..], &mut commands, MOST_BYTES, 0));
}

#[test]
fn reads_many_commands(rt: HostRuntime) {
    let mut commands = [Command::Ask; 2];
    assert!(rt; stops(b"\x03\x03\x03", &mut commands, 2, 15));
    assert!(rt; stops(b"\x03\x08\x07", &mut commands, 1, 13));
    assert!(rt; stops(b"\x01\x02\x04", &mut commands, 1, 14));
    assert!(rt; stops(b"\x01\x02\x04\x01", &mut commands, 2, 0));
    assert!(rt; commands[0] == Command::Open(2) && commands[1] == Command::Mute(1));
}

#[test]
fn reads_the_example(rt: HostRuntime) {
    let mut commands = [Command::Ask; 8];
    assert!(rt; stops(&EXAMPLE, &mut commands, 8, 0));
    let below = Command::Add {
        kind: 1,
        coefficients: [-1, 1, 0, 0, 0, 0],
        side: 0,
    };
    let least = Command::Add {
        kind: 0,
        coefficients: [0, -1, 0, 0, 0, 0],
        side: -40,
    };
    assert!(rt; commands[2] == below && commands[3] == least && commands[7] == Command::Blame);
}

#[test]
fn writes_presets(rt: HostRuntime) {
    let two = Reply::Preset {
        faders: 2,
        numerators: [150, 115, 7, 0, 0, 0],
        denominator: 2,
    };
    let wide = Reply::Preset {
        faders: 255,
        numerators: [-2147483648, 2147483647, -1, 0, 10, -10],
        denominator: 4294967295,
    };
    assert!(rt; writes(two, b"PRESET 150 115 / 2\n"));
    assert!(rt;
        writes(
            wide,
            b"PRESET -2147483648 2147483647 -1 0 10 -10 / 4294967295\n",
        )
    );
}

#[test]
fn writes_clashes(rt: HostRuntime) {
    let text =
        b"CLASH -2147483648 -2147483648 -2147483648 -2147483648 -2147483648 -2147483648 -2147483648 -2147483648 -2147483648 -2147483648 -2147483648 -2147483648 -2147483648 -2147483648 -2147483648 -2147483648\n";
    let longest = Reply::Clash {
        rules: 16,
        weights: [-2147483648; 16],
    };
    let four = Reply::Clash {
        rules: 4,
        weights: [0, 1, 1, 1, 0, 0, 0, 0, 0, 0, 0, 0, 0, 0, 0, 0],
    };
    assert!(rt; writes(longest, text));
    assert!(rt; writes(four, b"CLASH 0 1 1 1\n"));
}

#[test]
fn writes_other_replies(rt: HostRuntime) {
    let marks = [0, 1, 1, 1, 0, 0, 0, 0, 0, 0, 0, 0, 0, 0, 0, 255];
    let fault = Fault {
        layer: 1,
        cause: Cause::TableFull,
        index: 255,
    };
    assert!(rt; writes(Reply::Done, b"OK\n"));
    assert!(rt; writes(Reply::Blamed(marks), b"BLAME 1 2 3 15\n"));
    assert!(rt; writes(Reply::Refused(Refusal::BadCoefficient(0)), b"NO 5 0\n"));
    assert!(rt; writes(Reply::Refused(Refusal::TooLarge(fault)), b"NO 11 1 2 255\n"));
    assert!(rt; writes(Reply::Refused(Refusal::TooLong), b"NO 15\n"));
}
