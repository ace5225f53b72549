// A trial from its first byte to its listing.
use crate::streams::{fail, read_some, write_whole};
use std::io;
use std::io::{ErrorKind, Read, Write};
use std::time::Clock;
use trial_lines::CHUNK;
use trial_notes::Noting;
use trial_session::Session;

fn write_front(
    clock: &impl Clock,
    to: &mut impl Write,
    bytes: &[u8],
    length: usize,
) -> io::Result<()> {
    if length <= bytes.len() {
        return write_whole(clock, to, &bytes[..length]);
    }
    Err(io::Error::from(ErrorKind::InvalidInput))
}

// Writes what is printed; where that fails says so.
fn say(rt: &HostRuntime, out: &[u8; trial_session::ROOM], length: usize) -> bool {
    match write_front(rt, &mut rt.stdout(), out, length) {
        Ok(()) => true,
        Err(error) => {
            fail(rt, b"standard output", &error);
            false
        }
    }
}

// Writes notes. One that cannot be written is left out: its `?` is printed all the same, and there is nowhere to say more.
fn tell(rt: &HostRuntime, notes: &[u8; trial_notes::ROOM], length: usize) {
    let _written = write_front(rt, &mut rt.stderr(), notes, length);
}

// What is read is fed to a session. What it prints goes to standard output and the notes to standard error, for each read before the next.
// Where a read or a write fails the trial is left there, without its listing. Nothing says that the input ends, so the turns are counted
// up to a number that no run reaches.
pub fn run(rt: &HostRuntime, from: &mut impl Read, name: &[u8]) {
    let mut chunk = [0u8; CHUNK];
    let mut out = [0u8; trial_session::ROOM];
    let mut notes = [0u8; trial_notes::ROOM];
    let mut session = Session::start();
    let mut noting = Noting::start();
    for _ in 0..u64::MAX {
        let got = match read_some(rt, from, &mut chunk) {
            Ok(got) => got,
            Err(error) => {
                fail(rt, name, &error);
                return;
            }
        };
        if got == 0 {
            break;
        }
        let came = &chunk[..got];
        let length = session.feed(came, &mut out);
        if !say(rt, &out, length) {
            return;
        }
        let noted = noting.note(came, &mut notes);
        tell(rt, &notes, noted);
    }
    let last = noting.note_last(&mut notes);
    let length = session.close(&mut out);
    tell(rt, &notes, last);
    say(rt, &out, length);
}
