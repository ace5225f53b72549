// Bytes read and written by the system's calls, which may be cut short or come back with nothing done.
ghost use Rattle.std.specs.Prelude.{IfOk, ◌≤◌, length};

use std::io::{Cursor, ErrorKind, Read, Write};
use std::time::{Clock, Duration};
use std::{io, thread};

// Whether the call that failed is to be made again: a signal came between, or the other end of a stream that does not wait is slow.
fn is_passing(clock: &impl Clock, error: &io::Error) -> bool {
    match error.kind() {
        ErrorKind::WouldBlock => {
            thread::sleep(clock, Duration::from_millis(1));
            true
        }
        ErrorKind::Interrupted => true,
        _ => false,
    }
}

// What comes next, once there is some: how many bytes, 0 at the end.
pub fn read_some(clock: &impl Clock, from: &mut impl Read, bytes: &mut [u8]) -> io::Result<usize>
    ensures { IfOk result (λ n. n ≤ length bytes.new) }
{
    for _ in 0..u64::MAX {
        match from.read(bytes) {
            Ok(got) => return Ok(got),
            Err(error) => {
                if !is_passing(clock, &error) {
                    return Err(error);
                }
            }
        }
    }
    Err(io::Error::from(ErrorKind::TimedOut))
}

// Every byte, in as many writes as it takes.
pub fn write_whole(clock: &impl Clock, to: &mut impl Write, bytes: &[u8]) -> io::Result<()> {
    let mut left = bytes;
    for _ in 0..u64::MAX {
        if left.is_empty() {
            return Ok(());
        }
        match to.write(left) {
            Ok(0) => return Err(io::Error::from(ErrorKind::WriteZero)),
            Ok(wrote) => left = &left[wrote..],
            Err(error) => {
                if !is_passing(clock, &error) {
                    return Err(error);
                }
            }
        }
    }
    Err(io::Error::from(ErrorKind::TimedOut))
}

// What a message is of std, without the number that it puts behind a system's reason.
fn reason(message: &str) -> &str {
    match message.split_once(" (os error ") {
        Some((reason, _)) => reason,
        None => message,
    }
}

// Says on standard error what failed and why, as far as that can be written there.
pub fn fail(rt: &HostRuntime, what: &[u8], error: &io::Error) {
    let mut said = Cursor::new([0u8; 256]);
    let _whole = write!(said, "{error}");
    let length = (said.position() as usize).min(256);
    let bytes = said.into_inner();
    let message = str::from_utf8(&bytes[..length]).unwrap_or("");
    let mut to = rt.stderr();
    let _told = write_whole(rt, &mut to, what);
    let _told = write_whole(rt, &mut to, b": ");
    let _told = write_whole(rt, &mut to, reason(message).as_bytes());
    let _told = write_whole(rt, &mut to, b"\n");
}
