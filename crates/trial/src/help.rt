// What `--help` prints.
use crate::streams::{fail, write_whole};

// Prints how the trial is called, what its lines are and what each prints.
pub fn help(rt: &HostRuntime) {
    let written = write_whole(
        rt,
        &mut rt.stdout(),
        b"trial          reads lines of calls from standard input
trial FILE     reads them from a file
trial --help   prints this

A line is a letter and its fields, each after one space. It prints:

  N n m         nothing; the tables are fresh, of n block and m head slots
  A sequence hash previous arrival
                A and the slot of the new block
  P slot        P and the slot, whose block is promoted
  D slot        D and how many blocks are freed: this one and all that follow it
  U slot        U, how many blocks hang under the slot, its own among them, and
                the highest sequence among them
  V             V, tip, its sequence, state and anchor for each head in use, the
                highest sequence first and of equal ones the lowest hash
  T now retry   T, the head to ask for, the claimed sequence and the missing
                hash; T - where no head is due
  R now         R; heads and counts are made anew from the blocks

A hash is two hexadecimal digits in lower case, that byte 32 times. The other
numbers are decimal: arrival, now and retry of 64 bits, the rest of 32. A line
has at most 128 bytes before its end, which the last may lack.

A refused call prints E and a number, and changes nothing:

  E 1   the tables are not of 1 to 1,024 block slots and 2 to 64 head slots,
        or no N was accepted yet
  E 2   a hash is not 32 bytes long, which no line can ask for
  E 3   the slot is out of range or empty
  E 4   the sequence 4,294,967,295 is reserved
  E 5   the block's hash is all zeros
  E 6   a block with this sequence and hash is already there
  E 7   no block slot is empty
  E 8   the block's parent is not the active head
  E 9   the slot's subtree has a block on the active chain
  E 10  a list is too short for the heads, which no line can ask for

A line that cannot be read prints ? and changes nothing; standard error has its
number and the reason. At the end the tables are listed, with - for none:

  B slot sequence parent count active   a block; active is 1 or 0
  H slot tip state anchor               a head; C is connected, S is stored

A read or a write that fails is told on standard error and ends the run, without
the listing. The exit status is 0 all the same, so a script looks at standard
error.
",
    );
    if let Err(error) = written {
        fail(rt, b"standard output", &error);
    }
}
