// Reads the front of a file, or of any reader, into a lent buffer. A read that fails ends it as the input's end does: what was read before
// stands at the buffer's front.
#![tactic(auto)]

ghost use Rattle.std.specs.Prelude.{take};
ghost use Rattle.std.specs.Io.KnownBytes.{Consumes};
ghost use Rattle.io.specs.Counts.{IsPrefixLen};

use std::fs;
use std::io::Read;
use std::rt::Files;

// Reads until buf is full, the input ends or a read fails, and answers how many bytes it put at the front of buf: those, and no more, are
// taken from what the reader had left.
pub fn read_full<R: Read>(from: &mut R, buf: &mut [u8]) -> usize
    ensures prefix_len { IsPrefixLen result buf.new }
    ensures bytes { Consumes (R.remaining from.old) (R.remaining from.new) (take result buf.new) }
{
    let mut done = 0;
    // A read may take any number of bytes, so no range counts the turns.
    while done < buf.len() {
        match from.read(&mut buf[done..]) {
            Ok(0) | Err(_) => return done,
            Ok(n) => done += n,
        }
    }
    done
}

// The bytes of a file at the front of buf, and how many there are: none where there is no such file.
pub fn read_file(files: &impl Files, name: &str, buf: &mut [u8]) -> usize
    ensures { IsPrefixLen result buf.new }
{
    let Ok(mut file) = fs::open(files, name) else {
        return 0;
    };
    read_full(&mut file, buf)
}
