// Reads a sheet from standard input, at most one byte more than the longest one has, and prints its report, or why it is refused.
#![tactic(auto)]

ghost use Rattle.std.specs.Prelude.{◌≡◌, ◌+◌, ◌≤◌, ◌<◌, length, take, IfOk};
ghost use Rattle.std.specs.Io.KnownBytes.{Consumes, IsAtEnd};
ghost use Rattle.model.specs.Limits.{max_bytes};

use judge::Sheet;
use std::io;
use std::io::{Read, Write};

// Room for one byte more than the longest sheet has, so that a longer input is refused.
fn room() -> [u8; Sheet::MAX_BYTES + 1]
    ensures { length result ≡ max_bytes + 1 }
{
    [0u8; Sheet::MAX_BYTES + 1]
}

// Reads until the room is full or the input ends: how many bytes it has put there, which are those that came.
fn read_full<R: Read>(from: &mut R, room: &mut [u8]) -> io::Result<usize>
    ensures within { IfOk result (λ n. n ≤ length room.new) }
    ensures bytes { IfOk result (λ n. Consumes (R.remaining from.old) (R.remaining from.new) (take n room.new)) }
    ensures full_or_end { IfOk result (λ n. n < length room.new → IsAtEnd (R.remaining from.new)) }
{
    let mut n = 0;
    while n < room.len() {
        let more = from.read(&mut room[n..])?;
        if more == 0 {
            break;
        }
        n += more;
    }
    Ok(n)
}

fn main(rt: HostRuntime) -> io::Result<()> {
    let mut bytes = room();
    let mut work = [0u32; Sheet::WORK_NUMBERS];
    let mut tape = [0u8; printing::TAPE_BYTES];
    let mut out = [0u8; report::OUT_BYTES];
    let n = read_full(&mut rt.reader(), &mut bytes)?;
    let lines = printing::put_lines(&bytes[..n], &mut work, &mut tape, &mut out);
    if let Ok(count) = lines {
        io::writer(&rt).write_all(&out[..count])?;
    }
    Ok(())
}
