// Reads bytes until there is no more room, or no more bytes.
#![tactic(auto)]

ghost use Rattle.std.specs.Prelude.{◌≤◌, ◌<◌, length, take, IfOk};
ghost use Rattle.std.specs.Io.KnownBytes.{Consumes, IsAtEnd};

use std::io::{self, Read};

// Reads until `out` is full or the input ends: how many bytes came, which stand at the start of `out`. Which bytes an input has is its
// own to say: `remaining`. Where a read fails, what came before it is lost, and nothing is said of it. std's `read_exact` fails where the
// input ends first.
pub fn read_full<R: Read>(input: &mut R, out: &mut [u8]) -> io::Result<usize>
    ensures within { IfOk result (λ n. n ≤ length out.new) }
    ensures bytes { IfOk result (λ n. Consumes (R.remaining input.old) (R.remaining input.new) (take n out.new)) }
    ensures end { IfOk result (λ n. n < length out.new → IsAtEnd (R.remaining input.new)) }
{
    let mut len = 0;
    while len < out.len() {
        let more = input.read(&mut out[len..])?;
        if more == 0 {
            break;
        }
        len += more;
    }
    Ok(len)
}
