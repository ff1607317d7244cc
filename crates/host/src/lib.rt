//! One call for a host in C or Rust: the bytes of a trial file in, the lines that are printed for it out.
#![tactic(auto)]

ghost use Rattle.std.specs.Prelude.{◌≡◌, ◌≤◌, length};
ghost use Rattle.host.specs.Hosted.{written_over, hosted, HostsUnlessMemory, WritesTruth};

use filedecode::decode_file;
use std::alloc::Global;

/// How many bytes the buffer has to have.
const LEAST_ROOM: usize = 65536;

/// Writes the lines of a trial file over the first bytes of a buffer of at least 65,536 bytes, and answers their length.
/// Where the buffer is shorter, or memory is wanting, it answers 0 and writes nothing.
// Kept: a length and not a `Result`, which C has not.
#[unsafe(no_mangle)]
pub extern "C" fn pearprompt_decode(heap: Global, file: &[u8], out: &mut [u8]) -> usize
    ensures lines { HostsUnlessMemory result out.old out.new (hosted file.now out.old) }
    ensures truth { WritesTruth file.now result }
{
    if out.len() < LEAST_ROOM {
        return 0;
    }
    let Ok(lines) = decode_file(heap, file) else {
        return 0;
    };
    write_over(lines.as_bytes(), out)
}

/// Writes a text over the first bytes of a buffer, and answers its length.
fn write_over(text: &[u8], out: &mut [u8]) -> usize
    requires fits { length text.now ≤ length out.old }
    ensures count { result ≡ length text.now }
    ensures bytes { out.new ≡ written_over text.now out.old }
{
    let len = text.len();
    out[0..len].copy_from_slice(text);
    len
}
