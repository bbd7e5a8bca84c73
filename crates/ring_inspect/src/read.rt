// A ring's bytes from a source.
ghost use Rattle.std.specs.Prelude.{◌≡◌, ◌≢◌, ◌<◌, ◌^◌, IfOk, IfErr, length};
ghost use Rattle.ring_inspect.specs.Stop.{GivesRing, IsNoRing};

use crate::stop::InspectStop;
use blk_io::{Failed, Source};
use std::alloc::Global;

/// How many bytes are asked for at once.
const CHUNK: usize = 4096;

/// Reads a source to its end, or until it has given more than `size` bytes.
pub fn read_ring<S: Source>(
    alloc: Global,
    source: &mut S,
    size: usize,
) -> Result<Vec<u8>, InspectStop>
    requires { size < 2 ^ 32 }
    ensures ring { IfOk result (λ bytes. GivesRing size bytes.items (S.seen source.old) (S.seen source.new)) }
    ensures stopped { IfErr result (IsNoRing size (S.seen source.old) (S.seen source.new)) }
{
    let mut bytes = Vec::with_capacity(alloc, size + CHUNK)?;
    let mut chunk = [0; CHUNK];
    while bytes.len() <= size {
        let Ok(count) = source.read(&mut chunk) else {
            return Err(InspectStop::Source);
        };
        if count == 0 {
            return whole(bytes, size);
        }
        bytes.extend_from_slice(&chunk[..count])?;
    }
    Err(InspectStop::Length(size as u64 + 1))
}

// All the bytes of a source, where they are a ring's.
fn whole(bytes: Vec<u8>, size: usize) -> Result<Vec<u8>, InspectStop>
    ensures ok { IfOk result (λ same. (same.items ≡ bytes.items) × (length bytes.items ≡ size)) }
    ensures err { IfErr result (λ stop. (stop ≡ InspectStop.Length (length bytes.items)) × (length bytes.items ≢ size)) }
{
    if bytes.len() == size {
        Ok(bytes)
    } else {
        Err(InspectStop::Length(bytes.len() as u64))
    }
}
