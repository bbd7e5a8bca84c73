// What the back answers.
ghost use Rattle.std.specs.Prelude.{◌≡◌, ◌≢◌, ◌+◌, ◌*◌, ◌/◌, ◌^◌, slice_index, IfOk, IfErr};
ghost use Rattle.blk_base.specs.declared.operation.Status.{Status};
ghost use Rattle.blk_layout.specs.Field.{StandFor};
ghost use Rattle.blk_layout.specs.Response.{response_fields, response_of, response_words_of, status_bits};

use crate::reader::double;
use blk_base::Status;

/// The answer to a request (`struct blkif_response` of `io/blkif.h`): the request's `id`, the
/// operation that it is said to answer, any byte, and how the request ended.
#[derive(Clone, Copy, PartialEq, Eq)]
pub struct Response {
    pub id: u64,
    pub op: u8,
    pub status: Status,
}

/// The three words of a response, the same under both layouts.
pub fn response_words(response: &Response) -> [u32; 3]
    ensures { result ≡ response_words_of response.now }
{
    let status = response.status.code().cast_unsigned();
    [
        (response.id & 0xffff_ffff) as u32,
        (response.id >> 32) as u32,
        ending(response.op, status),
    ]
}

// The word that says how a request ended.
fn ending(op: u8, status: u16) -> u32
    ensures { result ≡ op + status * 2 ^ 16 }
{
    u32::from(op) | u32::from(status) << 16
}

/// What three words are read as. `Err` with word 2 comes exactly where the status in it is none of
/// 0, -1 and -2.
pub fn read_response(words: [u32; 3]) -> Result<Response, u32>
    ensures value { result ≡ response_of words }
    ensures stands { IfOk result (λ response. StandFor words (response_fields response)) }
    ensures refused { IfErr result (λ word. word ≡ slice_index words 2) }
    ensures unknown { IfErr result (λ word. (status : Status) → status_bits status ≢ word / 2 ^ 16) }
{
    let last = words[2];
    let Some(status) = Status::from_code(((last >> 16) as u16).cast_signed()) else {
        return Err(last);
    };
    Ok(Response {
        id: double(&words, 0),
        op: (last & 0xff) as u8,
        status,
    })
}
