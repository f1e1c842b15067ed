//! The memory that a call takes.
//!
//! No clause sees an allocation. So `tests/library_memory.c` compares what calls take with the
//! result of [`memory_of`].
ghost use Rattle.std.specs.Prelude.{◌≡◌, ◌==◌, ◌<◌, ◌≤◌, length};
ghost use Rattle.std.specs.List.{count_by};
ghost use Rattle.cj_stream.specs.Tallied.{capped};
ghost use Rattle.cityseq_c.specs.Memory.{containers_bytes, lines_bytes, memory_bytes, texts_bytes};
ghost use Rattle.cityseq_c.specs.Request.{items, needed_line as line_needed};

use crate::request::Request;
use cj_stream::Limits;

/// The bytes of a token.
const TOKEN: usize = 12;

/// The bytes for an open container.
const CONTAINER: usize = 4;

/// Up to this many open containers take no memory of the allocator.
const FEW_CONTAINERS: usize = 64;

/// The most bytes for each byte of the texts of a query. They are kept in lists that may double.
const TEXT_BYTE: usize = 3;

/// The most bytes for each of these texts, in the same way.
const TEXT: usize = 96;

/// The most bytes that do not depend on the number of texts.
const TEXTS: usize = 1_024;

/// Returns the line limit that is needed for a header and a part of these lengths. No line is
/// longer than the longer one.
pub fn needed_line(line_limit: u64, header: usize, part: usize) -> u64
    ensures { result ≡ line_needed line_limit header part }
{
    line_limit.min(header.max(part).max(1) as u64)
}

/// Returns how many bytes the open containers take under this limit.
fn bytes_of_containers(depth: usize) -> usize
    requires { depth ≤ 1024 }
    ensures { result ≡ containers_bytes depth }
{
    if depth <= FEW_CONTAINERS {
        0
    } else {
        CONTAINER * depth
    }
}

/// Returns how many bytes the header and a later line take under these limits.
fn bytes_of_lines(line: usize, depth: usize) -> usize
    requires line { line ≤ 1073741824 }
    requires depth { depth ≤ 1024 }
    ensures { result ≡ lines_bytes line depth }
{
    let tokens = (line + depth + 1) / 2;
    2 * line + 2 * TOKEN * tokens + bytes_of_containers(depth)
}

/// Returns how many LFs there are in a text.
fn count_lfs(text: &[u8]) -> usize
    ensures { result ≡ count_by (λ b. b == 10) text.now }
{
    let mut count = 0usize;
    for byte in text {
        if *byte == b'\n' {
            count += 1;
        }
    }
    count
}

/// Returns how many texts there are between LFs. An empty text has none.
fn count_texts(text: &[u8]) -> usize
    ensures { result ≡ length (items text.now) }
{
    if text.is_empty() {
        0
    } else {
        count_lfs(text) + 1
    }
}

/// Returns the most bytes that the texts of a query take, if they are asked for.
fn bytes_of_texts(asked: bool, text: &[u8]) -> usize
    ensures { result ≡ capped (texts_bytes asked text.now) }
{
    if asked {
        text.len()
            .saturating_mul(TEXT_BYTE)
            .saturating_add(count_texts(text).saturating_mul(TEXT))
            .saturating_add(TEXTS)
    } else {
        0
    }
}

/// Returns the most bytes that a call with this request takes at one time, for a header and a part
/// of these lengths. It is 0 if a limit is out of range, and stops at 2^64 - 1.
pub fn memory_of(request: &Request<'_>, header: usize, part: usize) -> usize
    ensures { result ≡ memory_bytes request.now header part }
{
    match Limits::new(request.line_limit, request.depth_limit) {
        Ok(limits) => {
            let line = needed_line(limits.line(), header, part) as usize;
            bytes_of_lines(line, limits.depth() as usize)
                .saturating_add(bytes_of_texts(request.asks_ids, request.ids))
                .saturating_add(bytes_of_texts(
                    request.asks_types && request.extensions,
                    request.types,
                ))
                .saturating_add(bytes_of_texts(request.asks_lods, request.lods))
        }
        Err(_) => 0,
    }
}
