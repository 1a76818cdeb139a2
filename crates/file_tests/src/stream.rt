//! Random bytes.

use crate::checks::same;
use io_traits::Stream;

/// The key stream of ChaCha20 for the zero key, nonce and counter (RFC 8439, appendix A.1, vector 1).
#[test]
fn draws_the_key_stream_of_the_zero_key(rt: HostRuntime) {
    let mut stream = Stream::numbered(0);
    for draw in [
        *b"\x76\xb8\xe0\xad\xa0\xf1\x3d\x90\x40\x5d\x6a\xe5\x53\x86\xbd\x28",
        *b"\xbd\xd2\x19\xb8\xa0\x8d\xed\x1a\xa8\x36\xef\xcc\x8b\x77\x0d\xc7",
    ] {
        same(&rt, &stream.draw(), &Some(draw), "a draw");
    }
}
