//! What a popped chain comes to.
ghost use Rattle.std.specs.Prelude.{◌≡◌, ◌≤◌, ◌<◌, IfSome};
ghost use Rattle.vi_history.specs.Requests.{reading};
ghost use Rattle.vi_vring.specs.Moves.{ShowsChain, IsOut, popped_bytes};

use vi_history::Reading;
use vi_req::read;
use vi_vring::{Chain, Ring};

/// The most bytes of a part of a chain.
pub const MOST_BYTES: usize = 1024;

/// What the readable bytes of a popped chain come to, with its writable part.
pub fn reading(ring: &Ring, chain: &Chain) -> Reading
    requires shown { ShowsChain ring.now chain.now }
    requires out { IsOut chain.now ring.now }
    requires small { chain.now.read ≤ 1024 }
    ensures { IfSome ring.now.lists (λ l. IfSome (popped_bytes chain.now.head l) (λ bytes. result ≡ reading bytes chain.now.write)) }
{
    let mut buffer = [0; MOST_BYTES];
    let bytes = &mut buffer[..chain.read as usize];
    ring.readable(chain, bytes);
    read(bytes, chain.write)
}
