//! What a task takes from endpoints, whose ids are known by place.
ghost use Rattle.std.specs.Prelude.{◌≡◌, ◌≤◌, ◌<◌, length, IfSome};
ghost use Rattle.vi_removals.specs.Takings.{place_in, from_endpoint, from_domain, request_what, what_of};

use arrayvec::ArrayVec;
use vi_bytes::Span;
use vi_history::{Reading, Request};
use vi_model::Task;
use vi_shoot::What;

/// A copy of the ids, of which there are at most 16.
pub fn copied(ids: &[u32]) -> ArrayVec<u32, 16>
    requires { length ids.now ≤ 16 }
    ensures { result.items ≡ ids.now }
{
    let mut copy = ArrayVec::new();
    for id in ids {
        copy.push(*id);
    }
    copy
}

/// The first place of the id, if it has one.
fn place_in(ids: &[u32], id: u32) -> Option<usize>
    ensures place { result ≡ place_in ids.now id }
    ensures below { IfSome result (λ place. place < length ids.now) }
{
    ids.iter().position(|x| *x == id)
}

fn from_endpoint(ids: &[u32], id: u32) -> Option<What>
    requires { length ids.now ≤ 16 }
    ensures { result ≡ from_endpoint ids.now id }
{
    match place_in(ids, id) {
        None => None,
        Some(place) => Some(What::Endpoint(place as u32)),
    }
}

fn from_domain(domain: u32, first: u64, last: u64) -> Option<What>
    ensures { result ≡ from_domain domain first last }
{
    if first <= last {
        let span = Span { first, last };
        Some(What::Unmap { domain, span })
    } else {
        None
    }
}

fn request_what(ids: &[u32], request: &Request) -> Option<What>
    requires { length ids.now ≤ 16 }
    ensures { result ≡ request_what ids.now request.now }
{
    match *request {
        Request::Attach { endpoint, .. } => from_endpoint(ids, endpoint),
        Request::Detach { endpoint, .. } => from_endpoint(ids, endpoint),
        Request::Unmap {
            domain,
            first,
            last,
        } => from_domain(domain, first, last),
        Request::Map { .. } | Request::Probe { .. } => None,
    }
}

/// What the task takes back, or `None` where it takes nothing, or names an endpoint without a place or a range without
/// an address.
pub fn what_of(ids: &[u32], task: &Task) -> Option<What>
    requires { length ids.now ≤ 16 }
    ensures { result ≡ what_of ids.now task.now }
{
    match task {
        Task::Reads(Reading::Asks(request)) => request_what(ids, request),
        Task::Reads(Reading::Silent) | Task::Reads(Reading::Malformed { .. }) => None,
        Task::Sets(true) => None,
        Task::Sets(false) => Some(What::BypassOff),
    }
}
