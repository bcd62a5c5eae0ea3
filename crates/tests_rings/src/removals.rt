//! Open removals of two endpoints, by the drivers' calls.
ghost use Rattle.std.specs.Prelude.{◌≡◌, [], ◌∷◌, length};

use std::process::Abort;
use vi_bytes::{Membership, Span};
use vi_history::{Reading, Request};
use vi_model::Task;
use vi_removals::{Ready, Removals};
use vi_shoot::{Token, Waiting, What};

const ALL: Span = Span {
    first: 0,
    last: u64::MAX,
};

// The addresses of half a page and of the page behind it.
const RANGE: Span = Span {
    first: 0x1800,
    last: 0x2fff,
};

const UNMAP: Task = Task::Reads(Reading::Asks(Request::Unmap {
    domain: 7,
    first: 0x1800,
    last: 0x2fff,
}));

const DETACH: Task = Task::Reads(Reading::Asks(Request::Detach {
    domain: 7,
    endpoint: 40,
}));

const SETTING: Token = Token::Setting { driver: 2, line: 9 };

// One waits for both back ends, and one for the second alone.
fn two_begun(removals: &mut Removals)
    requires { removals.old ≡ record { ids = 30 ∷ 40 ∷ []; opened = [] } }
    ensures { length removals.new.ids ≡ 2 }
{
    let mut first = Waiting::none();
    first.set(0);
    first.set(1);
    let mut second = Waiting::none();
    second.set(1);
    removals.begin(1, 4, UNMAP, &first, Token::Chain(5));
    removals.begin(2, 9, Task::Sets(false), &second, SETTING);
}

// The second back end acknowledges twice. What is ready in between, and then.
fn acknowledged(rt: &impl Abort, removals: &mut Removals) -> ([Span; 2], [bool; 2], Option<Ready>)
    requires { length removals.old.ids ≡ 2 }
    ensures { length removals.new.ids ≡ 2 }
{
    assert!(rt; !removals.is_full() && removals.waits_for(0) && removals.waits_for(1));
    let oldest = removals.acked(1);
    let ready = removals.is_ready();
    assert!(rt; removals.take_ready().is_none());
    assert!(rt; removals.waits_for(1));
    let next = removals.acked(1);
    let then = removals.is_ready();
    ([oldest, next], [ready, then], removals.take_ready())
}

#[test]
fn removals_go_by_the_oldest(rt: HostRuntime) {
    let mut removals = Removals::new(&[30, 40]);
    two_begun(&mut removals);
    let ready = Ready {
        driver: 2,
        line: 9,
        task: Task::Sets(false),
        token: SETTING,
    };
    assert_eq!(rt;
        acknowledged(&rt, &mut removals),
        ([RANGE, ALL], [false, true], Some(ready)),
        "the oldest of two, and the first waits still"
    );
    assert!(rt; removals.waits_for(0) && !removals.waits_for(1));
}

// Whether the UNMAP takes addresses from the first endpoint, as a member and without a domain. Then
// it begins.
fn unmap_begun(removals: &mut Removals) -> [bool; 2]
    requires { removals.old ≡ record { ids = 30 ∷ 40 ∷ []; opened = [] } }
    ensures { removals.new.ids ≡ 30 ∷ 40 ∷ [] }
{
    let takes = [
        removals.takes(&UNMAP, 0, Membership::Member(7)),
        removals.takes(&UNMAP, 0, Membership::Unattached),
    ];
    let mut waits = Waiting::none();
    waits.set(1);
    removals.begin(0, 1, UNMAP, &waits, Token::Chain(0));
    takes
}

// For the first endpoint, and for the one that moved and is waited for.
fn closes(removals: &Removals) -> [bool; 4]
    requires { removals.now.ids ≡ 30 ∷ 40 ∷ [] }
{
    let member = Membership::Member(7);
    [
        removals.closes(0, 1, member),
        removals.closes(0, 3, member),
        removals.closes(0, 1, Membership::Unattached),
        removals.closes(1, 2, Membership::Unattached),
    ]
}

#[test]
fn pages_are_closed_for_those_concerned(rt: HostRuntime) {
    let mut removals = Removals::new(&[30, 40]);
    assert_eq!(rt; unmap_begun(&mut removals), [true, false]);
    let want = [true, false, false, true];
    assert_eq!(rt; closes(&removals), want, "half of a page is enough");
}

fn what_of(removals: &Removals) -> [What; 3]
    requires { removals.now.ids ≡ 30 ∷ 40 ∷ [] }
{
    [
        removals.what_of(&DETACH),
        removals.what_of(&Task::Sets(false)),
        removals.what_of(&UNMAP),
    ]
}

fn addresses(removals: &Removals) -> [Span; 2]
    requires { removals.now.ids ≡ 30 ∷ 40 ∷ [] }
{
    [removals.addresses(&UNMAP), removals.addresses(&DETACH)]
}

// Whether the DETACH is of the second endpoint, and of the first.
fn detaches(removals: &Removals) -> [bool; 2]
    requires { removals.now.ids ≡ 30 ∷ 40 ∷ [] }
{
    [
        removals.takes(&DETACH, 1, Membership::Unattached),
        removals.takes(&DETACH, 0, Membership::Member(7)),
    ]
}

#[test]
fn endpoints_are_named_by_place(rt: HostRuntime) {
    let removals = Removals::new(&[30, 40]);
    assert!(rt; removals.ids() == [30, 40].as_slice());
    let unmap = What::Unmap {
        domain: 7,
        span: RANGE,
    };
    let whats = [What::Endpoint(1), What::BypassOff, unmap];
    assert_eq!(rt; what_of(&removals), whats);
    assert_eq!(rt; addresses(&removals), [RANGE, ALL]);
    assert_eq!(rt; detaches(&removals), [true, false]);
}
