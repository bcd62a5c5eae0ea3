//! Scripts for the command `sim`, and what is written for each.

/// Each case is a line `case` with its name, a script, a line `writes`, and the text that is written for the schedule of
/// the script alone, `sim 0 0`.
pub const SIM: &str = "case an access fail of a page that may be read
memory 1
endpoint 7
d0 attach 1 7
d0 map 1 0x1000 0x1fff 0x0 r
b7 read 0x1000 1 after d0.2
b7 write 0x1004 aa
writes
viommu history 4
1 d0.1 status 0
2 d0.2 status 0
3 b7.1.1 read 00
4 b7.2.1 fault 2
faults 1 shown 1 dropped 0
4 020000000201000007000000000000000410000000000000
end
case a removal that two back ends acknowledge
memory 1
endpoint 5
endpoint 6
turns d0 dev d0 d0 dev d0 d0 dev d0
turns b5 b5 dev b5 b5 b5 b5 b6 b6 dev b6 b6 b6 b6
turns d0 dev b5 dev b5 b5 dev b6 b6 dev dev dev b5 d0
d0 attach 1 5
d0 attach 1 6
d0 map 1 0x1000 0x1fff 0x0 rw
b5 write 0x1000 01 after d0.3
b6 read 0x1000 1 after d0.3
d0 unmap 1 0x1000 0x1fff after b5.1 b6.1
b5 read 0x1000 1 after b6.1
b6 write 0x1000 02
writes
viommu history 8
1 d0.1 status 0
2 d0.2 status 0
3 d0.3 status 0
4 b5.1.1 wrote
5 b6.1.1 read 01
6 b6.2.1 wrote
7 d0.4 status 0
8 b5.2.1 fault 2
faults 1 shown 1 dropped 0
8 020000000101000005000000000000000010000000000000
end
case an update that an invalidate follows
memory 1
endpoint 5
turns d0 dev d0 d0 dev d0 b5 b5 dev d0 dev
d0 attach 1 5
d0 map 1 0x1000 0x1fff 0x0 rw
b5 read 0x1000 1 after d0.2
d0 unmap 1 0x1000 0x1fff
writes
viommu history 4
1 d0.1 status 0
2 d0.2 status 0
3 d0.3 status 0
4 b5.1.1 fault 2
faults 1 shown 1 dropped 0
4 020000000101000005000000000000000010000000000000
end
case an endpoint that joins while an unmap is open
memory 1
endpoint 5
endpoint 6
turns d0 dev d0 d0 dev d0 b5 b5 dev b5 b5 b5 b5
turns d0 dev d1 dev d1 b6 b6 dev b5 dev dev dev b6 d0
d0 attach 1 5
d0 map 1 0x1000 0x1fff 0x0 rw
b5 write 0x1000 33 after d0.2
d0 unmap 1 0x1000 0x1fff after b5.1
d1 attach 1 6 after b5.1
b6 read 0x1000 1 after d1.1
writes
viommu history 6
1 d0.1 status 0
2 d0.2 status 0
3 b5.1.1 wrote
4 d1.1 status 0
5 d0.3 status 0
6 b6.1.1 fault 2
faults 1 shown 1 dropped 0
6 020000000101000006000000000000000010000000000000
end
case more faults than event buffers
memory 1
endpoint 7
events off
b7 read 0x0 1
b7 read 0x0 1
b7 read 0x0 1
b7 read 0x0 1
b7 read 0x0 1
b7 read 0x0 1
b7 read 0x0 1
b7 read 0x0 1
b7 read 0x0 1
b7 read 0x0 1
b7 read 0x0 1
b7 read 0x0 1
b7 read 0x0 1
b7 read 0x0 1
b7 read 0x0 1
b7 read 0x0 1
b7 read 0x0 1
writes
viommu history 17
1 b7.1.1 fault 1
2 b7.2.1 fault 1
3 b7.3.1 fault 1
4 b7.4.1 fault 1
5 b7.5.1 fault 1
6 b7.6.1 fault 1
7 b7.7.1 fault 1
8 b7.8.1 fault 1
9 b7.9.1 fault 1
10 b7.10.1 fault 1
11 b7.11.1 fault 1
12 b7.12.1 fault 1
13 b7.13.1 fault 1
14 b7.14.1 fault 1
15 b7.15.1 fault 1
16 b7.16.1 fault 1
17 b7.17.1 fault 1
faults 17 shown 16 dropped 1
1 010000000101000007000000000000000000000000000000
2 010000000101000007000000000000000000000000000000
3 010000000101000007000000000000000000000000000000
4 010000000101000007000000000000000000000000000000
5 010000000101000007000000000000000000000000000000
6 010000000101000007000000000000000000000000000000
7 010000000101000007000000000000000000000000000000
8 010000000101000007000000000000000000000000000000
9 010000000101000007000000000000000000000000000000
10 010000000101000007000000000000000000000000000000
11 010000000101000007000000000000000000000000000000
12 010000000101000007000000000000000000000000000000
13 010000000101000007000000000000000000000000000000
14 010000000101000007000000000000000000000000000000
15 010000000101000007000000000000000000000000000000
16 010000000101000007000000000000000000000000000000
end
case raw requests that aren't well formed
memory 1
endpoint 7
d0 raw 09000000 4
d0 raw 01000000010000000700000000000000000000 4
d0 raw 0100000001000000070000000000000000000000 3
writes
viommu history 3
1 d0.1 nothing
2 d0.2 status 4
3 d0.3 nothing
faults 0 shown 0 dropped 0
end
case a run of two pages
memory 2
endpoint 7
turns d0 dev d0 d0 dev d0 b7 b7 dev b7 b7 b7 b7 d0 dev b7
d0 attach 1 7
d0 map 1 0x1000 0x2fff 0x0 rw
b7 read 0x1000 1 after d0.2
b7 read 0x2000 1
d0 unmap 1 0x1000 0x2fff after b7.1
writes
viommu history 5
1 d0.1 status 0
2 d0.2 status 0
3 b7.1.1 read 00
4 b7.2.1 read 00
5 d0.3 status 0
faults 0 shown 0 dropped 0
end
case two requests added at once
memory 1
endpoint 5
turns d0 dev d0 d0 dev d0 b5 b5 dev b5 b5 b5 b5 d0 d0 dev dev
d0 attach 1 5
d0 map 1 0x1000 0x1fff 0x0 rw
b5 read 0x1000 1 after d0.2
d0 add unmap 1 0x1000 0x1fff after b5.1
d0 detach 9 5
writes
viommu history 5
1 d0.1 status 0
2 d0.2 status 0
3 b5.1.1 read 00
4 d0.4 status 4
5 d0.3 status 0
faults 0 shown 0 dropped 0
end";

/// The cases of `one` that are the same under `sim 0 0`.
pub const SAME: [&str; 3] = [
    "nothing",
    "the standard's examples of UNMAP",
    "how MAP is refused",
];

/// The cases of `one` that are the same under every schedule.
pub const ALWAYS: [&str; 4] = [
    "write and read",
    "a page that was unmapped and mapped elsewhere",
    "a cache of one lease",
    "bypass on and off",
];

/// The schedules that they are tried under.
pub const SCHEDULES: &str = "sim 0 0
sim 1 0
sim 2 0
sim 3 0
sim 4 0
sim 5 0
sim 6 0
sim 7 0
sim 8 0
sim 9 0
sim 0 500
sim 1 500
sim 2 500
sim 3 500
sim 4 500
sim 5 500
sim 6 500
sim 7 500
sim 8 500
sim 9 500";
