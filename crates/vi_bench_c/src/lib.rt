//! What `bench/structures.sh` times, for a C or Rust program to call: each export does the same
//! calls of a structure many times and answers a sum over their answers. It is no part of the
//! program.
//!
//! Main calls:
//! - `vi_bench_tree`: maps pages in a tree of `vi_tree`, looks them up and unmaps them.
//! - `vi_bench_cache`: fills a cache of `vi_cache` and looks its pages up.
//! - `vi_bench_ring`: sends requests through a ring of `vi_vring`; how many bytes of answers came.
//!
//! # How it is used
//! `rt lib` makes a static library of this crate. `bench/structures.rs`, which
//! `bench/structures.sh` builds and runs, declares the exports. It calls each of them, as in
//! `unsafe { vi_bench_cache(leases, looks) }`.
//!
//! # Limits
//! - A page is a number of a page of 4096 bytes, taken modulo 2^52. More than 2^31 pages answer 0.
//! - A cache has 1 to 64 leases: another number counts as the nearest of these. A request of the
//!   ring has 64 bytes, and its answer 4.
//! - The tree and the ring take memory, and answer 0 where they are out of memory. The cache takes
//!   none.
//! - No clause says what the sums are, and no test runs them.
#![tactic(auto)]

mod cache;
mod ring;
mod tree;

use std::alloc::Global;

/// Maps each of the pages, whose number is below 2^31, looks the first address of each up `finds`
/// times, and unmaps each `unmaps` times, where only the first does anything. 0 where memory is out.
#[unsafe(no_mangle)]
pub extern "C" fn vi_bench_tree(alloc: Global, pages: &[u64], finds: u32, unmaps: u32) -> u64 {
    tree::run(alloc, pages, finds, unmaps).unwrap_or(0)
}

/// Fills a cache with so many leases, 1 to 64, and looks their pages up in turn.
#[unsafe(no_mangle)]
pub extern "C" fn vi_bench_cache(leases: u32, looks: u32) -> u64 {
    cache::run(leases.clamp(1, 64), looks)
}

/// Sends so many requests of 64 bytes through a ring and takes their answers. 0 where memory is out.
#[unsafe(no_mangle)]
pub extern "C" fn vi_bench_ring(alloc: Global, rounds: u32) -> u64 {
    ring::run(alloc, rounds).unwrap_or(0)
}
