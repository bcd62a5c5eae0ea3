//! Transfers cut into parts, one a page.
ghost use Rattle.std.specs.Prelude.{◌≡◌, ℕ, ◌+◌, ◌-◌, ◌*◌, ◌/◌, ◌^◌, ◌≤◌, ◌<◌, ◌↔◌};
ghost use Rattle.vi_bytes.specs.Parts.{IsTransfer, Touches, IsCut, IsInPage, part_count, nth_part};

/// The bytes of a transfer that lie in one page: `len` bytes, 1 to 4096, from the address `iova`
/// on.
#[derive(Clone, Copy, Debug, PartialEq, Eq)]
pub struct Part {
    pub iova: u64,
    pub len: u32,
}

/// How many pages a transfer of `len` bytes from the address `iova` on touches: that is the number
/// of its parts. A transfer has 1 to 65536 bytes, and its last address is at most 2^64 - 1.
pub fn parts(iova: u64, len: u32) -> u32
    requires { IsTransfer iova len }
    ensures pages { (k : ℕ) → (k < result) ↔ Touches iova len (iova / 4096 + k) }
    ensures count { result ≡ part_count iova len }
    ensures some { 1 ≤ result }
    ensures most { result ≤ 17 }
{
    let offset = (iova & 4095) as u32;
    (offset + len + 4095) >> 12
}

/// The k-th part of a transfer, from 1, by rising address: its bytes in the k-th page that it
/// touches.
pub fn cut(iova: u64, len: u32, k: u32) -> Part
    requires transfer { IsTransfer iova len }
    requires first { 1 ≤ k }
    requires last { k ≤ part_count iova len }
    ensures addresses { IsCut iova len (iova / 4096 + (k - 1)) result }
    ensures part { result ≡ nth_part iova len k }
    ensures page { IsInPage (iova / 4096 + (k - 1)) result }
    ensures most { result.len ≤ 4096 }
{
    let offset = (iova & 4095) as u32;
    let from = if k == 1 { 0 } else { ((k - 1) << 12) - offset };
    let page_end = (k << 12) - offset;
    let to = if page_end < len { page_end } else { len };
    Part {
        iova: iova + u64::from(from),
        len: to - from,
    }
}
