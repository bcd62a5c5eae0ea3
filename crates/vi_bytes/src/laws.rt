//! Laws of the layouts and cuts that this crate defines, each as the contract of a function that
//! does nothing: what the tests of spans and leases mean, that parts make up their transfer, and
//! that bytes are read back.
ghost use Rattle.std.specs.Prelude.{◌≡◌, ℕ, ◌/◌, ◌^◌, ◌≤◌, ◌<◌, ◌↔◌, All, IsTrue, List, length};
ghost use Rattle.vi_bytes.specs.declared.lease.Need.{Need};
ghost use Rattle.vi_bytes.specs.declared.region.Region.{Region};
ghost use Rattle.vi_bytes.specs.declared.span.Span.{Span};
ghost use Rattle.vi_bytes.specs.FaultRecords.{fault_record, IsFaultRecord};
ghost use Rattle.vi_bytes.specs.Leases.{IsLease, HasPage, SharePage, ReachesInto, has_page, share_page, reaches_into};
ghost use Rattle.vi_bytes.specs.declared.lease.Lease.{Lease};
ghost use Rattle.vi_bytes.specs.Parts.{IsTransfer, IsIn, PartsJoin};
ghost use Rattle.vi_bytes.specs.Properties.{Properties, Regions, ReadsFrom, property_bytes};
ghost use Rattle.vi_bytes.specs.Spans.{IsProper, Has, Meets, Covers, has, meets, covers};

/// Each test of proper spans is true exactly where what it tests holds.
pub fn span_tests()
    ensures has { (s : Span) (address : ℕ) → IsTrue (has s address) ↔ Has s address }
    ensures meets { (s t : Span) → IsProper s → IsProper t → IsTrue (meets s t) ↔ Meets s t }
    ensures covers { (s t : Span) → IsProper t → IsTrue (covers s t) ↔ Covers s t }
{}

/// Each test of leases is true exactly where what it tests holds.
pub fn lease_tests()
    ensures has_page { (l : Lease) (page : ℕ) → IsTrue (has_page l page) ↔ HasPage l page }
    ensures share_page { (l k : Lease) → IsLease l → IsLease k → IsTrue (share_page l k) ↔ SharePage l k }
    ensures reaches_into { (l : Lease) (s : Span) → IsLease l → IsProper s → IsTrue (reaches_into l s) ↔ ReachesInto l s }
{}

/// The parts of a transfer are its bytes in order, a page at a time, and its pages are below 2^52.
pub fn parts_join()
    ensures joined { (iova len : ℕ) → IsTransfer iova len → PartsJoin iova len }
    ensures pages { (iova len address : ℕ)
        → IsTransfer iova len → IsIn iova len address → address / 4096 < 2 ^ 52 }
{}

/// The bytes of a fault record (Virtio 1.2, 5.13.6.9) are read as what they were written for.
pub fn fault_records_read_back()
    ensures size { (reason : ℕ) (need : Need) (endpoint address : ℕ)
        → length (fault_record reason need endpoint address) ≡ 24 }
    ensures reads { (reason : ℕ) (need : Need) (endpoint address : ℕ)
        → reason ≤ 2 → endpoint < 2 ^ 32 → address < 2 ^ 64
        → IsFaultRecord reason need endpoint address (fault_record reason need endpoint address) }
{}

/// Bytes are the record of one fault.
pub fn fault_records_read_once()
    ensures { (reason other_reason : ℕ) (need other_need : Need)
        → (endpoint other_endpoint address other_address : ℕ) (bytes : List ℕ)
        → IsFaultRecord reason need endpoint address bytes
        → IsFaultRecord other_reason other_need other_endpoint other_address bytes
        → (reason ≡ other_reason) × (need ≡ other_need)
        × (endpoint ≡ other_endpoint) × (address ≡ other_address) }
{}

/// The bytes that are written for at most 16 regions (Virtio 1.2, 5.13.6.8) are 512, and they are
/// read as these regions in order.
pub fn properties_read_back()
    ensures size { (regions : List Region) → length (property_bytes regions) ≡ 512 }
    ensures reads { (regions : List Region)
        → length regions ≤ 16
        → All (λ r. IsProper r.span) regions
        → All (λ r. r.span.last < 2 ^ 64) regions
        → ReadsFrom (property_bytes regions) 0 (Regions regions) }
{}

/// Properties (Virtio 1.2, 5.13.6.8) are read in one way.
pub fn properties_read_once()
    ensures { (bytes : List ℕ) (at : ℕ) (read other : Properties)
        → ReadsFrom bytes at read → ReadsFrom bytes at other → read ≡ other }
{}
