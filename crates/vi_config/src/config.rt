//! The configuration space, to bytes and back.
ghost use Rattle.std.specs.Prelude.{◌≡◌, ◌≤◌, ◌+◌, ◌↔◌, length, Ok, Err, IfSome, IfNone, Bool, slice_set};
ghost use Rattle.vi_bytes.specs.Fields.{field};
ghost use Rattle.vi_bytes.specs.Spans.{IsProper};
ghost use Rattle.vi_config.specs.Space.{IsGranule, IsMask, mask_of, config_bytes, bypass_byte, ReadAs, RefusedAs};
ghost use Rattle.vi_config.specs.declared.refusal.ConfigFault.{ConfigFault};

use crate::ConfigFault;
use byteorder::{ByteOrder, LittleEndian};
use vi_bytes::Span;

// The end of the domain range, which has all domains, and the size of the properties of a probe.
const DOMAIN_END: u32 = 0xffff_ffff;

const PROBE_SIZE: u32 = 512;

/// What a driver reads in the configuration space (Virtio 1.2, 5.13.4).
#[derive(Clone, Copy, Debug, PartialEq, Eq)]
pub struct Config {
    /// The granule of mappings in bytes: 4096, 16384 or 65536.
    pub granule: u32,
    /// The addresses that can be mapped.
    pub input: Span,
    /// Whether endpoints that are attached to no domain pass untranslated.
    pub bypass: bool,
}

impl Config {
    /// The 40 bytes of the configuration space. The domain range has all domains, probe_size is
    /// 512, and the reserved bytes are 0.
    pub fn encode(&self) -> [u8; 40]
        requires { IsGranule self.now.granule }
        ensures bytes { result ≡ config_bytes self.now }
        ensures reads { IsProper self.now.input → ReadAs result self.now }
    {
        let Config {
            granule,
            input: Span { first, last },
            bypass,
        } = *self;
        let mut bytes = [0; 40];
        LittleEndian::write_u64(&mut bytes, mask(granule));
        LittleEndian::write_u64(&mut bytes[8..], first);
        LittleEndian::write_u64(&mut bytes[16..], last);
        LittleEndian::write_u32(&mut bytes[28..], DOMAIN_END);
        LittleEndian::write_u32(&mut bytes[32..], PROBE_SIZE);
        bytes[36] = u8::from(bypass);
        bytes
    }
}

fn u64_at(bytes: &[u8], at: usize) -> u64
    requires { at + 8 ≤ length bytes.now }
    ensures { result ≡ field at 8 bytes.now }
{
    LittleEndian::read_u64(&bytes[at..])
}

// The granule's bit and all bits above it.
fn mask(granule: u32) -> u64
    requires { IsGranule granule }
    ensures { result ≡ mask_of granule }
{
    u64::MAX - (u64::from(granule) - 1)
}

fn granule_of(mask: u64) -> Option<u32>
    ensures found { IfSome result (λ granule. IsGranule granule × (mask ≡ mask_of granule)) }
    ensures none { IfNone result (¬ IsMask mask) }
{
    match mask {
        0xffff_ffff_ffff_f000 => Some(4096),
        0xffff_ffff_ffff_c000 => Some(16384),
        0xffff_ffff_ffff_0000 => Some(65536),
        _ => None,
    }
}

/// The configuration that at least 40 bytes show: the mask, the input range and the bypass field
/// are read, and all else is ignored. Takes no memory.
pub fn decode(bytes: &[u8]) -> Result<Config, ConfigFault>
    ensures accepted { (c : Config) → (result ≡ Ok c) ↔ ReadAs bytes.now c }
    ensures refused { (fault : ConfigFault) → (result ≡ Err fault) ↔ RefusedAs bytes.now fault }
{
    if bytes.len() < 40 {
        return Err(ConfigFault::Short);
    }
    let mask = u64_at(bytes, 0);
    let Some(granule) = granule_of(mask) else {
        return Err(ConfigFault::Mask(mask));
    };
    let first = u64_at(bytes, 8);
    let last = u64_at(bytes, 16);
    let Some(input) = Span::new(first, last) else {
        return Err(ConfigFault::Order);
    };
    Ok(Config {
        granule,
        input,
        bypass: bytes[36] != 0,
    })
}
