//! A configuration space with each granule, and bytes that are none.
use std::test::Fail;
use vi_bytes::Span;
use vi_config::{Config, ConfigFault, decode};

const BYTES: [u8; 40] = [
    0x00, 0xc0, 0xff, 0xff, 0xff, 0xff, 0xff, 0xff, // page_size_mask
    0x00, 0x40, 0, 0, 0, 0, 0, 0, // the start of the input range
    0xff, 0xff, 0xff, 0xff, 0, 0, 0, 0, // its end
    0, 0, 0, 0, 0xff, 0xff, 0xff, 0xff, // the domain range
    0x00, 0x02, 0, 0, // probe_size
    1, 0, 0, 0, // bypass, and reserved bytes
];

const CONFIG: Config = Config {
    granule: 16384,
    input: Span {
        first: 0x4000,
        last: 0xffff_ffff,
    },
    bypass: true,
};

#[test]
fn spaces(rt: HostRuntime) {
    assert_eq!(rt; CONFIG.encode(), BYTES);
    assert_eq!(rt; decode(&BYTES), Ok(CONFIG));
    // Any bypass byte but 0 is read as true, and the fields that aren't read are ignored.
    let mut bytes = BYTES;
    bytes[36] = 0x80;
    bytes[24] = 7;
    bytes[32] = 7;
    bytes[39] = 7;
    assert_eq!(rt; decode(&bytes), Ok(CONFIG));
    bytes[36] = 0;
    assert_eq!(rt; decode(&bytes).map(|config| config.bypass), Ok(false));
    // The masks of the two other granules.
    for (low, granule) in [([0x00, 0xf0], 4096), ([0x00, 0x00], 65536)] {
        bytes[0] = low[0];
        bytes[1] = low[1];
        assert_eq!(rt; decode(&bytes).map(|config| config.granule), Ok(granule));
    }
}

#[test]
fn refusals(rt: HostRuntime) -> Result<(), Fail> {
    let mut mask = BYTES;
    mask[1] = 0xe0;
    let mut order = BYTES;
    order[8] = 0xff;
    order[12] = 1;
    let rows: [(&[u8], ConfigFault, &str); 3] = [
        (
            &BYTES[..39],
            ConfigFault::Short,
            "a configuration space has at least 40 bytes",
        ),
        (
            &mask,
            ConfigFault::Mask(0xffff_ffff_ffff_e000),
            "byte 0: the mask 0xffffffffffffe000 isn't that of a granule of 4096, 16384 or 65536 bytes",
        ),
        (
            &order,
            ConfigFault::Order,
            "byte 16: the input range ends below its start",
        ),
    ];
    for (bytes, fault, text) in rows {
        assert_eq!(rt; decode(bytes), Err(fault));
        assert_eq!(rt; format!(in rt.alloc(); "{fault}")?.as_str(), text);
    }
    Ok(())
}
