//! The lines of a driver and its endpoint in a round of the load script, each added at the end of a text.
ghost use Rattle.std.specs.Prelude.{◌<◌};

use std::alloc::{AllocError, Global};

/// The largest number of rounds.
pub const MAX_ROUNDS: u32 = 400;

/// How many drivers there are, and how many endpoints.
pub const DRIVERS: u32 = 4;

/// The first address that is mapped.
const BASE: u32 = 0x10_0000;

/// The size of a page in bytes.
const PAGE: u32 = 4096;

/// How many pages of addresses take turns.
const PAGES: u32 = 7;

/// How many pages of memory each driver has.
const MEMORY: u32 = 16;

/// A driver in a round.
#[derive(Clone, Copy, Debug)]
pub struct Turn {
    /// From 0.
    pub round: u32,
    /// From 0.
    pub driver: u32,
    ghost round_within: { round < 400 },
    ghost driver_within: { driver < 4 },
}

impl Turn {
    ghost use Rattle.std.specs.Prelude.{◌≡◌, OnOk};
    ghost use Rattle.vi_make.specs.LoadScript.{Adds, endpoint_of, first_of, last_of, target_of, written_in, range_words, map_ending, map_line, write_line, read_line, unmap_line, fault_line, turn_lines};

    /// The driver's endpoint, and the id of its domain.
    fn endpoint(self) -> u32
        ensures { result ≡ endpoint_of self.driver }
    {
        self.driver + 1
    }

    /// The first address of the page that the round maps.
    fn first(self) -> u32
        ensures { result ≡ first_of self.round }
    {
        BASE + PAGE * (self.round % PAGES)
    }

    /// The last address of the page that the round maps.
    fn last(self) -> u32
        ensures { result ≡ last_of self.round }
    {
        self.first() + PAGE - 1
    }

    /// The guest physical address that the page is mapped to.
    fn target(self) -> u32
        ensures { result ≡ target_of self.round self.driver }
    {
        PAGE * (MEMORY * self.driver + self.round % MEMORY)
    }

    /// The bytes that the endpoint writes: the number of earlier maps of all drivers, the highest byte
    /// first.
    #[tactic(auto, unfolding(crate::specs::LoadScript::written_in))]
    fn written(self) -> [u8; 4]
        ensures { result ≡ written_in self.round self.driver }
    {
        (DRIVERS * self.round + self.driver).to_be_bytes()
    }

    /// Adds what the driver maps or unmaps: its domain, and the page's first and last address.
    #[tactic(auto, unfolding(crate::specs::LoadScript::range_words))]
    fn push_range(self, out: &mut String) -> Result<(), AllocError>
        ensures { OnOk result (Adds out.old out.new (range_words self.round self.driver)) }
    {
        let endpoint = self.endpoint();
        let first = self.first();
        let last = self.last();
        write!(out, "{endpoint} {first} {last}")
    }

    /// Adds the end of the driver's map: from the second round on it awaits the endpoint's last line of
    /// the round before.
    fn push_map_ending(self, out: &mut String) -> Result<(), AllocError>
        ensures { OnOk result (Adds out.old out.new (map_ending self.round self.driver)) }
    {
        if self.round == 0 {
            return out.push_str("\n");
        }
        let endpoint = self.endpoint();
        let awaited = 3 * self.round;
        writeln!(out, " after b{endpoint}.{awaited}")
    }

    /// Adds the line by which the driver maps the page.
    #[tactic(auto, unfolding(crate::specs::LoadScript::map_line))]
    fn push_map(self, out: &mut String) -> Result<(), AllocError>
        ensures { OnOk result (Adds out.old out.new (map_line self.round self.driver)) }
    {
        let driver = self.driver;
        let target = self.target();
        write!(out, "d{driver} map ")?;
        self.push_range(out)?;
        write!(out, " {target} rw")?;
        self.push_map_ending(out)
    }

    /// Adds the line by which the endpoint writes to the page, after the map.
    #[tactic(auto, unfolding(crate::specs::LoadScript::write_line))]
    fn push_write(self, alloc: Global, out: &mut String) -> Result<(), AllocError>
        ensures { OnOk result (Adds out.old out.new (write_line self.round self.driver)) }
    {
        let driver = self.driver;
        let endpoint = self.endpoint();
        let first = self.first();
        let digits = hex::encode(alloc, &self.written())?;
        let digits = digits.as_str();
        let awaited = 2 * self.round + 2;
        writeln!(
            out,
            "b{endpoint} write {first} {digits} after d{driver}.{awaited}"
        )
    }

    /// Adds the line by which the endpoint reads what it wrote.
    #[tactic(auto, unfolding(crate::specs::LoadScript::read_line))]
    fn push_read(self, out: &mut String) -> Result<(), AllocError>
        ensures { OnOk result (Adds out.old out.new (read_line self.round self.driver)) }
    {
        let endpoint = self.endpoint();
        let first = self.first();
        writeln!(out, "b{endpoint} read {first} 4")
    }

    /// Adds the line by which the driver unmaps the page, after that read.
    #[tactic(auto, unfolding(crate::specs::LoadScript::unmap_line))]
    fn push_unmap(self, out: &mut String) -> Result<(), AllocError>
        ensures { OnOk result (Adds out.old out.new (unmap_line self.round self.driver)) }
    {
        let driver = self.driver;
        let endpoint = self.endpoint();
        let awaited = 3 * self.round + 2;
        write!(out, "d{driver} unmap ")?;
        self.push_range(out)?;
        writeln!(out, " after b{endpoint}.{awaited}")
    }

    /// Adds the line by which the endpoint reads once more, after the unmap.
    #[tactic(auto, unfolding(crate::specs::LoadScript::fault_line))]
    fn push_fault(self, out: &mut String) -> Result<(), AllocError>
        ensures { OnOk result (Adds out.old out.new (fault_line self.round self.driver)) }
    {
        let driver = self.driver;
        let endpoint = self.endpoint();
        let first = self.first();
        let awaited = 2 * self.round + 3;
        writeln!(out, "b{endpoint} read {first} 4 after d{driver}.{awaited}")
    }

    /// Adds the five lines of the turn.
    pub fn push_lines(self, alloc: Global, out: &mut String) -> Result<(), AllocError>
        ensures { OnOk result (Adds out.old out.new (turn_lines self.round self.driver)) }
    {
        self.push_map(out)?;
        self.push_write(alloc, out)?;
        self.push_read(out)?;
        self.push_unmap(out)?;
        self.push_fault(out)
    }
}
