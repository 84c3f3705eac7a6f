//! The choice between the ways, by fixed costs in picoseconds and never by a clock: so a run is the same everywhere.

ghost use Rattle.std.specs.Prelude.{◌≤◌};

/// The ways of a run.
#[derive(Clone, Copy, PartialEq, Eq)]
pub enum Way {
    Agents,
    Counts,
}

/// Shares are counted in so many parts.
const WHOLE: u64 = 1 << 16;

/// From this number of agents on, a crowd agent by agent is too large.
const AGENTS_MOST: u32 = 1 << 27;

/// What it costs to reach two agents of a crowd that no cache holds.
fn reach_cost(agents: u32) -> u64
    ensures { result ≤ 59000 }
{
    match agents {
        0..=131_072 => 9_000,
        131_073..=1_048_576 => 13_000,
        1_048_577..=4_194_304 => 18_000,
        4_194_305..=16_777_216 => 28_000,
        _ => 59_000,
    }
}

/// A meeting by agents, where `share` of all meetings change something.
fn agents_cost(agents: u32, share: u16, is_dealt: bool) -> u64 {
    let cost = reach_cost(agents) + 10_000 * u64::from(share) / WHOLE;
    if is_dealt { cost } else { cost + cost / 8 }
}

/// A meeting by counts, with so many ordered pairs of states that change.
fn counts_cost(meets: u16, share: u16) -> u64 {
    let change = 30_000 + 4_000 * u64::from(meets);
    if u64::from(share) * 8 < WHOLE {
        (140_000 + change) * u64::from(share) / WHOLE
    } else {
        16_000 + change * u64::from(share) / WHOLE
    }
}

/// The way that costs less.
pub fn chosen(agents: u32, meets: u16, share: u16, is_dealt: bool) -> Way {
    if agents < AGENTS_MOST && agents_cost(agents, share, is_dealt) <= counts_cost(meets, share) {
        Way::Agents
    } else {
        Way::Counts
    }
}
