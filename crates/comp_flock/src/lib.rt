//! Leaves that compute `a*x + .. >= c` or deny it, for coefficients that are 0, powers of two or at least c; and their
//! proofs. It stands on `comp_counting`, which has what all leaves of these atoms share.
//! The layer above uses: `flock`, `offset_flock` and `prefix_flock` give exactly the built leaf, and a proof that is valid.
//!
//! Each agent holds nothing, a power of two below the target's greatest one, or a prefix of the target: the target
//! without some of its last ones. Two that hold the target or more together become full, and a full one turns all others.
//! Two that hold as much as the next state join. There are two leaves of this kind. The target of `prefix_flock` is c:
//! it has no helpers, and at most two states for each bit of c, and two more. The target of `offset_flock` is 2^k, at
//! least c: it has no prefixes but 2^k, so k + 2 states, and helpers hold 2^k - c.
//!
//! *It ends.* A joining leaves an agent with nothing, and each other move makes agents full. *It ends right.* The first
//! full ones hold the target, with what the helpers hold, or one starts with c. If there is none, at most one prefix is
//! left. With it there are only powers below its next one, each at most once, so all of them add up to less.
#![tactic(auto)]

mod full;
mod law;
mod leaf;
mod listing;
mod multipliers;
mod naming;
mod offset;
mod top;
mod trees;
mod whole;
mod worths;

pub use comp_counting::{flock_power, offset_power};
pub use law::{offset_flocks_are_right, prefixes_are_right};
pub use offset::offset_helper_count;
pub use top::prefix_top;
pub use whole::{flock, offset_flock, prefix_flock};
pub use worths::prefix_states;
