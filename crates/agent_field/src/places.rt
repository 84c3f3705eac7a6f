//! Where the words of a field stand in its table. After the clock and the founder word, the locks of the shards and
//! the words of the agents take turns: with as many shards as agents, each lock comes before its agent's word.

ghost use Rattle.std.specs.Prelude.{◌≡◌};
ghost use Rattle.agent_field.specs.Standing.{lock_place, agent_place};

/// The number of meetings so far.
pub(crate) const CLOCK: usize = 0;

/// 1 once the field is founded.
pub(crate) const FOUNDER: usize = 1;

/// How many words come before those that take turns.
pub(crate) const HEAD_WORDS: usize = 2;

/// The place of a shard's lock.
pub(crate) fn place_of_lock(shard: u32, agents: u32) -> usize
    ensures { result ≡ lock_place agents shard }
{
    HEAD_WORDS + shard as usize + shard.min(agents) as usize
}

/// The place of an agent's word.
pub(crate) fn place_of_agent(agent: u32, shards: u32) -> usize
    ensures { result ≡ agent_place shards agent }
{
    let agent = agent as usize;
    HEAD_WORDS + agent + (agent + 1).min(shards as usize)
}
