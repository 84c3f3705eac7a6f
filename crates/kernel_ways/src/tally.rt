//! What is told of a run: meetings, changes, and since when all agents agree.

/// A meeting that changes something: the two states that meet, and what they become.
#[derive(Clone, Copy)]
pub struct Change {
    pub taken: (u8, u8),
    pub made: (u8, u8),
}

/// Where a run stops: at so many meetings, after so many changes, at a change in the meeting `row` or later, or where no
/// agent, or each, outputs true.
#[derive(Clone, Copy)]
pub struct Goal {
    pub meetings: u128,
    pub changes: u64,
    pub row: u128,
    pub at_none: bool,
    pub at_all: bool,
}

/// What a run has come to. `since` is the meeting since which all agents output the same, if they do; `before` is the
/// last change but one.
#[derive(Clone, Copy)]
pub struct Tally {
    pub agents: u32,
    pub yes: u32,
    pub meetings: u128,
    pub changes: u64,
    pub last_change: u128,
    pub before: u128,
    pub latest: Change,
    pub is_agreed: bool,
    pub since: u128,
}

impl Tally {
    /// A crowd that has not met, of which so many output true.
    pub fn new(agents: u32, yes: u32) -> Tally {
        Tally {
            agents,
            yes,
            meetings: 0,
            changes: 0,
            last_change: 0,
            before: 0,
            latest: Change {
                taken: (0, 0),
                made: (0, 0),
            },
            is_agreed: yes == 0 || yes == agents,
            since: 0,
        }
    }

    /// Notes a change in the meeting of this number.
    #[inline(always)]
    pub fn note(&mut self, outputs: &[u8; 256], change: Change, meeting: u128) {
        let up = u32::from(outputs[change.made.0 as usize])
            + u32::from(outputs[change.made.1 as usize]);
        let down = u32::from(outputs[change.taken.0 as usize])
            + u32::from(outputs[change.taken.1 as usize]);
        self.yes = self.yes.saturating_add(up).saturating_sub(down);
        self.changes = self.changes.saturating_add(1);
        self.before = self.last_change;
        self.last_change = meeting;
        self.latest = change;
        if self.yes == 0 || self.agents <= self.yes {
            if up != down {
                self.since = meeting;
            }
            self.is_agreed = true;
        } else {
            self.is_agreed = false;
        }
    }

    /// Whether the run is where it is to stop.
    #[inline(always)]
    pub fn is_there(&self, goal: &Goal) -> bool {
        goal.meetings <= self.meetings || self.is_stopped(goal)
    }

    /// Whether a change has brought it there.
    #[inline(always)]
    pub fn is_stopped(&self, goal: &Goal) -> bool {
        goal.changes <= self.changes
            || goal.row <= self.last_change
            || self.is_agreed && (goal.at_none && self.yes == 0 || goal.at_all && self.yes != 0)
    }
}
