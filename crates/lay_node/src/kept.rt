//! What is kept of a node of the tree.
ghost use Rattle.std.specs.Prelude.{◌≡◌, ◌==◌, ◌<◌, ◌≤◌, ◌+◌, ◌-◌, ◌^◌, pos, ◌-ℤ◌, nat_le};
ghost use Rattle.lay_node.specs.Numbers.{next_kept, AreSmall};

/// What the bounds of a node's children need.
#[derive(Clone, Copy)]
pub struct Kept {
    /// How many lists are closed.
    pub(crate) closes: u8,
    /// How many scalars stand in no list.
    pub(crate) unplaced: u8,
    /// The last scalar of the open list.
    pub(crate) last: Option<u8>,
    /// What the closed lists cost, over the accesses of their scalars alone.
    pub(crate) closed: u64,
    /// The weights of the blocks that hold a scalar that isn't in a closed list.
    pub(crate) loads: u64,
    /// How often two of these are neighbours, over each two of them. It is 0 at a step above 1, as the next two are.
    pub(crate) paid: u64,
    /// Of this, what stands beside one another in the open list.
    pub(crate) saved: u64,
    /// The greatest weight of each scalar that isn't placed with another one of these, in all. It is 0 where one more list may be closed.
    pub(crate) greatest: u64,
}

impl Kept {
    /// Whether all scalars stand in lists.
    pub fn is_complete(self) -> bool
        ensures { result ≡ (self.unplaced == 0) }
    {
        self.unplaced == 0
    }

    /// Of the child with one more scalar in the open list, which is so often beside the last one there, and whose greatest weight is
    /// this. Its children's greatest weights aren't known yet: those of its siblings and its own last one stand for them.
    pub(crate) fn with_scalar(self, scalar: u8, beside: u64, greatest: u64) -> Self
        requires unplaced { 1 ≤ self.unplaced }
        requires saved { self.saved + beside < 2 ^ 64 }
        requires greatest { greatest ≤ self.greatest }
        ensures { result ≡ next_kept self scalar beside greatest }
    {
        Kept {
            unplaced: self.unplaced - 1,
            last: Some(scalar),
            saved: self.saved + beside,
            greatest: self.greatest - greatest,
            ..self
        }
    }

    /// What the node costs, where it is complete, at step 1.
    pub(crate) fn cost(self) -> u64
        requires small { AreSmall self }
        requires saved { self.saved ≤ self.closed + self.loads + self.paid }
        ensures { result + self.saved ≡ self.closed + self.loads + self.paid }
    {
        self.closed + self.loads + self.paid - self.saved
    }

    /// Whether the bound of the node, which isn't complete, is at least a cost, where every further list is the open one.
    pub(crate) fn reaches_in_last_list(self, cost: u64) -> bool
        requires small { AreSmall self }
        requires cost { cost ≤ 2 ^ 60 }
        ensures { result ≡ nat_le (cost + self.saved + self.greatest) (self.closed + self.loads + self.paid) }
    {
        cost + self.saved + self.greatest <= self.closed + self.loads + self.paid
    }

    /// And where the loads alone count.
    pub(crate) fn reaches_by_loads(self, cost: u64) -> bool
        requires { AreSmall self }
        ensures { result ≡ nat_le cost (self.closed + self.loads) }
    {
        cost <= self.closed + self.loads
    }

    /// The bound of the node, which isn't complete, where every further list is the open one.
    pub(crate) fn bound_in_last_list(self) -> i64
        requires { AreSmall self }
        ensures { result ≡ pos (self.closed + self.loads + self.paid) -ℤ pos (self.saved + self.greatest) }
    {
        (self.closed + self.loads + self.paid) as i64 - (self.saved + self.greatest) as i64
    }

    /// And where the loads alone count.
    pub(crate) fn bound_by_loads(self) -> i64
        requires { AreSmall self }
        ensures { result ≡ pos (self.closed + self.loads) }
    {
        (self.closed + self.loads) as i64
    }
}
