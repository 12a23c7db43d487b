//! The stored outcomes of settled names, by number.

use edge_links::Marks;
use tree_eval::Outcome;

// Whether each name is settled, the number of settled names, and the outcome of each.
#[derive(Drop)]
pub(crate) struct Kept {
    pub(crate) settled: Vec<bool>,
    pub(crate) count: usize,
    pub(crate) outcomes: Vec<Option<Outcome>>,
}

impl Marks for Kept {
    ghost use Rattle.std.specs.Prelude.{slice_index_or, false};
    ghost use Rattle.live_table.specs.OutcomesLeft.{AreSettledNumbersLeft, settled_numbers_left_at_first};
    ghost use Rattle.live_table.specs.OutcomesLeft.{settled_numbers_left_in_turn};

    ghost is_marked = { λ kept n. slice_index_or kept.settled.items n false };

    ghost stays = { λ old new. AreSettledNumbersLeft old.settled.items new.settled.items old.count new.count
        old.outcomes.items new.outcomes.items };

    ghost stays_at_first = { λ kept. settled_numbers_left_at_first kept.settled.items kept.count kept.outcomes.items };

    ghost stays_on = { λ old mid new first then. settled_numbers_left_in_turn old.settled.items mid.settled.items
        new.settled.items
        old.count mid.count new.count old.outcomes.items mid.outcomes.items new.outcomes.items first then };

    fn clear(&mut self, n: usize) {
        if n < self.settled.len() && self.settled[n] {
            self.settled[n] = false;
            self.count = self.count.saturating_sub(1);
            if n < self.outcomes.len() {
                self.outcomes[n] = None;
            }
        }
    }
}
