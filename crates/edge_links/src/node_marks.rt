//! Marks on names, viewed as marks on nodes.

ghost use Rattle.std.specs.Prelude.{◌≡◌, ◌&&◌, ◌/◌, ◌%◌, nat_eq};

use crate::marks::Marks;

// The marks of names, each on the first node of its name. The other nodes have no mark.
#[derive(Drop)]
pub(crate) struct NodeMarks<K: Marks> {
    pub(crate) names: K,
}

impl<K: Marks> Marks for NodeMarks<K> {
    ghost is_marked = { λ marks node. nat_eq (node % 2) 0 && K.is_marked marks.names (node / 2) };

    ghost stays = { λ old new. K.stays old.names new.names };

    ghost stays_at_first = { λ marks. K.stays_at_first marks.names };

    ghost stays_on = { λ old mid new first then. K.stays_on old.names mid.names new.names first then };

    fn clear(&mut self, node: usize) {
        if node % 2 == 0 {
            self.names.clear(node / 2);
        }
    }
}
