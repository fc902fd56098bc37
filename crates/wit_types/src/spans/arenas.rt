//! The spans of the values of an arena.
ghost use Rattle.std.specs.Prelude.{◌≡◌, ◌<◌, Some, length, map, slice_get, slice_set};
ghost use Rattle.std.specs.List.{flat_map};
ghost use Rattle.wit_types.specs.Spans.{AllFit};

use crate::arena::Arena;
use crate::spans::HasSpans;

fn adjust_at<T: HasSpans, M>(arena: &mut Arena<T, M>, place: usize, offset: u32)
    requires within { place < length arena.old }
    requires fits { (x : T) → slice_get arena.old place ≡ Some x → AllFit offset (T.spans x) }
    ensures { (x : T) → slice_get arena.old place ≡ Some x → arena.new ≡ slice_set arena.old place (T.moved offset x) }
{
    let id = arena.id_at(place);
    arena.get_mut(id).adjust_spans(offset);
}

impl<T: HasSpans, M> HasSpans for Arena<T, M> {
    ghost spans = { flat_map T.spans };

    ghost moved = { λ offset arena. map (T.moved offset) arena };

    fn spans_fit(&self, offset: u32) -> bool {
        let values = self.as_slice();
        for place in 0..values.len() {
            if !values[place].spans_fit(offset) {
                return false;
            }
        }
        true
    }

    fn adjust_spans(&mut self, offset: u32) {
        for place in 0..self.len() {
            adjust_at(self, place, offset);
        }
    }
}
