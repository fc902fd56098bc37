//! The spans of the values of a row.
ghost use Rattle.std.specs.Prelude.{◌≡◌, ◌<◌, Some, length, map, slice_get, slice_set};
ghost use Rattle.std.specs.List.{flat_map};
ghost use Rattle.wit_types.specs.Spans.{AllFit};

use crate::spans::HasSpans;
use wit_values::Row;

fn adjust_at<T: HasSpans>(row: &mut Row<T>, place: usize, offset: u32)
    requires within { place < length row.old }
    requires fits { (x : T) → slice_get row.old place ≡ Some x → AllFit offset (T.spans x) }
    ensures { (x : T) → slice_get row.old place ≡ Some x → row.new ≡ slice_set row.old place (T.moved offset x) }
{
    row.get_mut(place).adjust_spans(offset);
}

impl<T: HasSpans> HasSpans for Row<T> {
    ghost spans = { flat_map T.spans };

    ghost moved = { λ offset row. map (T.moved offset) row };

    fn spans_fit(&self, offset: u32) -> bool {
        let values = self.as_slice();
        for place in 0..values.len() {
            if !values[place].spans_fit(offset) {
                return false;
            }
        }
        true
    }

    fn adjust_spans(&mut self, offset: u32) {
        for place in 0..self.len() {
            adjust_at(self, place, offset);
        }
    }
}
