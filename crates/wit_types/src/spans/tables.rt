//! The spans of the values of a map; its keys have none.
ghost use Rattle.std.specs.Prelude.{◌≡◌, ◌<◌, Some, List, ℕ, length, map, slice_get};
ghost use Rattle.std.specs.Bool.{MatchBool};
ghost use Rattle.std.specs.List.{flat_map};
ghost use Rattle.std.specs.Map.{values_of};
ghost use Rattle.indexmap.specs.IndexMap.{set_value_at};
ghost use Rattle.wit_types.specs.Spans.{AllFit, on_value};

use crate::spans::HasSpans;
use std::hash::Hash;
use wit_maps::{Table, TextTable};

fn fits_at<K: Eq + Hash + Ord, V: HasSpans>(table: &Table<K, V>, place: usize, offset: u32) -> bool
    requires { place < length table.now }
    ensures { (e : K × V) → slice_get table.now place ≡ Some e → MatchBool result (AllFit offset (V.spans e.1)) (AllFit offset (V.spans e.1) → ⊥) }
{
    match table.get_index(place) {
        Some((_, value)) => value.spans_fit(offset),
        None => unreachable!(),
    }
}

fn adjust_at<K: Eq + Hash + Ord, V: HasSpans>(table: &mut Table<K, V>, place: usize, offset: u32)
    requires within { place < length table.old }
    requires fits { (e : K × V) → slice_get table.old place ≡ Some e → AllFit offset (V.spans e.1) }
    ensures { (e : K × V) → slice_get table.old place ≡ Some e → table.new ≡ set_value_at table.old place (V.moved offset e.1) }
{
    table.value_mut(place).adjust_spans(offset);
}

impl<K: Eq + Hash + Ord, V: HasSpans> HasSpans for Table<K, V> {
    ghost spans = { λ table. flat_map V.spans (values_of table) };

    ghost moved = { λ offset table. map (on_value (V.moved offset)) table };

    fn spans_fit(&self, offset: u32) -> bool {
        for place in 0..self.len() {
            if !fits_at(self, place, offset) {
                return false;
            }
        }
        true
    }

    fn adjust_spans(&mut self, offset: u32) {
        for place in 0..self.len() {
            adjust_at(self, place, offset);
        }
    }
}

fn text_fits_at<V: HasSpans>(table: &TextTable<V>, place: usize, offset: u32) -> bool
    requires { place < length table.now }
    ensures { (e : List ℕ × V) → slice_get table.now place ≡ Some e → MatchBool result (AllFit offset (V.spans e.1)) (AllFit offset (V.spans e.1) → ⊥) }
{
    match table.get_index(place) {
        Some((_, value)) => value.spans_fit(offset),
        None => unreachable!(),
    }
}

fn adjust_text_at<V: HasSpans>(table: &mut TextTable<V>, place: usize, offset: u32)
    requires within { place < length table.old }
    requires fits { (e : List ℕ × V) → slice_get table.old place ≡ Some e → AllFit offset (V.spans e.1) }
    ensures { (e : List ℕ × V) → slice_get table.old place ≡ Some e → table.new ≡ set_value_at table.old place (V.moved offset e.1) }
{
    table.value_mut(place).adjust_spans(offset);
}

impl<V: HasSpans> HasSpans for TextTable<V> {
    ghost spans = { λ table. flat_map V.spans (values_of table) };

    ghost moved = { λ offset table. map (on_value (V.moved offset)) table };

    fn spans_fit(&self, offset: u32) -> bool {
        for place in 0..self.len() {
            if !text_fits_at(self, place, offset) {
                return false;
            }
        }
        true
    }

    fn adjust_spans(&mut self, offset: u32) {
        for place in 0..self.len() {
            adjust_text_at(self, place, offset);
        }
    }
}
