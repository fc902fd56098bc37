//! Setters after their getters.
ghost use Rattle.std.specs.Prelude.{◌≡◌, ◌<◌, Option, IfOk, OnErr, OnOk, length};
ghost use Rattle.std.specs.Option.{option_copied, option_map};
ghost use Rattle.wit_functions.specs.Order.{IsSetterOrder, PlacesSetters, SayAll, SaysAt};
ghost use Rattle.wit_functions.specs.SettersPlaced.{Computes, prefixes, is_getter};

use crate::function::{Function, FunctionKind};
use crate::function_map::FunctionMap;
use crate::placed::order_of;
use crate::reordering::Positions;
use std::alloc::{AllocError, Global};

/// Of a setter's kind, the prefix of its name and that of its getter's name; none for another kind.
pub fn prefixes(kind: FunctionKind) -> Option<(&'static str, &'static str)>
    ensures { option_map (λ p. (p.0.now, p.1.now)) result ≡ prefixes kind }
{
    match kind {
        FunctionKind::Setter => Some(("[set]", "[get]")),
        FunctionKind::MethodSetter(_) => Some(("[method][set]", "[method][get]")),
        FunctionKind::StaticSetter(_) => Some(("[static][set]", "[static][get]")),
        _ => None,
    }
}

/// Whether it is a getter's kind.
pub fn is_getter(kind: FunctionKind) -> bool
    ensures { result ≡ is_getter kind }
{
    matches!(
        kind,
        FunctionKind::Getter | FunctionKind::MethodGetter(_) | FunctionKind::StaticGetter(_)
    )
}

fn maybe_function<'a, V, F: Fn(&V) -> Option<&Function>>(
    func: &F,
    value: &'a V,
) -> Option<&'a Function>
    requires { F.IsAlwaysCallable func.now }
    ensures { (function_at : V → Option Function) → Computes F.Fn func.now function_at → option_copied result ≡ function_at value.now }
{
    func(value)
}

fn stated_at<'a, V: 'a, M: FunctionMap<V>, F: Fn(&V) -> Option<&Function>>(
    map: &'a M,
    place: usize,
    func: &F,
) -> Option<&'a Function>
    requires within { place < length (M.entries map.now) }
    requires callable { F.IsAlwaysCallable func.now }
    ensures { SaysAt F.Fn func.now (M.entries map.now) place result }
{
    maybe_function(func, map.value_at(place))
}

/// The places of a map, each with the function that is there.
fn stated_places<'a, V: 'a, M: FunctionMap<V>, F: Fn(&V) -> Option<&Function>>(
    alloc: Global,
    map: &'a M,
    func: &F,
) -> Result<Vec<(usize, Option<&'a Function>)>, AllocError>
    requires { F.IsAlwaysCallable func.now }
    ensures { IfOk result (λ maybe_function. SayAll F.Fn func.now (M.entries map.now) maybe_function.items) }
{
    let len = map.count();
    let mut places = Vec::with_capacity(alloc, len)?;
    for place in 0..len {
        places.push((place, stated_at(map, place, func)))?;
    }
    Ok(places)
}

/// The places of the entries of a map, in the order in which each setter that comes before its
/// getter comes directly after it instead.
fn map_order<V, M: FunctionMap<V>, F: Fn(&V) -> Option<&Function>>(
    alloc: Global,
    map: &M,
    func: &F,
) -> Result<Vec<usize>, AllocError>
    requires { F.IsAlwaysCallable func.now }
    ensures { IfOk result (λ order. IsSetterOrder F.Fn func.now (M.entries map.now) order.items) }
{
    let maybe_function = stated_places(alloc, map, func)?;
    let order = order_of(alloc, maybe_function)?;
    Ok(order)
}

/// Puts each setter that comes before its getter directly after it. All else, a setter that
/// comes after its getter too, keeps its order.
///
/// The map is an [`IndexMap`](indexmap::IndexMap), or a map of a package, as the functions of an interface
/// and the imports of a world. `func` gives the function of a value, if it is one, and always the same of
/// the same value. A setter's getter is the one whose name is the setter's with `[get]` for `[set]`. The
/// names of the functions are distinct. Without memory the map stays as it is.
pub fn place_setters_after_getters<V, M: FunctionMap<V>, F: Fn(&V) -> Option<&Function>>(
    map: &mut M,
    func: F,
) -> Result<(), AllocError>
    requires { F.IsAlwaysCallable func }
    ensures placed { OnOk result (PlacesSetters F.Fn func (M.entries map.old) (M.entries map.new)) }
    ensures unchanged { OnErr result (map.new ≡ map.old) }
{
    let alloc = map.alloc();
    let order = map_order(alloc, map, &func)?;
    let positions = Positions::new(alloc, map.count())?;
    map.reorder(positions, order);
    Ok(())
}
