//! Functions of packages.
ghost use Rattle.std.specs.Prelude.{◌≡◌, IfOk, IfSome};
ghost use Rattle.std.specs.Option.{option_map};
ghost use Rattle.wit_functions.specs.FunctionKinds.{resource_of};
ghost use Rattle.wit_functions.specs.Futures.{futures_of};
ghost use Rattle.wit_functions.specs.FunctionNames.{item_name};
ghost use Rattle.wit_resolved.specs.Left.{functions_from};
ghost use Rattle.wit_resolved.specs.Valid.{AreFunctionsValid, IsFunctionValid, IsValid};

use crate::type_ref::TypeRef;
use std::alloc::{AllocError, Global};
use wit_functions::Function;
use wit_maps::TextTable;
use wit_model::UnresolvedPackage;
use wit_types::TypeId;

/// A function of a resolved package.
#[derive(Clone, Copy)]
pub struct FunctionRef<'p> {
    pub(crate) of: &'p UnresolvedPackage,
    pub(crate) function: &'p Function,
    pub ghost valid: { ∥ IsValid of.now ∥₁ },
    pub ghost within: { ∥ IsFunctionValid of.now function.now ∥₁ },
}

impl<'p> FunctionRef<'p> {
    /// Its entry.
    pub fn get(&self) -> &'p Function
        ensures { result.now ≡ self.now.function.now }
    {
        self.function
    }

    /// The name of the item, without the marks of its kind: `f` of `[method]r.f`, and `constructor` of every
    /// constructor.
    pub fn item_name(&self) -> &'p str
        ensures { result.now ≡ item_name self.now.function.now.kind self.now.function.now.name }
    {
        self.function.item_name()
    }

    /// The resource that it belongs to, if it belongs to one.
    pub fn resource(&self) -> Option<TypeRef<'p>>
        ensures resource { option_map (λ t. t.place) result ≡ resource_of self.now.function.now.kind }
        ensures package { IfSome result (λ t. t.of.now ≡ self.now.of.now) }
    {
        match self.function.kind.resource() {
            Some(id) => Some(TypeRef {
                of: self.of,
                place: id.index(),
            }),
            None => None,
        }
    }

    /// The futures and streams in its parameters and then in its result: each after those below it, and as
    /// often as it occurs. Handles are not entered, and below a type of another package nothing is known.
    ///
    /// # Errors
    ///
    /// `AllocError` if an allocation failed.
    pub fn find_futures_and_streams(&self, alloc: Global) -> Result<Vec<TypeId>, AllocError>
        ensures { IfOk result (λ found. found.items ≡ futures_of self.now.of.now.types self.now.function.now) }
    {
        self.function
            .find_futures_and_streams(alloc, &self.of.types)
    }
}

/// The functions of an interface.
#[derive(Drop)]
pub struct FunctionRefs<'p> {
    pub(crate) of: &'p UnresolvedPackage,
    pub(crate) functions: &'p TextTable<Function>,
    pub(crate) next: usize,
    pub ghost valid: { ∥ IsValid of.now ∥₁ },
    pub ghost each: { ∥ AreFunctionsValid of.now functions.now ∥₁ },
}

impl<'p> Iterator for FunctionRefs<'p> {
    ghost use Rattle.std.specs.Iterator.{YieldsFirstBy, item_count};

    type Item = FunctionRef<'p>;

    ghost next_gives = { YieldsFirstBy
        (λ f. (f.of.now, f.function.now))
        (λ it. functions_from it.of.now it.functions.now it.next) };

    ghost remaining = { item_count (λ it. functions_from it.of.now it.functions.now it.next) };

    fn next(&mut self) -> Option<FunctionRef<'p>> {
        let (of, functions) = (self.of, self.functions);
        let at = self.next;
        let len = functions.len();
        if at >= len {
            return None;
        }
        self.next = at + 1;
        let Some((_, function)) = functions.get_index(at) else {
            unreachable!()
        };
        Some(FunctionRef { of, function })
    }
}
