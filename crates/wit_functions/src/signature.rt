//! The types in a function's signature.
ghost use Rattle.std.specs.Prelude.{◌≡◌};
ghost use Rattle.std.specs.Iterator.{YieldsFirst, item_count};
ghost use Rattle.wit_functions.specs.SignatureTypes.{is_shorthand, signature, types_left};

use crate::function::{Function, FunctionKind, Param};
use wit_types::{Handle, Type, TypeDefKind, Types};

/// The types of a function's parameters in order, then its result if there is one, and then no
/// more.
#[derive(Drop)]
pub struct ParamResultTypes<'a> {
    params: &'a [Param],
    result: Option<Type>,
}

impl<'a> Iterator for ParamResultTypes<'a> {
    type Item = Type;

    ghost next_gives = { YieldsFirst types_left };

    ghost remaining = { item_count types_left };

    fn next(&mut self) -> Option<Type> {
        match self.params.split_first() {
            Some((first, others)) => {
                self.params = others;
                Some(first.ty)
            }
            None => self.result.take(),
        }
    }
}

impl Function {
    /// The types of the parameters in order, and then the result.
    pub fn parameter_and_result_types(&self) -> ParamResultTypes<'_>
        ensures { types_left result ≡ signature self.now }
    {
        ParamResultTypes {
            params: self.params.as_slice(),
            result: self.result,
        }
    }

    /// Whether this is a constructor whose result is a type that owns the resource.
    ///
    /// An id of no entry of `types` owns nothing.
    pub fn is_constructor_shorthand(&self, types: &Types) -> bool
        ensures { result ≡ is_shorthand types.now self.now }
    {
        let FunctionKind::Constructor(resource) = self.kind else {
            return false;
        };
        let Some(Type::Id(id)) = self.result else {
            return false;
        };
        if id.index() >= types.len() {
            return false;
        }
        match &types.get(id).kind {
            TypeDefKind::Handle(Handle::Own(owned)) => resource == *owned,
            _ => false,
        }
    }
}
