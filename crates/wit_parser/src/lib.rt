//! The resolver: from parsed files to one package, or to the rule that is broken.
//!
//! Re-exports what a caller needs: trees, names, orders and the data of a package.
#![tactic(auto)]

pub mod laws;
pub mod resolver;

pub use resolver::Resolver;
pub use wit_files::{FileNames, Found, Visit, Wanted, visits};
pub use wit_model::{
    AbiVariant, Arena, Arenas, AstItem, Case, Docs, Enum, EnumCase, Field, Flag, Flags, FlagsRepr,
    ForeignItems, Function, FunctionKind, FunctionMap, Handle, HasSpans, Id, IncludeName, Int,
    Interface, InterfaceId, LiftLowerAbi, Mangling, ManglingAndAbi, ManglingFault, PackageId,
    PackageName, Param, ParamResultTypes, Record, Result_, Stability, Tuple, Type, TypeDef,
    TypeDefKind, TypeId, TypeOwner, UnresolvedPackage, Variant, World, WorldId, WorldInclude,
    WorldItem, WorldKey, discriminant_type, get_name, is_backward, place_setters_after_getters,
    reaches_unknown, world_item_func,
};
pub use wit_names::{
    Folded, LabelFault, getter_for_setter, is_mangled, split_canonical, validate_id,
};
pub use wit_notes::{docs, external_id, package_name, stability};
pub use wit_order::{NameTable, Steps, order_steps, toposort, toposort_heap};
pub use wit_refusals::{NameScope, check_unique_names};
pub use wit_tree::{AccessorKind, ParseError, ParseErrorKind, ParseResult, Span, tree};
