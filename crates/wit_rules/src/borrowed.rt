//! Functions as they are written, before their types are resolved.
ghost use Rattle.std.specs.Prelude.{◌≡◌, ◌++◌, length, IfOk, string_bytes, codes};
ghost use Rattle.std.specs.Option.{option_map};
ghost use Rattle.wit_syntax.specs.Function.{accessor, all_params, resource_function};
ghost use Rattle.wit_syntax.specs.Sides.{role_side};
ghost use Rattle.wit_rules.specs.Signatures.{function_view, given_of, made_of, across_of};

use std::alloc::{AllocError, Global};
use wit_tree::Span;
use wit_tree::tree::{
    Attribute, Docs, Func, FuncForm, Id, NamedFunc, Param, ResourceFunc, Type, WorldSide,
};
use wit_values::Text;

/// A written function: one by itself, or one of a resource.
#[derive(Clone, Copy, Debug)]
pub enum BorrowedFunction<'t, 'a> {
    /// A function of an interface.
    Free(&'t NamedFunc<'a>),
    /// A function of the resource of this name.
    Of(Id<'a>, &'t ResourceFunc<'a>),
    /// A function that a world imports or exports: its side, its docs and attributes, its name and
    /// what comes after that.
    Across(WorldSide, &'t Docs<'a>, &'t [Attribute<'a>], Id<'a>, &'t Func<'a>),
}

/// The mark of an accessor in a function's name.
fn mark(form: FuncForm) -> &'static str
    ensures { result.now ≡ accessor form }
{
    match form {
        FuncForm::Plain | FuncForm::Async => "",
        FuncForm::Getter => "[get]",
        FuncForm::Setter => "[set]",
    }
}

/// Two texts, one after the other.
fn joined(alloc: Global, prefix: &str, back: &str) -> Result<String, AllocError>
    ensures { IfOk result (λ text. string_bytes text ≡ prefix.now ++ back.now) }
{
    let room = prefix.len().saturating_add(back.len());
    let mut text = String::with_capacity(alloc, room)?;
    text.push_str(prefix)?;
    text.push_str(back)?;
    Ok(text)
}

/// The name of a function by itself, with its mark.
fn free_name(alloc: Global, form: FuncForm, id: Id<'_>) -> Result<String, AllocError>
    ensures { IfOk result (λ name. string_bytes name ≡ accessor form ++ id.entry.name.now) }
{
    let name = id.name;
    match form {
        FuncForm::Plain | FuncForm::Async => String::from_str(alloc, name),
        FuncForm::Getter | FuncForm::Setter => joined(alloc, mark(form), name),
    }
}

/// The name of a member of a resource, after a word for what it is and its mark.
fn member_name(
    alloc: Global,
    word: &str,
    mark: &str,
    of: Id<'_>,
    name: Id<'_>,
) -> Result<String, AllocError>
    ensures { IfOk result (λ text. string_bytes text ≡ word.now ++ mark.now ++ (of.entry.name.now ++ codes "." ++ name.entry.name.now)) }
{
    let prefix = word.len().saturating_add(mark.len());
    let dotted = of.name.len().saturating_add(name.name.len());
    let room = prefix.saturating_add(dotted).saturating_add(1);
    let mut text = String::with_capacity(alloc, room)?;
    text.push_str(word)?;
    text.push_str(mark)?;
    text.push_str(of.name)?;
    text.push_str(".")?;
    text.push_str(name.name)?;
    Ok(text)
}

/// The name of a function of a resource, with the marks of what it is.
fn resource_name(
    alloc: Global,
    resource: Id<'_>,
    function: &ResourceFunc<'_>,
) -> Result<String, AllocError>
    ensures { IfOk result (λ name. string_bytes name ≡ (resource_function resource.entry function.now).name) }
{
    match function {
        ResourceFunc::Method(f) => {
            member_name(alloc, "[method]", mark(f.func.form), resource, f.name)
        }
        ResourceFunc::Static(f) => {
            member_name(alloc, "[static]", mark(f.func.form), resource, f.name)
        }
        ResourceFunc::Constructor { .. } => joined(alloc, "[constructor]", resource.name),
    }
}

impl<'t, 'a> BorrowedFunction<'t, 'a> {
    /// The name with the marks of what it is, as `[method]r.f`.
    pub fn name(self, alloc: Global) -> Result<Text, AllocError>
        ensures { IfOk result (λ name. name ≡ (function_view self.entry).name) }
    {
        let name = match self {
            BorrowedFunction::Free(f) => free_name(alloc, f.func.form, f.name)?,
            BorrowedFunction::Of(resource, f) => resource_name(alloc, resource, f)?,
            BorrowedFunction::Across(_, _, _, name, f) => free_name(alloc, f.form, name)?,
        };
        Ok(Text::from(name))
    }

    /// The resource that it is first given, lent: that of a method.
    pub fn given(self) -> Option<Id<'a>>
        ensures { result ≡ given_of (function_view self.entry).role }
    {
        match self {
            BorrowedFunction::Of(resource, ResourceFunc::Method(_)) => Some(resource),
            BorrowedFunction::Of(_, ResourceFunc::Static(_) | ResourceFunc::Constructor { .. })
            | BorrowedFunction::Free(_)
            | BorrowedFunction::Across(_, _, _, _, _) => None,
        }
    }

    /// The resource that it makes: that of a constructor.
    pub fn made(self) -> Option<Id<'a>>
        ensures { result ≡ made_of (function_view self.entry).role }
    {
        match self {
            BorrowedFunction::Of(resource, ResourceFunc::Constructor { .. }) => Some(resource),
            BorrowedFunction::Of(_, ResourceFunc::Method(_) | ResourceFunc::Static(_))
            | BorrowedFunction::Free(_)
            | BorrowedFunction::Across(_, _, _, _, _) => None,
        }
    }

    /// The side of a world that imports or exports it, if one does.
    pub fn across(self) -> Option<WorldSide>
        ensures { result ≡ across_of (function_view self.entry).role }
    {
        match self {
            BorrowedFunction::Free(_) | BorrowedFunction::Of(_, _) => None,
            BorrowedFunction::Across(side, _, _, _, _) => Some(side),
        }
    }

    /// The side of a world that it is on; a function of an interface or of a resource is where
    /// imports do.
    pub fn side(self) -> WorldSide
        ensures { result ≡ role_side (function_view self.entry).role }
    {
        match self {
            BorrowedFunction::Free(_) | BorrowedFunction::Of(_, _) => WorldSide::Imported,
            BorrowedFunction::Across(side, _, _, _, _) => side,
        }
    }

    /// The form of the word that begins its signature; that of a constructor is plain.
    pub fn form(self) -> FuncForm
        ensures { result ≡ (function_view self.entry).func.form }
    {
        match self {
            BorrowedFunction::Free(f) => f.func.form,
            BorrowedFunction::Across(_, _, _, _, f) => f.form,
            BorrowedFunction::Of(_, ResourceFunc::Method(f) | ResourceFunc::Static(f)) => f
                .func
                .form,
            BorrowedFunction::Of(_, ResourceFunc::Constructor { .. }) => FuncForm::Plain,
        }
    }

    /// The place of its written name; that of a constructor is the word.
    pub fn span(self) -> Span
        ensures { result ≡ (function_view self.entry).span }
    {
        match self {
            BorrowedFunction::Free(f) => f.name.span,
            BorrowedFunction::Across(_, _, _, name, _) => name.span,
            BorrowedFunction::Of(_, ResourceFunc::Method(f) | ResourceFunc::Static(f)) => f
                .name
                .span,
            BorrowedFunction::Of(_, ResourceFunc::Constructor { span, .. }) => *span,
        }
    }

    /// The place of the word that begins its signature.
    pub fn word(self) -> Span
        ensures { result ≡ (function_view self.entry).func.span }
    {
        match self {
            BorrowedFunction::Free(f) => f.func.span,
            BorrowedFunction::Across(_, _, _, _, f) => f.span,
            BorrowedFunction::Of(_, ResourceFunc::Method(f) | ResourceFunc::Static(f)) => f
                .func
                .span,
            BorrowedFunction::Of(_, ResourceFunc::Constructor { span, .. }) => *span,
        }
    }

    /// Its written parameters.
    pub fn params(self) -> &'t [Param<'a>]
        ensures { result.now ≡ (function_view self.entry).func.params.items }
    {
        match self {
            BorrowedFunction::Free(f) => &f.func.params,
            BorrowedFunction::Across(_, _, _, _, f) => &f.params,
            BorrowedFunction::Of(_, ResourceFunc::Method(f) | ResourceFunc::Static(f)) => &f
                .func
                .params,
            BorrowedFunction::Of(_, ResourceFunc::Constructor { params, .. }) => params,
        }
    }

    /// How many parameters it has, with those that it is given.
    pub fn param_count(self) -> usize
        ensures { result ≡ length (all_params (function_view self.entry)) }
    {
        let written = self.params().len();
        match self {
            BorrowedFunction::Free(_) | BorrowedFunction::Across(_, _, _, _, _) => written,
            BorrowedFunction::Of(_, ResourceFunc::Method(_)) => written + 1,
            BorrowedFunction::Of(_, ResourceFunc::Static(_)) => written,
            BorrowedFunction::Of(_, ResourceFunc::Constructor { .. }) => written,
        }
    }

    /// The type that is written as its result, if one is.
    pub fn result(self) -> Option<&'t Type<'a>>
        ensures { option_map (λ t. t.now) result ≡ (function_view self.entry).func.result }
    {
        match self {
            BorrowedFunction::Free(f) => f.func.result.as_ref(),
            BorrowedFunction::Across(_, _, _, _, f) => f.result.as_ref(),
            BorrowedFunction::Of(_, ResourceFunc::Method(f) | ResourceFunc::Static(f)) => f
                .func
                .result
                .as_ref(),
            BorrowedFunction::Of(_, ResourceFunc::Constructor { result, .. }) => result.as_ref(),
        }
    }

    /// The docs before it.
    pub fn docs(self) -> &'t Docs<'a>
        ensures { result.now ≡ (function_view self.entry).docs }
    {
        match self {
            BorrowedFunction::Free(f) => &f.docs,
            BorrowedFunction::Across(_, docs, _, _, _) => docs,
            BorrowedFunction::Of(_, ResourceFunc::Method(f) | ResourceFunc::Static(f)) => &f.docs,
            BorrowedFunction::Of(_, ResourceFunc::Constructor { docs, .. }) => docs,
        }
    }

    /// The attributes before it.
    pub fn attributes(self) -> &'t [Attribute<'a>]
        ensures { result.now ≡ (function_view self.entry).attributes }
    {
        match self {
            BorrowedFunction::Free(f) => &f.attributes,
            BorrowedFunction::Across(_, _, attributes, _, _) => attributes,
            BorrowedFunction::Of(_, ResourceFunc::Method(f) | ResourceFunc::Static(f)) =>
                &f.attributes,
            BorrowedFunction::Of(_, ResourceFunc::Constructor { attributes, .. }) => attributes,
        }
    }
}
