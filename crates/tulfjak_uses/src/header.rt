//! A C header of a package, with its docs.

use std::alloc::{AllocError, Global};
use tulfjak::PackageRef;
use tulfjak::package::{Docs, Type, TypeDefKind};
use tulfjak::refs::{FunctionRef, TypeRef};

/// Writes docs as comments.
fn push_docs(text: &mut String, docs: &Docs) -> Result<(), AllocError> {
    if let Some(contents) = &docs.contents {
        for line in contents.as_str().lines() {
            write!(text, "/// {line}\n")?;
        }
    }
    Ok(())
}

/// Writes the name that a type has in C: by its owner and its own name, or by its place.
fn push_type(text: &mut String, package: &PackageRef<'_>, ty: Type) -> Result<(), AllocError> {
    let Some(entry) = package.entry(ty) else {
        return write!(text, "wit_{ty:?}_t");
    };
    match entry.name() {
        Some(name) => write!(text, "{}_{name}_t", entry.owner_name().unwrap_or("wit")),
        None => write!(text, "wit_{}_t", entry.id().index()),
    }
}

/// Writes the declaration of a type: a record with its fields, another type without any.
fn push_definition(
    text: &mut String,
    package: &PackageRef<'_>,
    entry: &TypeRef<'_>,
) -> Result<(), AllocError> {
    push_docs(text, &entry.get().docs)?;
    text.push_str("typedef struct { ")?;
    if let TypeDefKind::Record(record) = &entry.get().kind {
        for field in record.fields.as_slice() {
            push_type(text, package, field.ty)?;
            write!(text, " {}; ", field.name)?;
        }
    }
    text.push_str("} ")?;
    push_type(text, package, Type::Id(entry.id()))?;
    text.push_str(";\n")
}

/// Writes the declaration of a function.
fn push_function(
    text: &mut String,
    package: &PackageRef<'_>,
    function: &FunctionRef<'_>,
) -> Result<(), AllocError> {
    push_docs(text, &function.get().docs)?;
    match function.get().result {
        Some(ty) => push_type(text, package, ty)?,
        None => text.push_str("void")?,
    }
    write!(text, " {}(wit_t *wit", function.item_name())?;
    for param in function.get().params.as_slice() {
        text.push_str(", ")?;
        push_type(text, package, param.ty)?;
    }
    text.push_str(");\n")
}

/// The declarations of a package's types and functions.
pub fn header(alloc: Global, package: &PackageRef<'_>) -> Result<String, AllocError> {
    let mut text = String::new(alloc);
    for entry in package.types() {
        push_definition(&mut text, package, &entry)?;
    }
    for interface in package.interfaces() {
        for function in interface.functions() {
            push_function(&mut text, package, &function)?;
        }
    }
    Ok(text)
}
