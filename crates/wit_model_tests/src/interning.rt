//! Keys of types: their equality.
use wit_intern::{InternKey, laws};
use wit_types::{Type, TypeDefKind};

#[test]
fn keys(rt: HostRuntime) {
    let key = InternKey::List(Type::U8);
    assert!(rt; laws::is_same_key(&key, &key));
    laws::keys_determine(&TypeDefKind::Unknown, &TypeDefKind::Unknown);
}
