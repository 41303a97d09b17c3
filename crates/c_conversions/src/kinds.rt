//! Types of values: ISO 9899:1990 6.1.2.5, 6.2.1.5 and 6.3.2.2.
ghost use Rattle.std.specs.Prelude.{◌≡◌, ◌<◌, ◌+◌, ◌^◌, SomeIff};
ghost use Rattle.c_rules.specs.Kinds as kinds;

use c_rules::Class;
use c_tree::{Base, ScalarType};

/// The type int.
pub const INT: ScalarType = ScalarType {
    base: Base::Int,
    stars: 0,
};

/// The type unsigned int.
pub const UNSIGNED: ScalarType = ScalarType {
    base: Base::Unsigned,
    stars: 0,
};

/// The type of a pointer to void.
pub(crate) const VOID_POINTER: ScalarType = ScalarType {
    base: Base::Void,
    stars: 1,
};

/// The class of a type.
pub fn class_of(kind: Option<ScalarType>) -> Class
    ensures { result ≡ kinds.class_of kind }
{
    match kind {
        None => Class::Nothing,
        Some(kind) if kind.stars > 0 => Class::Pointer,
        Some(_) => Class::Integer,
    }
}

/// Whether two types are one.
pub fn same_type(a: ScalarType, b: ScalarType) -> bool
    ensures { result ≡ kinds.same_type a b }
{
    same_base(a.base, b.base) && a.stars == b.stars
}

fn same_base(a: Base, b: Base) -> bool
    ensures { result ≡ kinds.same_base a b }
{
    matches!(
        (a, b),
        (Base::Void, Base::Void) | (Base::Int, Base::Int) | (Base::Unsigned, Base::Unsigned)
    )
}

/// Whether two types are one, and neither is void.
pub fn same_kind(a: Option<ScalarType>, b: Option<ScalarType>) -> bool
    ensures { result ≡ kinds.same_kind a b }
{
    match (a, b) {
        (Some(a), Some(b)) => same_type(a, b),
        _ => false,
    }
}

/// Whether a type is that of a pointer to void.
pub fn is_void_pointer(kind: Option<ScalarType>) -> bool
    ensures { result ≡ kinds.is_void_pointer kind }
{
    same_kind(kind, Some(VOID_POINTER))
}

/// What int with unsigned gives.
pub fn common(a: ScalarType, b: ScalarType) -> ScalarType
    ensures { result ≡ kinds.common a b }
{
    if same_type(a, UNSIGNED) || same_type(b, UNSIGNED) {
        UNSIGNED
    } else {
        INT
    }
}

/// The type of a pointer to an object of this type, where its stars can be counted.
pub fn pointer_to(kind: ScalarType) -> Option<ScalarType>
    ensures { SomeIff result (kind.stars + 1 < 2 ^ 32) (kinds.pointer_to kind) }
{
    Some(ScalarType {
        base: kind.base,
        stars: kind.stars.checked_add(1)?,
    })
}

/// A base with its stars.
pub fn starred(base: Base, stars: u32) -> Option<ScalarType>
    ensures { result ≡ kinds.starred base stars }
{
    match base {
        Base::Void if stars == 0 => None,
        _ => Some(ScalarType { base, stars }),
    }
}

/// What a pointer points to.
pub fn pointed(kind: ScalarType) -> Option<ScalarType>
    requires { 0 < kind.stars }
    ensures { result ≡ kinds.pointed kind }
{
    starred(kind.base, kind.stars - 1)
}
