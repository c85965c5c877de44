//! The kinds of heads that definitions name.

ghost use Rattle.std.specs.Prelude.{◌≡◌, ◌↔◌, Some, IsTrue, IfSome};
ghost use Rattle.attr_value.specs.Bases as spec;
ghost use Rattle.attr_value.specs.Bases.{base_name};

use crate::head::Head;
use crate::kind::{FloatKind, IntKind, ShapeKind};

/// A kind of head. Each head but those of dialects is of one kind.
#[derive(Clone, Copy, Debug, PartialEq, Eq)]
pub enum BaseKind {
    /// An integer type other than `index`.
    Integer,
    /// The type `index`.
    Index,
    /// The type `none`.
    NoneType,
    /// A float type, each of a kind of its own.
    Float(FloatKind),
    /// A function type.
    Function,
    /// A tuple type.
    Tuple,
    /// A vector type.
    Vector,
    /// A tensor type.
    Tensor,
    /// A memref type.
    Memref,
    /// A complex type.
    Complex,
    /// A number of any integer type.
    IntegerAttr,
    /// A string.
    StrAttr,
    /// The unit attribute.
    UnitAttr,
    /// An array.
    ArrayAttr,
    /// A dictionary.
    DictAttr,
    /// A reference to a symbol.
    SymbolAttr,
    /// A dense array.
    DenseAttr,
}

/// All kinds.
const BASES: [BaseKind; 23] = [
    BaseKind::Integer,
    BaseKind::Index,
    BaseKind::NoneType,
    BaseKind::Float(FloatKind::Bf16),
    BaseKind::Float(FloatKind::F16),
    BaseKind::Float(FloatKind::Tf32),
    BaseKind::Float(FloatKind::F32),
    BaseKind::Float(FloatKind::F64),
    BaseKind::Float(FloatKind::F80),
    BaseKind::Float(FloatKind::F128),
    BaseKind::Function,
    BaseKind::Tuple,
    BaseKind::Vector,
    BaseKind::Tensor,
    BaseKind::Memref,
    BaseKind::Complex,
    BaseKind::IntegerAttr,
    BaseKind::StrAttr,
    BaseKind::UnitAttr,
    BaseKind::ArrayAttr,
    BaseKind::DictAttr,
    BaseKind::SymbolAttr,
    BaseKind::DenseAttr,
];

/// The name of a kind in definition files.
fn name(base: BaseKind) -> &'static [u8]
    ensures { result.now ≡ base_name base }
{
    match base {
        BaseKind::Integer => b"!builtin.integer",
        BaseKind::Index => b"!builtin.index",
        BaseKind::NoneType => b"!builtin.none",
        BaseKind::Float(FloatKind::Bf16) => b"!builtin.bf16",
        BaseKind::Float(FloatKind::F16) => b"!builtin.f16",
        BaseKind::Float(FloatKind::Tf32) => b"!builtin.tf32",
        BaseKind::Float(FloatKind::F32) => b"!builtin.f32",
        BaseKind::Float(FloatKind::F64) => b"!builtin.f64",
        BaseKind::Float(FloatKind::F80) => b"!builtin.f80",
        BaseKind::Float(FloatKind::F128) => b"!builtin.f128",
        BaseKind::Function => b"!builtin.function",
        BaseKind::Tuple => b"!builtin.tuple",
        BaseKind::Vector => b"!builtin.vector",
        BaseKind::Tensor => b"!builtin.tensor",
        BaseKind::Memref => b"!builtin.memref",
        BaseKind::Complex => b"!builtin.complex",
        BaseKind::IntegerAttr => b"#builtin.integer",
        BaseKind::StrAttr => b"#builtin.string",
        BaseKind::UnitAttr => b"#builtin.unit",
        BaseKind::ArrayAttr => b"#builtin.array",
        BaseKind::DictAttr => b"#builtin.dictionary",
        BaseKind::SymbolAttr => b"#builtin.symbol_ref",
        BaseKind::DenseAttr => b"#builtin.dense_array",
    }
}

/// The first of some kinds that has this name.
fn first_named(bases: &[BaseKind], s: &[u8]) -> Option<BaseKind>
    ensures { result ≡ spec.first_named bases.now s.now }
{
    bases.iter().copied().find(|base| name(*base) == s)
}

/// The kind of this name. `None` exactly where no kind has it. It takes no memory.
pub fn base_named(s: &[u8]) -> Option<BaseKind>
    ensures some { IfSome result (λ base. base_name base ≡ s.now) }
    ensures only { (base : BaseKind) → base_name base ≡ s.now → result ≡ Some base }
{
    first_named(&BASES, s)
}

/// The kind of a head; `None` for a type or attribute of a dialect.
fn base_of(head: &Head) -> Option<BaseKind>
    ensures { result ≡ spec.base_of head.now }
{
    match head {
        Head::Int(IntKind::Index) => Some(BaseKind::Index),
        Head::Int(_) => Some(BaseKind::Integer),
        Head::NoneType => Some(BaseKind::NoneType),
        Head::Float(kind) => Some(BaseKind::Float(*kind)),
        Head::Function { .. } => Some(BaseKind::Function),
        Head::Tuple => Some(BaseKind::Tuple),
        Head::Shaped { kind, .. } => match kind {
            ShapeKind::Vector => Some(BaseKind::Vector),
            ShapeKind::Tensor => Some(BaseKind::Tensor),
            ShapeKind::Memref => Some(BaseKind::Memref),
        },
        Head::Complex => Some(BaseKind::Complex),
        Head::Number { .. } => Some(BaseKind::IntegerAttr),
        Head::Str(_) => Some(BaseKind::StrAttr),
        Head::Unit => Some(BaseKind::UnitAttr),
        Head::Array => Some(BaseKind::ArrayAttr),
        Head::Dict { .. } => Some(BaseKind::DictAttr),
        Head::Symbol { .. } => Some(BaseKind::SymbolAttr),
        Head::Dense { .. } => Some(BaseKind::DenseAttr),
        Head::Dialect { .. } => None,
    }
}

/// Whether a head is of a kind. It takes no memory.
pub fn is_base(head: &Head, base: BaseKind) -> bool
    ensures { IsTrue result ↔ spec.IsOfBase head.now base }
{
    base_of(head) == Some(base)
}
