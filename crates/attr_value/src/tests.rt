//! That calls succeed, that equal values have equal hashes, and that a type may hold itself
//! through a list. Expected values are written by hand.
use super::*;
use std::alloc::{AllocError, Global};
use std::hash::{DefaultHasher, Hash, Hasher};
use std::test::Fail;

// A name and the trees below it.
#[cycle(tree)]
#[derive(Drop)]
struct Tree {
    name: Text,
    kids: List<Tree>,
}

// A tree without kids.
fn leaf(alloc: Global, name: &[u8]) -> Result<Tree, AllocError> {
    Ok(Tree {
        name: Text::from_slice(alloc, name)?,
        kids: List::new(alloc),
    })
}

// Whether a tree has this name, or one below it.
fn has(tree: &Tree, name: &[u8]) -> bool {
    if tree.name.bytes() == name {
        return true;
    }
    for kid in tree.kids.as_slice() {
        if has(kid, name) {
            return true;
        }
    }
    false
}

#[test]
fn a_type_may_hold_itself_through_a_list(rt: HostRuntime) -> Result<(), Fail> {
    let mut below = leaf(rt.alloc(), b"below")?;
    below.kids.push(leaf(rt.alloc(), b"lowest")?)?;
    let mut top = leaf(rt.alloc(), b"top")?;
    top.kids.push(leaf(rt.alloc(), b"beside")?)?;
    top.kids.push(below)?;
    for (name, want) in [
        (b"top".as_slice(), true),
        (b"lowest", true),
        (b"low", false),
    ] {
        assert_eq!(rt; has(&top, name), want);
    }
    Ok(())
}

fn hash_of<T: Hash>(value: &T) -> u64 {
    let mut state = DefaultHasher::new();
    value.hash(&mut state);
    state.finish()
}

#[test]
fn texts_and_lists_are_equal_by_their_items(rt: HostRuntime) -> Result<(), Fail> {
    for (a, b, same) in [
        (b"".as_slice(), b"".as_slice(), true),
        (b"ab", b"ab", true),
        (b"ab", b"abc", false),
        (b"ab", b"aB", false),
        (b"\x00\xff", b"\x00\xff", true),
        (b"fourteen bytes", b"fourteen bytes", true),
        (b"fourteen bytes", b"fourteen bytes.", false),
        (b"fifteen bytes..", b"fifteen bytes..", true),
        (b"fifteen bytes..", b"fifteen bytes.,", false),
    ] {
        let texts = (
            Text::from_slice(rt.alloc(), a)?,
            Text::from_vec(rt.alloc(), Vec::from_slice(rt.alloc(), b)?)?,
        );
        assert_eq!(rt; texts.0.bytes(), a);
        assert_eq!(rt; texts.0 == texts.1, same);
        assert_eq!(rt; hash_of(&texts.0) == hash_of(&texts.1), same);
        let mut lists = (List::new(rt.alloc()), List::new(rt.alloc()));
        lists.0.push(texts.0)?;
        lists.1.push(texts.1)?;
        assert_eq!(rt; lists.0 == lists.1, same);
        assert_eq!(rt; hash_of(&lists.0) == hash_of(&lists.1), same);
    }
    Ok(())
}

#[test]
fn items_stay_in_the_order_of_their_pushes(rt: HostRuntime) -> Result<(), Fail> {
    let mut kinds = List::new(rt.alloc());
    for kind in [IntKind::Signless(32), IntKind::Index, IntKind::Unsigned(32)] {
        kinds.push(kind)?;
    }
    let want = [IntKind::Signless(32), IntKind::Index, IntKind::Unsigned(32)];
    assert_eq!(rt; kinds.as_slice(), want.as_slice());
    assert_eq!(rt; (kinds.get(2), kinds.get(3)), (want.get(2), None));
    assert!(rt; kinds.len() == 3 && !kinds.is_empty() && kinds.iter().eq(want.iter()));
    assert!(rt; IntKind::Signed(32) != IntKind::Signless(32));
    assert!(rt; ShapeKind::Vector != ShapeKind::Tensor && ShapeKind::Tensor != ShapeKind::Memref);
    Ok(())
}

#[test]
fn a_number_is_kept_by_the_range_of_its_kind(rt: HostRuntime) {
    let half = 1i128 << 63;
    for (kind, n, want) in [
        (IntKind::Signless(8), 255, Some(-1)),
        (IntKind::Signless(8), 256, None),
        (IntKind::Signless(8), 128, Some(-128)),
        (IntKind::Signless(8), 127, Some(127)),
        (IntKind::Signless(8), -128, Some(-128)),
        (IntKind::Signless(8), -129, None),
        (IntKind::Signless(1), 1, Some(-1)),
        (IntKind::Signless(1), 0, Some(0)),
        (IntKind::Signless(1), -1, Some(-1)),
        (IntKind::Signless(1), 2, None),
        (IntKind::Signless(1), -2, None),
        (IntKind::Signless(64), half, Some(-half)),
        (IntKind::Signless(64), 2 * half - 1, Some(-1)),
        (IntKind::Signless(64), 2 * half, None),
        (IntKind::Signless(64), -half, Some(-half)),
        (IntKind::Signless(64), -half - 1, None),
        (IntKind::Signless(0), 0, None),
        (IntKind::Signless(65), 0, None),
        (IntKind::Signed(8), 127, Some(127)),
        (IntKind::Signed(8), 128, None),
        (IntKind::Signed(8), -128, Some(-128)),
        (IntKind::Signed(8), -129, None),
        (IntKind::Signed(1), 0, Some(0)),
        (IntKind::Signed(1), 1, None),
        (IntKind::Signed(64), half - 1, Some(half - 1)),
        (IntKind::Signed(64), half, None),
        (IntKind::Signed(0), 0, None),
        (IntKind::Signed(65), 0, None),
        (IntKind::Unsigned(8), 255, Some(255)),
        (IntKind::Unsigned(8), 256, None),
        (IntKind::Unsigned(8), 0, Some(0)),
        (IntKind::Unsigned(8), -1, None),
        (IntKind::Unsigned(64), 2 * half - 1, Some(2 * half - 1)),
        (IntKind::Unsigned(64), 2 * half, None),
        (IntKind::Unsigned(0), 0, None),
        (IntKind::Unsigned(65), 0, None),
        (IntKind::Index, half - 1, Some(half - 1)),
        (IntKind::Index, half, None),
        (IntKind::Index, -half, Some(-half)),
        (IntKind::Index, -half - 1, None),
    ] {
        assert_eq!(rt; residue(kind, n), want);
    }
}

#[test]
fn kinds_of_heads_have_names(rt: HostRuntime) {
    for (name, want) in [
        (b"!builtin.integer".as_slice(), Some(BaseKind::Integer)),
        (b"!builtin.index", Some(BaseKind::Index)),
        (b"!builtin.none", Some(BaseKind::NoneType)),
        (b"!builtin.bf16", Some(BaseKind::Float(FloatKind::Bf16))),
        (b"!builtin.f16", Some(BaseKind::Float(FloatKind::F16))),
        (b"!builtin.tf32", Some(BaseKind::Float(FloatKind::Tf32))),
        (b"!builtin.f32", Some(BaseKind::Float(FloatKind::F32))),
        (b"!builtin.f64", Some(BaseKind::Float(FloatKind::F64))),
        (b"!builtin.f80", Some(BaseKind::Float(FloatKind::F80))),
        (b"!builtin.f128", Some(BaseKind::Float(FloatKind::F128))),
        (b"!builtin.function", Some(BaseKind::Function)),
        (b"!builtin.tuple", Some(BaseKind::Tuple)),
        (b"!builtin.vector", Some(BaseKind::Vector)),
        (b"!builtin.tensor", Some(BaseKind::Tensor)),
        (b"!builtin.memref", Some(BaseKind::Memref)),
        (b"!builtin.complex", Some(BaseKind::Complex)),
        (b"#builtin.integer", Some(BaseKind::IntegerAttr)),
        (b"#builtin.string", Some(BaseKind::StrAttr)),
        (b"#builtin.unit", Some(BaseKind::UnitAttr)),
        (b"#builtin.array", Some(BaseKind::ArrayAttr)),
        (b"#builtin.dictionary", Some(BaseKind::DictAttr)),
        (b"#builtin.symbol_ref", Some(BaseKind::SymbolAttr)),
        (b"#builtin.dense_array", Some(BaseKind::DenseAttr)),
        (b"", None),
        (b"!builtin", None),
        (b"!builtin.", None),
        (b"builtin.integer", None),
        (b"!builtin.integers", None),
        (b"!builtin.intege", None),
        (b"#builtin.index", None),
        (b"!builtin.string", None),
        (b"!builtin.f8", None),
        (b"!Builtin.f32", None),
        (b"#builtin.symbol", None),
    ] {
        assert_eq!(rt; base_named(name), want);
    }
}

#[test]
fn a_head_says_what_it_is(rt: HostRuntime) -> Result<(), Fail> {
    let alloc = rt.alloc();
    let mut keys = List::new(alloc);
    keys.push(Text::from_slice(alloc, b"a")?)?;
    let name = Text::from_slice(alloc, b"d.t")?;
    let vector = Head::Shaped {
        kind: ShapeKind::Vector,
        dims: List::from_slice(alloc, &[Dim::Known(4)])?,
    };
    for (head, base, is_type, kids) in [
        (
            Head::Int(IntKind::Index),
            BaseKind::Index,
            true,
            [true, false, false],
        ),
        (
            Head::Int(IntKind::Signed(8)),
            BaseKind::Integer,
            true,
            [true, false, false],
        ),
        (
            Head::Float(FloatKind::F32),
            BaseKind::Float(FloatKind::F32),
            true,
            [true, false, false],
        ),
        (
            Head::Function { inputs: 1 },
            BaseKind::Function,
            true,
            [false, true, true],
        ),
        (Head::Tuple, BaseKind::Tuple, true, [true, true, true]),
        (Head::Complex, BaseKind::Complex, true, [false, true, false]),
        (vector, BaseKind::Vector, true, [false, true, false]),
        (Head::Unit, BaseKind::UnitAttr, false, [true, false, false]),
        (
            Head::Dict { keys },
            BaseKind::DictAttr,
            false,
            [false, true, false],
        ),
    ] {
        assert!(rt; is_base(&head, base) && !is_base(&head, BaseKind::Tensor));
        assert_eq!(rt; head.is_type(), is_type);
        assert_eq!(rt; [head.kids_ok(0), head.kids_ok(1), head.kids_ok(2)], kids);
    }
    let dialect = Head::Dialect {
        is_type: false,
        name,
    };
    assert!(rt; !dialect.is_type() && dialect.kids_ok(3) && !is_base(&dialect, BaseKind::UnitAttr));
    Ok(())
}

// A list of texts.
fn texts(alloc: Global, names: &[&[u8]]) -> Result<List<Text>, AllocError> {
    let mut texts = List::new(alloc);
    for name in names {
        texts.push(Text::from_slice(alloc, name)?)?;
    }
    Ok(texts)
}

#[test]
fn a_width_goes_from_1_to_its_limit(rt: HostRuntime) {
    for (width, want) in [
        (0, false),
        (1, true),
        (WIDTH_LIMIT, true),
        (WIDTH_LIMIT + 1, false),
    ] {
        assert_eq!(rt; Head::Int(IntKind::Signed(width)).is_right(), want);
    }
}

#[test]
fn a_number_is_right_as_it_is_kept(rt: HostRuntime) {
    for (n, want) in [(-129, false), (-128, true), (127, true), (255, false)] {
        let kind = IntKind::Signless(8);
        assert_eq!(rt; Head::Number { kind, n }.is_right(), want);
    }
}

#[test]
fn a_vector_knows_its_dimensions(rt: HostRuntime) -> Result<(), Fail> {
    for (kind, dim, want) in [
        (ShapeKind::Vector, Dim::Known(0), false),
        (ShapeKind::Vector, Dim::Known(1), true),
        (ShapeKind::Vector, Dim::Unknown, false),
        (ShapeKind::Tensor, Dim::Unknown, true),
    ] {
        let dims = List::from_slice(rt.alloc(), &[dim])?;
        assert_eq!(rt; Head::Shaped { kind, dims }.is_right(), want);
    }
    Ok(())
}

#[test]
fn an_item_fits_its_width(rt: HostRuntime) -> Result<(), Fail> {
    for (width, item, want) in [(8, 127, true), (8, 128, false), (7, 0, false)] {
        let items = List::from_slice(rt.alloc(), &[item])?;
        assert_eq!(rt; Head::Dense { width, items }.is_right(), want);
    }
    Ok(())
}

// A list of two texts.
fn two(alloc: Global, first: &[u8], second: &[u8]) -> Result<List<Text>, AllocError> {
    let mut texts = List::new(alloc);
    texts.push(Text::from_slice(alloc, first)?)?;
    texts.push(Text::from_slice(alloc, second)?)?;
    Ok(texts)
}

#[test]
fn keys_ascend(rt: HostRuntime) -> Result<(), Fail> {
    for (first, second, want) in [
        (b"a".as_slice(), b"ab".as_slice(), true),
        (b"a", b"a", false),
        (b"b", b"ab", false),
    ] {
        let keys = two(rt.alloc(), first, second)?;
        assert_eq!(rt; Head::Dict { keys }.is_right(), want);
    }
    Ok(())
}
