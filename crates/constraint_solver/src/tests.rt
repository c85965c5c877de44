//! Which bodies are met, by which values, and which values are good.
ghost use Rattle.std.specs.Prelude.{◌<◌, ◌≤◌, length, IsTrue, IfOk};
ghost use Rattle.attr_value.specs.Ids.{at};
ghost use Rattle.dialect_defs.specs.Goodness.{Good};
ghost use Rattle.native_predicate.specs.Lists.{tests, count};
ghost use Rattle.constraint_solver.specs.Definitions.{AreSoundDefs};

use super::*;
use attr_uniquer::Uniquer;
use attr_value::{FloatKind, Head, IntKind, List, Text, ValueId};
use dialect_defs::{Arity, BaseRef, Body, Constraint, Entry, TypeDef, VarId};
use native_predicate::{NativePredicate, Natives};
use std::alloc::{AllocError, Global};
use std::process::Abort;
use std::test::Fail;

/// What `solve` gives, where the body and the roots are such as it takes.
fn solved(
    rt: &impl Abort,
    u: &Uniquer,
    natives: &Natives,
    body: &Body,
    roots: &[(VarId, ValueId)],
) -> Option<Assignment> {
    let (len, count) = (u.len(), natives.len());
    assert!(rt; is_sound_body(body, len, count));
    assert!(rt; are_roots(roots, body, len));
    solve(u, natives, body, roots)
}

/// A body of three constraints.
fn body(
    alloc: Global,
    first: Constraint,
    second: Constraint,
    third: Constraint,
) -> Result<Body, AllocError> {
    let mut vars = List::new(alloc);
    vars.push(first)?;
    vars.push(second)?;
    vars.push(third)?;
    Ok(Body { vars })
}

fn any_of(alloc: Global, members: &[VarId]) -> Result<Constraint, AllocError> {
    Ok(Constraint::AnyOf(List::from_slice(alloc, members)?))
}

fn all_of(alloc: Global, members: &[VarId]) -> Result<Constraint, AllocError> {
    Ok(Constraint::AllOf(List::from_slice(alloc, members)?))
}

/// The constraint of !t.pr<..>.
fn pair_of(alloc: Global, parts: &[VarId]) -> Result<Constraint, AllocError> {
    Ok(Constraint::Parametric {
        is_type: true,
        name: Text::from_slice(alloc, b"t.pr")?,
        parts: List::from_slice(alloc, parts)?,
    })
}

fn dialect_type(alloc: Global, name: &[u8]) -> Result<Head, AllocError> {
    Ok(Head::Dialect {
        is_type: true,
        name: Text::from_slice(alloc, name)?,
    })
}

/// The signless integer type of a width.
fn integer(u: &mut Uniquer, width: u32) -> Result<ValueId, AllocError>
    ensures known { IfOk result (λ id. id.0 < length u.new) }
    ensures later { length u.old ≤ length u.new }
{
    u.intern(Head::Int(IntKind::Signless(width)), &[])
}

/// !t.pr of two integer types.
fn pair(alloc: Global, u: &mut Uniquer, l: u32, r: u32) -> Result<ValueId, AllocError> {
    let l = integer(u, l)?;
    let r = integer(u, r)?;
    let head = dialect_type(alloc, b"t.pr")?;
    u.intern(head, &[l, r])
}

/// The body of `pick`: %5 is !t.pr<%0, %1> or !t.pr<%2, %0>.
fn pick(alloc: Global) -> Result<Body, AllocError> {
    let mut vars = List::new(alloc);
    for _ in 0..3u32 {
        vars.push(Constraint::Any)?;
    }
    vars.push(pair_of(alloc, &[VarId(0), VarId(1)])?)?;
    vars.push(pair_of(alloc, &[VarId(2), VarId(0)])?)?;
    vars.push(any_of(alloc, &[VarId(3), VarId(4)])?)?;
    Ok(Body { vars })
}

/// What `pick` gives for an operand of !t.pr<i32, i64> and one of an integer type. i32 has the id
/// 0, i64 has 1, and the pair has 2.
fn picked(rt: &impl Abort, alloc: Global, width: u32) -> Result<Option<Assignment>, AllocError> {
    let mut u = Uniquer::new(alloc);
    let x = pair(alloc, &mut u, 32, 64)?;
    let y = integer(&mut u, width)?;
    let natives = Natives::new(Vec::new(alloc));
    let body = pick(alloc)?;
    Ok(solved(rt, &u, &natives, &body, &[(VarId(5), x), (VarId(0), y)]))
}

#[test]
fn the_second_member_is_tried(rt: HostRuntime) -> Result<(), Fail> {
    let found = picked(&rt, rt.alloc(), 64)?.ok_or("no assignment")?;
    let want = [Some(1), None, Some(0), None, Some(2), Some(2), None];
    for (v, id) in want.iter().enumerate() {
        assert_eq!(rt; found.get(VarId(v)), id.map(ValueId), "variable {v}");
    }
    Ok(())
}

#[test]
fn no_member_fits(rt: HostRuntime) -> Result<(), Fail> {
    assert!(rt; picked(&rt, rt.alloc(), 8)?.is_none());
    Ok(())
}

/// Whether %1, which is !t.pr<%0, %0>, and %2, which is %0, may have these types.
fn shares(rt: &impl Abort, alloc: Global, l: u32, r: u32, one: u32) -> Result<bool, AllocError> {
    let mut u = Uniquer::new(alloc);
    let twice = pair_of(alloc, &[VarId(0), VarId(0)])?;
    let same = all_of(alloc, &[VarId(0)])?;
    let body = body(alloc, Constraint::Any, twice, same)?;
    let x = pair(alloc, &mut u, l, r)?;
    let y = integer(&mut u, one)?;
    let natives = Natives::new(Vec::new(alloc));
    Ok(solved(rt, &u, &natives, &body, &[(VarId(1), x), (VarId(2), y)]).is_some())
}

#[test]
fn a_variable_has_one_value(rt: HostRuntime) -> Result<(), Fail> {
    for (l, r, one, want) in [(32, 32, 32, true), (32, 64, 32, false), (32, 32, 64, false)] {
        assert_eq!(rt; shares(&rt, rt.alloc(), l, r, one)?, want);
    }
    Ok(())
}

/// Whether a variable of this constraint may have a value of this head.
fn takes(
    rt: &impl Abort,
    alloc: Global,
    natives: &Natives,
    constraint: Constraint,
    head: Head,
) -> Result<bool, AllocError> {
    let mut u = Uniquer::new(alloc);
    let id = u.intern(head, &[])?;
    let mut vars = List::new(alloc);
    vars.push(constraint)?;
    let body = Body { vars };
    Ok(solved(rt, &u, natives, &body, &[(VarId(0), id)]).is_some())
}

#[test]
fn a_value_is_of_a_dialect_s_kind(rt: HostRuntime) -> Result<(), Fail> {
    let natives = Natives::new(Vec::new(rt.alloc()));
    for (is_type, name, want) in [
        (true, b"t.pr".as_slice(), true),
        (false, b"t.pr", false),
        (true, b"t.pair", false),
    ] {
        let head = dialect_type(rt.alloc(), name)?;
        let name = Text::from_slice(rt.alloc(), b"t.pr")?;
        let base = Constraint::Base(BaseRef::Defined { is_type, name });
        assert_eq!(rt; takes(&rt, rt.alloc(), &natives, base, head)?, want);
    }
    Ok(())
}

/// A predicate that is true of no value.
#[derive(Drop)]
struct IsNothing;

impl NativePredicate for IsNothing {
    ghost use Rattle.std.specs.Prelude.{codes, false};

    ghost title = { λ it. codes "is_nothing" };

    ghost property = { λ it v. false };

    fn name(&self) -> &str {
        "is_nothing"
    }

    fn holds(&self, _u: &Uniquer, _v: ValueId) -> bool {
        false
    }
}

#[test]
fn a_predicate_is_asked(rt: HostRuntime) -> Result<(), Fail> {
    let alloc = rt.alloc();
    let mut list: Vec<Box<dyn NativePredicate>> = Vec::new(alloc);
    list.push(Box::new(alloc, IsNothing)?)?;
    let natives = Natives::new(list);
    assert!(rt; !takes(&rt, alloc, &natives, Constraint::Native(0), Head::Unit)?);
    Ok(())
}

/// 16 choices of two members each, and a constant, which is settled last.
fn choices(alloc: Global) -> Result<Body, AllocError> {
    let mut vars = List::new(alloc);
    vars.push(Constraint::Is(ValueId(0)))?;
    for n in 0..16usize {
        vars.push(Constraint::Any)?;
        vars.push(Constraint::Any)?;
        vars.push(any_of(alloc, &[VarId(3 * n + 1), VarId(3 * n + 2)])?)?;
    }
    Ok(Body { vars })
}

/// Whether the choices are met, where each is that of one value and the constant is to be another.
fn walks(rt: &impl Abort, alloc: Global, constant: ValueId) -> Result<bool, AllocError> {
    let mut u = Uniquer::new(alloc);
    let _zeroth = integer(&mut u, 32)?;
    let first = integer(&mut u, 64)?;
    let mut roots = Vec::new(alloc);
    roots.push((VarId(0), constant))?;
    for n in 0..16usize {
        roots.push((VarId(3 * n + 3), first))?;
    }
    let natives = Natives::new(Vec::new(alloc));
    let body = choices(alloc)?;
    Ok(solved(rt, &u, &natives, &body, roots.as_slice()).is_some())
}

#[test]
fn all_choices_are_walked_and_refused_at_the_last(rt: HostRuntime) -> Result<(), Fail> {
    assert!(rt; walks(&rt, rt.alloc(), ValueId(0))?);
    assert!(rt; !walks(&rt, rt.alloc(), ValueId(1))?);
    Ok(())
}

/// A definition of the type `cmath.complex`, whose one parameter is one of two values.
fn complex(alloc: Global, first: ValueId, second: ValueId) -> Result<TypeDef, AllocError> {
    let either = any_of(alloc, &[VarId(0), VarId(1)])?;
    let body = body(alloc, Constraint::Is(first), Constraint::Is(second), either)?;
    let name = Text::from_slice(alloc, b"cmath.complex")?;
    let mut params = List::new(alloc);
    params.push(Entry {
        name: None,
        arity: Arity::Single,
        var: VarId(2),
    })?;
    Ok(TypeDef {
        is_type: true,
        name,
        body,
        params,
    })
}

/// Whether a value is good, where it nests at most `deep`: its kids are judged first.
fn is_good(types: &[TypeDef], natives: &Natives, u: &Uniquer, id: ValueId, deep: usize) -> bool
    requires types { AreSoundDefs (length u.now) (count natives.now) types.now }
    requires id { id.0 < length u.now }
    ensures { IsTrue result → Good u.now (tests property natives.now) types.now (at u.now id.0) }
{
    if deep == 0 {
        return false;
    }
    let (_, kids) = u.view(id);
    for kid in kids {
        if !is_good(types, natives, u, *kid, deep - 1) {
            return false;
        }
    }
    good_head(types, natives, u, id)
}

/// Whether !name<kid> is good. Of `cmath.complex` there are two definitions: its parameter is f64
/// by the first, and f32 or f64 by the second. f32 has the id 0, and f64 has 1.
fn is_good_with(
    rt: &impl Abort,
    alloc: Global,
    name: &[u8],
    kid: Head,
) -> Result<bool, AllocError> {
    let mut u = Uniquer::new(alloc);
    let _f32 = u.intern(Head::Float(FloatKind::F32), &[])?;
    let _f64 = u.intern(Head::Float(FloatKind::F64), &[])?;
    let kid = u.intern(kid, &[])?;
    let head = dialect_type(alloc, name)?;
    let id = u.intern(head, &[kid])?;
    let mut types = Vec::new(alloc);
    types.push(complex(alloc, ValueId(1), ValueId(1))?)?;
    types.push(complex(alloc, ValueId(0), ValueId(1))?)?;
    let natives = Natives::new(Vec::new(alloc));
    let (len, count) = (u.len(), natives.len());
    assert!(rt; are_sound_defs(types.as_slice(), len, count));
    Ok(is_good(types.as_slice(), &natives, &u, id, 64))
}

#[test]
fn the_parameter_is_the_value_of_its_variable(rt: HostRuntime) -> Result<(), Fail> {
    for (name, kid, want) in [
        (
            b"cmath.complex".as_slice(),
            Head::Float(FloatKind::F32),
            true,
        ),
        (b"cmath.complex", Head::Int(IntKind::Signless(32)), false),
        (b"cmath.other", Head::Float(FloatKind::F32), false),
    ] {
        assert_eq!(rt; is_good_with(&rt, rt.alloc(), name, kid)?, want);
    }
    Ok(())
}

/// Whether the definition whose parameter is f32 or f64 has an instance with this one, asked by the
/// name `cmath.complex` and of the definition itself.
fn has_instance(rt: &impl Abort, alloc: Global, kid: Head) -> Result<(bool, bool), AllocError> {
    let mut u = Uniquer::new(alloc);
    let first = u.intern(Head::Float(FloatKind::F32), &[])?;
    let second = u.intern(Head::Float(FloatKind::F64), &[])?;
    let kids = [u.intern(kid, &[])?];
    let types = [complex(alloc, first, second)?];
    let name = Text::from_slice(alloc, b"cmath.complex")?;
    let natives = Natives::new(Vec::new(alloc));
    let (len, count) = (u.len(), natives.len());
    assert!(rt; are_sound_defs(&types, len, count));
    assert!(rt; is_sound_def(&types[0], len, count));
    let named = is_instance(&types, &natives, &u, true, &name, &kids);
    Ok((named, is_instance_of(&types[0], &natives, &u, &kids)))
}

#[test]
fn an_instance_is_of_a_name_and_of_a_definition(rt: HostRuntime) -> Result<(), Fail> {
    for (kid, want) in [(FloatKind::F64, true), (FloatKind::F16, false)] {
        let found = has_instance(&rt, rt.alloc(), Head::Float(kid))?;
        assert_eq!(rt; found, (want, want));
    }
    Ok(())
}

/// A definition with so many parameters, none of which keeps to anything.
fn unconstrained(alloc: Global, count: usize) -> Result<TypeDef, AllocError> {
    let mut vars = List::new(alloc);
    let mut params = List::new(alloc);
    for v in 0..count {
        vars.push(Constraint::Any)?;
        params.push(Entry {
            name: None,
            arity: Arity::Single,
            var: VarId(v),
        })?;
    }
    Ok(TypeDef {
        is_type: true,
        name: Text::from_slice(alloc, b"t.wide")?,
        body: Body { vars },
        params,
    })
}

/// Whether one value is the parameter of an instance of such a definition.
fn takes_one(rt: &impl Abort, alloc: Global, count: usize) -> Result<bool, AllocError> {
    let mut u = Uniquer::new(alloc);
    let kids = [integer(&mut u, 8)?];
    let d = unconstrained(alloc, count)?;
    let natives = Natives::new(Vec::new(alloc));
    let (len, count) = (u.len(), natives.len());
    assert!(rt; is_unconstrained(&d));
    assert!(rt; is_sound_def(&d, len, count));
    Ok(is_instance_of(&d, &natives, &u, &kids))
}

#[test]
fn kids_of_an_unconstrained_definition_are_counted(rt: HostRuntime) -> Result<(), Fail> {
    for (count, want) in [(0, false), (1, true), (2, false), (65, false)] {
        assert_eq!(rt; takes_one(&rt, rt.alloc(), count)?, want);
    }
    Ok(())
}
