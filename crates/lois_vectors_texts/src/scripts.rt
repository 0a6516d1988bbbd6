//! The trees of scripts, each call once with ample memory.

use crate::making::{at, name};
use lois_script::{
    Binding, Bindings, Cond, Conds, Expr, Exprs, Operation, Param, Params, Stmt, Stmts,
};
use std::test::Fail;

fn offset_of(expr: Expr) -> usize {
    expr.pos().offset
}

#[test]
fn expressions_begin_at_their_first_token(rt: HostRuntime) -> Result<(), Fail> {
    let alloc = rt.alloc();
    assert_eq!(rt; offset_of(Expr::Atoms(at(1))), 1);
    assert_eq!(rt; offset_of(Expr::Tuple(at(5), Exprs::new(alloc))), 5);
    assert_eq!(rt; offset_of(Expr::Listed(at(6), Exprs::new(alloc))), 6);
    assert_eq!(rt;
        offset_of(Expr::Apply(at(10), Operation::Flatten, Exprs::new(alloc))),
        10
    );
    Ok(())
}

#[test]
fn names_begin_at_their_first_byte(rt: HostRuntime) -> Result<(), Fail> {
    let alloc = rt.alloc();
    assert_eq!(rt; offset_of(Expr::Var(at(2), name(&rt, alloc, b"x")?)), 2);
    assert_eq!(rt; offset_of(Expr::Tag(at(3), name(&rt, alloc, b"eq")?)), 3);
    Ok(())
}

#[test]
fn parts_and_comprehensions_begin_at_their_first_token(rt: HostRuntime) -> Result<(), Fail> {
    let alloc = rt.alloc();
    let whole = Box::new(alloc, Expr::Atoms(at(4)))?;
    assert_eq!(rt; offset_of(Expr::Part(at(9), whole, 1)), 9);
    let item = Box::new(alloc, Expr::Atoms(at(7)))?;
    let always = Box::new(alloc, Cond::True)?;
    assert_eq!(rt;
        offset_of(Expr::Each(at(8), item, Bindings::new(alloc), always)),
        8
    );
    Ok(())
}

#[test]
fn lists_of_expressions_keep_their_items(rt: HostRuntime) -> Result<(), Fail> {
    let alloc = rt.alloc();
    let mut exprs = Exprs::new(alloc);
    assert_eq!(rt; exprs.len(), 0);
    exprs.push(Expr::Atoms(at(3)))?;
    exprs.push(Expr::Atoms(at(9)))?;
    assert_eq!(rt; exprs.len(), 2);
    assert_eq!(rt; exprs.as_slice().len(), 2);
    assert_eq!(rt; exprs.get(1).map(|expr| expr.pos().offset), Some(9));
    assert!(rt; exprs.get(2).is_none());

    Ok(())
}

#[test]
fn lists_of_bindings_keep_their_items(rt: HostRuntime) -> Result<(), Fail> {
    let alloc = rt.alloc();
    let mut bindings = Bindings::new(alloc);
    let word = name(&rt, alloc, b"x")?;
    bindings.push(Binding {
        pos: at(5),
        name: word,
        from: Expr::Atoms(at(10)),
    })?;
    assert_eq!(rt; bindings.len(), 1);
    assert_eq!(rt; bindings.as_slice().len(), 1);
    assert_eq!(rt;
        bindings.get(0).map(|binding| binding.from.pos().offset),
        Some(10)
    );
    assert!(rt; bindings.get(1).is_none());

    Ok(())
}

#[test]
fn lists_of_conditions_keep_their_items(rt: HostRuntime) -> Result<(), Fail> {
    let alloc = rt.alloc();
    let mut conds = Conds::new(alloc);
    conds.push(Cond::Empty(Expr::Atoms(at(2))))?;
    assert_eq!(rt; conds.len(), 1);
    assert_eq!(rt; conds.as_slice().len(), 1);
    assert!(rt; matches!(conds.get(0), Some(Cond::Empty(_))));
    assert!(rt; conds.get(1).is_none());
    Ok(())
}

#[test]
fn lists_of_statements_keep_their_items(rt: HostRuntime) -> Result<(), Fail> {
    let alloc = rt.alloc();
    let mut stmts = Stmts::new(alloc);
    stmts.push(Stmt::Assert(at(17), Cond::True))?;
    assert_eq!(rt; stmts.len(), 1);
    assert_eq!(rt; stmts.as_slice().len(), 1);
    assert!(rt; matches!(stmts.get(0), Some(Stmt::Assert(_, _))));
    assert!(rt; stmts.get(1).is_none());

    Ok(())
}

#[test]
fn lists_of_parameters_keep_their_items(rt: HostRuntime) -> Result<(), Fail> {
    let alloc = rt.alloc();
    let mut params = Params::new(alloc);
    let word = name(&rt, alloc, b"a")?;
    params.push(Param {
        pos: at(23),
        name: word,
    })?;
    assert_eq!(rt; params.len(), 1);
    assert_eq!(rt; params.as_slice().len(), 1);
    assert_eq!(rt; params.get(0).map(|param| param.pos.offset), Some(23));
    assert!(rt; params.get(1).is_none());
    Ok(())
}

#[test]
fn operations_have_words(rt: HostRuntime) {
    assert_eq!(rt; Operation::Flatten.word(), b"flatten".as_slice());
    assert_eq!(rt; Operation::Minimise.word(), b"minimise".as_slice());
}
