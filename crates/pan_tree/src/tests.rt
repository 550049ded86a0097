//! Shapes with their words, and pairs that are the same or aren't.

use crate::shape::Shape;
use crate::shapes::{copy_shape, count_words, is_word, same, words};
use pan_base::{NoMemory, single};
use std::alloc::Global;
use std::test::Fail;

/// `{shape}`
fn lone(alloc: Global, shape: Shape) -> Result<Shape, NoMemory> {
    Ok(Shape::Group(single(alloc, shape)?))
}

/// `{first, second}`
fn pair(alloc: Global, first: Shape, second: Shape) -> Result<Shape, NoMemory> {
    let mut parts = single(alloc, first)?;
    parts.push(second)?;
    Ok(Shape::Group(parts))
}

#[test]
fn words_of_shapes(rt: HostRuntime) -> Result<(), Fail> {
    let alloc = rt.alloc();
    let rows = [
        (Shape::Word, 1, 1),
        (Shape::Words(3), 3, 3),
        (lone(alloc, Shape::Word)?, 1, 1),
        (pair(alloc, Shape::Words(2), Shape::Word)?, 3, 3),
        (Shape::Words(64), 64, 64),
        (Shape::Words(65), 65, 65),
        (Shape::Words(66), 66, 65),
        (pair(alloc, Shape::Words(40), Shape::Words(40))?, 80, 65),
    ];
    for (i, (shape, count, capped)) in rows.iter().enumerate() {
        assert_eq!(rt; count_words(shape), *count, "in row {i}");
        assert_eq!(rt; words(shape), *capped, "in row {i}");
    }
    Ok(())
}

#[test]
fn same_shapes(rt: HostRuntime) -> Result<(), Fail> {
    let alloc = rt.alloc();
    let ones = pair(alloc, Shape::Word, Shape::Word)?;
    let nested = pair(alloc, copy_shape(alloc, &ones)?, Shape::Word)?;
    let rows = [
        (Shape::Word, lone(alloc, Shape::Word)?, false),
        (Shape::Words(2), ones, true),
        (pair(alloc, Shape::Words(2), Shape::Word)?, nested, true),
        (Shape::Words(2), Shape::Words(3), false),
        (
            pair(alloc, Shape::Word, Shape::Words(2))?,
            Shape::Words(3),
            false,
        ),
    ];
    for (i, (left, right, want)) in rows.iter().enumerate() {
        assert_eq!(rt; same(left, right), *want, "in row {i}");
        assert_eq!(rt; same(right, left), *want, "in row {i}, the other way");
        assert!(rt;
            same(&copy_shape(alloc, left)?, left),
            "the copy in row {i}"
        );
    }
    Ok(())
}

#[test]
fn words_apart(rt: HostRuntime) -> Result<(), Fail> {
    assert!(rt; is_word(&Shape::Word));
    assert!(rt; !is_word(&Shape::Words(2)));
    assert!(rt; !is_word(&lone(rt.alloc(), Shape::Word)?));
    Ok(())
}
