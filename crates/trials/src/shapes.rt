//! Whole matrices.
use crate::kernels::{One, Wide};
use blocked::{tiles, transpose};
use split::{Region, Walk};
use std::alloc::Global;
use std::test::Fail;
use tile::{Plain, Segmented, TileKernel};

/// Numbers a matrix, transposes it and compares every cell. A number is what 32 bits hold of a place, so that `as` takes it.
fn moves<K: TileKernel, L: TileKernel>(
    heap: Global,
    width: usize,
    height: usize,
    tiled: &mut K,
    leaf: &mut L,
) -> Result<(), Fail> {
    let cells = width.checked_mul(height).ok_or("too large")?;
    let mut input = vec![in heap; 0u32; cells]?;
    let mut output = vec![in heap; 0u32; cells]?;
    for (i, number) in input.iter_mut().enumerate() {
        *number = (i & 0xffff_ffff) as u32;
    }
    transpose(&input, &mut output, width, height, tiled, leaf)?;
    // with no rows there are no cells, and no column to cut off
    for (x, column) in output.chunks(height.max(1)).enumerate() {
        for (y, number) in column.iter().enumerate() {
            let from = y.wrapping_mul(width).wrapping_add(x);
            if *number != (from & 0xffff_ffff) as u32 {
                return Err(Fail::new("a cell is misplaced"));
            }
        }
    }
    Ok(())
}

/// Width, height, and what the two kernels of the library have then counted.
#[test]
fn counted(rt: HostRuntime) -> Result<(), Fail> {
    let cases = [
        (15, 17, 0, 0),
        (16, 16, 1, 0),
        (17, 16, 1, 0),
        (31, 33, 2, 0),
        (1000, 1000, 3844, 0),
        (1024, 1024, 4096, 0),
        (1040, 1024, 0, 4096),
        (1024, 1040, 0, 4096),
        (1030, 1030, 0, 4096),
        (1500, 701, 0, 3200),
        (4096, 257, 0, 4096),
    ];
    for (width, height, by_region, by_leaves) in cases {
        let mut tiled = Plain::new(0);
        let mut leaf = Segmented::new(0);
        let announced = tiles(width, height, &tiled, &leaf)?;
        moves(rt.alloc(), width, height, &mut tiled, &mut leaf)?;
        assert_eq!(rt; tiled.moved(), by_region);
        assert_eq!(rt; leaf.moved(), by_leaves);
        assert_eq!(rt; announced, by_region.max(by_leaves));
    }
    Ok(())
}

/// One, two and three cells wide, at both sides of 255 and of 1,048,576 cells; and the same lying down.
#[test]
fn thin(rt: HostRuntime) -> Result<(), Fail> {
    let cases = [
        (1, [255, 256, 1048576, 1048577]),
        (2, [127, 128, 524288, 524289]),
        (3, [85, 86, 349525, 349526]),
    ];
    for (side, lengths) in cases {
        for length in lengths {
            let mut tiled = Plain::new(0);
            let mut leaf = Segmented::new(0);
            moves(rt.alloc(), side, length, &mut tiled, &mut leaf)?;
            moves(rt.alloc(), length, side, &mut tiled, &mut leaf)?;
            assert_eq!(rt; tiled.moved(), 0);
            assert_eq!(rt; leaf.moved(), 0);
        }
    }
    Ok(())
}

/// Width, height, the counts of kernels of side 1 and 128, and those of 128 and 1.
#[test]
fn other_sides(rt: HostRuntime) -> Result<(), Fail> {
    let cases = [
        (16, 16, (256, 0), (0, 0)),
        (300, 200, (60000, 0), (2, 0)),
        (1024, 1024, (1048576, 0), (64, 0)),
        (1040, 1024, (0, 0), (0, 1064960)),
        (1025, 1024, (0, 56), (0, 1049600)),
    ];
    for (width, height, first, second) in cases {
        let mut one = One::new(0);
        let mut wide = Wide::new(0);
        moves(rt.alloc(), width, height, &mut one, &mut wide)?;
        assert_eq!(rt; (one.moved(), wide.moved()), first);
        let mut one = One::new(0);
        let mut wide = Wide::new(0);
        moves(rt.alloc(), width, height, &mut wide, &mut one)?;
        assert_eq!(rt; (wide.moved(), one.moved()), second);
    }
    Ok(())
}

/// Width, height, and the tiles, or the refusal's number.
#[test]
fn announced(rt: HostRuntime) {
    let cases = [
        (0, 5, Ok(0)),
        (4096, 4096, Ok(65536)),
        (4097, 4096, Err(13)),
        (16777217, 1, Err(13)),
        (4294967296, 4294967296, Err(1)),
    ];
    for (width, height, answer) in cases {
        let found = tiles(width, height, &Plain::new(7), &Segmented::new(9));
        assert_eq!(rt; found.map_err(|fault| fault.number()), answer);
    }
}

#[test]
fn leaves(rt: HostRuntime) {
    let mut walk = Walk::<64>::new(Region {
        row_start: 0,
        row_end: 1024,
        col_start: 0,
        col_end: 1040,
    });
    // `count` alone asks for a bound on the leaves
    assert_eq!(rt; walk.by_ref().take(1000).count(), 128);
    assert!(rt; walk.next().is_none());
}
