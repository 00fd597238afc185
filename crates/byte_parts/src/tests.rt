// Parts one behind the other.
use crate::put;

#[test]
fn parts_stand_one_behind_the_other(rt: HostRuntime) {
    let mut block = [0; 6];
    put(&mut block, 0, b"ab");
    put(&mut block, 2, &[]);
    put(&mut block, 2, b"c");
    put(&mut block, 5, b"z");
    assert!(rt; block == *b"abc\0\0z");
    put(&mut block, 1, b"xy");
    assert!(rt; block == *b"axy\0\0z");
}
