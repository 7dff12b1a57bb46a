use ast_rows::Rows;
use source_meaning::{BinaryOp, Kind, ValueType};
use std::test::*;

// fn f(): int { return 1 + 2; }
const KINDS: [Kind; 7] = [
    Kind::Num(1),
    Kind::Num(2),
    Kind::Binary(BinaryOp::Plus),
    Kind::Return,
    Kind::Block,
    Kind::Function(ValueType::Int),
    Kind::Program,
];

#[test]
fn rows_of_a_function(rt: HostRuntime) -> Result<(), Fail> {
    let alloc = rt.alloc();
    let kinds = Vec::from_array(alloc, KINDS)?;
    let parents = vec![in alloc; 2, 2, 3, 4, 5, 6, 6]?;
    let tokens = vec![in alloc; 8, 10, 9, 7, 6, 1, 4294967295]?;
    let places = vec![in alloc; 0, 1, 0, 0, 0, 0, 0]?;
    let rows = Rows::from_columns(alloc, kinds, parents, tokens, places)?.ok_or("rows")?;
    assert!(rt; rows.lows() == [0, 1, 0, 0, 0, 0, 0].as_slice());
    assert!(rt; rows.functions() == [5].as_slice());
    assert!(rt; rows.owners() == [0, 0, 0, 0, 0, 0, 1, 1].as_slice());
    Ok(())
}
