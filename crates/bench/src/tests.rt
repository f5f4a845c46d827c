// Tables that are made: they hold nothing.
use super::{Lists, Table};
use circuit::Gate;
use std::test::Fail;
use valuation::Value;

#[test]
fn lists_are_blank(rt: HostRuntime) -> Result<(), Fail> {
    let lists = Lists::new(rt.alloc(), 2, 3)?;
    assert_eq!(rt; lists.play.entries(), [Value::Unknown; 2].as_slice());
    assert_eq!(rt; lists.values.entries(), [Value::Unknown; 3].as_slice());
    assert_eq!(rt; lists.forced.entries(), [Value::Unknown; 3].as_slice());
    assert_eq!(rt; lists.marks.entries(), [false; 3].as_slice());
    assert_eq!(rt; lists.copies.entries().len(), 3);
    let gates = Table::<Gate, 4>::new(rt.alloc(), 2)?;
    assert_eq!(rt; gates.entries(), [Gate::free(); 2].as_slice());
    Ok(())
}
