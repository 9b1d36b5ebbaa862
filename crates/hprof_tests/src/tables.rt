//! Tables that grow, and one that is fitted.
use id_table::IdTable;
use std::test::*;

#[test]
fn identifiers_keep_their_places(rt: HostRuntime) -> Result<(), Fail> {
    let mut table = IdTable::new(rt.alloc());
    assert_eq!(rt; table.index_of(8), None);
    for i in 0..1000 {
        let is_new = table.insert(i * 24 + 8).ok().ok_or("memory")?;
        assert!(rt; is_new);
    }
    let is_new = table.insert(32).ok().ok_or("memory")?;
    assert!(rt; !is_new);
    table.fit().ok().ok_or("memory")?;
    assert_eq!(rt; table.len(), 1000);
    assert_eq!(rt; table.index_of(8), Some(0));
    assert_eq!(rt; table.index_of(32), Some(1));
    assert_eq!(rt; table.index_of(999 * 24 + 8), Some(999));
    assert_eq!(rt; table.index_of(33), None);
    assert!(rt; table.contains(32));
    assert!(rt; !table.contains(0));
    assert!(rt; table.is_at(1, 32));
    assert!(rt; !table.is_at(0, 32));
    assert!(rt; !table.is_at(1000, 32));
    Ok(())
}
