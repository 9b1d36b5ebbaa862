//! Settings that no command line gives.
use heap_lock::Config;
use std::test::Fail;

#[test]
fn settings_have_limits(rt: HostRuntime) -> Result<(), Fail> {
    assert!(rt; are_settings(256, 16, 65_536) && are_settings(1, 1, 1));
    assert!(rt; !are_settings(257, 16, 65_536) && !are_settings(0, 1, 1));
    assert!(rt; !are_settings(256, 17, 65_536) && !are_settings(1, 0, 1));
    assert!(rt; !are_settings(256, 16, 65_537) && !are_settings(1, 1, 0));
    Ok(())
}

// Returns whether there are settings of these numbers.
fn are_settings(regions: u64, mutators: u64, keep: u64) -> bool {
    Config::new(regions, mutators, keep).is_some()
}

#[test]
fn wide_settings_have_wider_limits(rt: HostRuntime) -> Result<(), Fail> {
    assert!(rt; are_wide_settings(65_536, 16, 16_777_216) && are_wide_settings(1, 1, 1));
    assert!(rt; !are_wide_settings(65_537, 16, 65_536) && !are_wide_settings(0, 1, 1));
    assert!(rt; !are_wide_settings(256, 17, 65_536) && !are_wide_settings(1, 0, 1));
    assert!(rt; !are_wide_settings(256, 16, 16_777_217) && !are_wide_settings(1, 1, 0));
    Ok(())
}

// Returns whether there are settings of these numbers for a wide heap.
fn are_wide_settings(regions: u64, mutators: u64, keep: u64) -> bool {
    Config::wide(regions, mutators, keep).is_some()
}
