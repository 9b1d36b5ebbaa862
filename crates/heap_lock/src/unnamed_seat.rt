//! Seats of a heap that no type names yet.
use crate::role::Role;
use crate::table_side::TableSide;
use atomic_table::Badge;

/// What a seat is made of.
#[derive(Drop)]
pub struct UnnamedSeat {
    pub number: u64,
    pub role: Role,
    pub share: Badge<TableSide>,
}
