//! Event groups: bits, and the tasks that wait for some of them.
//! Page: `docs/MODEL.md`. Definitions in reading order (`specs/`): `Wishes`, `GroupSnapshot`,
//! `Groups`, `Sizes`, `GroupChanges`, `PackedGroupChanges`.
#![tactic(auto)]

pub mod group;
pub mod group_change;
pub mod group_packing;
pub mod wish;
