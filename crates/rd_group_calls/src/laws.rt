//! Laws of event groups, in their own words.

ghost use Rattle.rd_group_calls.specs.GroupLaws.{ClearingHasNoOrder, SettingsMeetTogether};

/// A law: all whom one setting meets are given the same bits, whatever their order; whoever isn't
/// met stays as they were, with their place in the order of arrival; bits are cleared once, after
/// all were met; and a setting that meets nobody changes the bits alone (`xEventGroupSetBits`).
pub fn settings_meet_together()
    ensures { SettingsMeetTogether }
{}

/// A law: it doesn't matter in which order those who were met clear the bits that they waited for.
pub fn clearing_has_no_order()
    ensures { ClearingHasNoOrder }
{}
