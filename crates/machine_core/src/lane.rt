/// What stands for a lane before a block's first sample, where no head is chosen yet: above each lane of a head.
pub const NO_LANE: u32 = 65_535;
